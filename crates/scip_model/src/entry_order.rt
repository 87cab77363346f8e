//! The order of a source's entries, by their texts.
//!
//! A comparison of two texts reads memory in two places that are far apart. So the numbers of a source with many
//! entries are first put near their order: by the file, the packages and the topmost declarations that they are or are
//! in, which have ranks, and by text only in one of these. If that is their order already, the sort by text that
//! follows looks at each just once. How near the first order comes is promised nowhere: only time depends on it.

ghost use Rattle.std.specs.Prelude.{◌≡◌, OnOk};
ghost use Rattle.std.specs.Ordering.{nat_cmp};
ghost use Rattle.std.specs.Cmp.Lexicographic.{slice_cmp};
ghost use Rattle.std.specs.List.Sorted.{IsPermutation};
ghost use Rattle.scip_model.specs.Tables.Plans.{text_at};

use crate::symbol_table::{SymbolTable, declaration_number, number_at};
use proto_decl::{Declaration, FileFacts};
use std::alloc::{AllocError, Global};
use std::cmp::Ordering;

/// Fewer entries are sorted by text at once.
const MANY: usize = 1000;

/// Numbers by their texts.
pub(crate) fn compare_texts(texts: &SymbolTable, a: u32, b: u32) -> Ordering
    ensures { result ≡ slice_cmp nat_cmp (text_at texts.now a) (text_at texts.now b) }
{
    texts.compare(a, b)
}

/// Adds the number of a declaration, if it is in no other one.
fn push_if_topmost(
    numbers: &mut Vec<u32>,
    facts: &FileFacts,
    index: usize,
    declaration: &Declaration,
) -> Result<(), AllocError> {
    let (outer, _) = declaration.path().parts();
    if outer.is_empty() {
        let number = declaration_number(facts, index)?;
        numbers.push(number)?;
    }
    Ok(())
}

/// The numbers of the file, its packages, and the declarations that are in no other one, by text.
fn topmost(alloc: Global, texts: &SymbolTable, facts: &FileFacts) -> Result<Vec<u32>, AllocError> {
    let mut numbers = Vec::new(alloc);
    for index in 0..facts.package_name().len().saturating_add(1) {
        let number = number_at(index)?;
        numbers.push(number)?;
    }
    for (index, declaration) in facts.declarations().iter().enumerate() {
        push_if_topmost(&mut numbers, facts, index, declaration)?;
    }
    numbers.sort_unstable_by(|a, b| compare_texts(texts, *a, *b));
    Ok(numbers)
}

/// So many zeros.
fn zeros(alloc: Global, count: usize) -> Result<Vec<u32>, AllocError> {
    let mut ranks = Vec::with_capacity(alloc, count)?;
    for _ in 0..count {
        ranks.push(0)?;
    }
    Ok(ranks)
}

/// Sets the rank of a number, if it has one.
fn set_rank(ranks: &mut Vec<u32>, number: u32, rank: u32) {
    if let Some(place) = ranks.get_mut(number as usize) {
        *place = rank;
    }
}

/// Gives each number that has no rank that of the last one before it that has.
fn fill(ranks: &mut Vec<u32>) {
    let mut last = 0;
    for rank in ranks.iter_mut() {
        if *rank == 0 {
            *rank = last;
        } else {
            last = *rank;
        }
    }
}

/// For each number of the source's own texts a rank: that of the topmost declaration that is, or has, what has the
/// number. Declarations are in the order of the source, so those in another one come behind it. The file and its
/// packages have their own.
fn ranks_by(alloc: Global, topmost: &[u32], count: usize) -> Result<Vec<u32>, AllocError> {
    let mut ranks = zeros(alloc, count)?;
    for (index, number) in topmost.iter().enumerate() {
        let rank = number_at(index.saturating_add(1))?;
        set_rank(&mut ranks, *number, rank);
    }
    fill(&mut ranks);
    Ok(ranks)
}

/// The rank of a number.
fn rank_of(ranks: &[u32], number: u32) -> u32 {
    match ranks.get(number as usize) {
        Some(rank) => *rank,
        None => 0,
    }
}

/// By rank, then by text.
fn compare_near(ranks: &[u32], texts: &SymbolTable, a: u32, b: u32) -> Ordering {
    match rank_of(ranks, a).cmp(&rank_of(ranks, b)) {
        Ordering::Equal => compare_texts(texts, a, b),
        apart => apart,
    }
}

/// Puts many numbers near the order of their texts.
pub(crate) fn put_near(
    alloc: Global,
    numbers: &mut Vec<u32>,
    texts: &SymbolTable,
    facts: &FileFacts,
) -> Result<(), AllocError>
    ensures { OnOk result (IsPermutation numbers.old.items numbers.new.items) }
{
    if numbers.len() < MANY {
        return Ok(());
    }
    let topmost = topmost(alloc, texts, facts)?;
    let count = 1 + facts.package_name().len() + facts.declarations().len();
    let ranks = ranks_by(alloc, topmost.as_slice(), count)?;
    numbers.sort_unstable_by(|a, b| compare_near(ranks.as_slice(), texts, *a, *b));
    Ok(())
}
