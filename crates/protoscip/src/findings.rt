//! What a report tells of a tree.

ghost use Rattle.std.specs.Prelude.{◌≡◌, ◌++◌, [], ◌∷◌, IfOk, OnOk, map, option_map, string_bytes, if◌then◌else◌};
ghost use Rattle.std.specs.List.{All};
ghost use Rattle.protoscip.specs.FaultLines.{HasFile, HasFilesOf, HaveFilesOf};
ghost use Rattle.protoscip.specs.Faults.{fault_of_omission};
ghost use Rattle.protoscip.specs.FindingLaws.{FindingsComeOnce};
ghost use Rattle.protoscip.specs.Findings.{
  all_findings,
  counts_of,
  counts_with,
  faults_of,
  faults_with,
  finding_of,
  first_of,
  import_of,
  is_gap_at,
  is_import_at,
  is_one_place,
  is_other,
  is_uncertain_at,
  is_use_at,
  kind_of,
  leaves_out,
  met_of,
  named_of,
  place_of,
  place_of_span,
  refused_findings,
  refused_in,
  refused_kind,
  tells_same,
  told_finding,
  told_findings,
};
ghost use Rattle.protoscip.specs.ToldLines.{told_beside};

use crate::explaining::tail;
use crate::fault::Fault;
use crate::sentences::{sentence_in, spanned};
use crate::telling::{
    count_imports, count_left_out, count_skipped, count_skipped_sources, count_uses, told_read,
};
use crate::tree_counter::TreeCounter;
use crate::unread::{UnreadPath, unread_findings};
use fault_reports::{Counts, Finding, FindingKind, Place};
use index_hooks::Chooses;
use proto_link::FilePlace;
use scip_build::Omission;
use source_tree::Tree;
use std::alloc::{AllocError, Global};

/// What counts the places of findings, and their first places.
#[derive(Drop)]
struct Counters<'a> {
    own: TreeCounter<'a>,
    first: TreeCounter<'a>,
}

/// At no file of the tree.
fn counters_of(tree: &Tree) -> Counters<'_>
    ensures own { result.own ≡ tree.now }
    ensures first { result.first ≡ tree.now }
{
    Counters {
        own: TreeCounter::new(tree),
        first: TreeCounter::new(tree),
    }
}

/// A place of a file, with its end.
fn place_of_span<'a>(counter: &mut TreeCounter<'a>, place: &FilePlace) -> Place<'a>
    requires { HasFile counter.old place.now.file }
    ensures place { result ≡ place_of_span counter.old place.now }
    ensures same { counter.new ≡ counter.old }
{
    let start = place.span.start as usize;
    counter.place_in(place.file, Some(start), Some(place.span.end as usize))
}

/// Where a fault is, if it is of a file.
fn place_of<'a>(counter: &mut TreeCounter<'a>, fault: &Fault) -> Option<Place<'a>>
    requires { HasFilesOf counter.old fault.now }
    ensures place { result ≡ place_of counter.old fault.now }
    ensures same { counter.new ≡ counter.old }
{
    match fault {
        Fault::Unread(file) => Some(counter.place_in(*file, None, None)),
        Fault::Lex(file, fault) => Some(counter.place_in(*file, fault.offset(), None)),
        Fault::Syntax(file, fault) => Some(counter.place_in(*file, fault.offset(), None)),
        Fault::Duplicate(_, second) => Some(place_of_span(counter, second)),
        Fault::MissingImport(place) => Some(place_of_span(counter, place)),
        Fault::Unresolved(place) => Some(place_of_span(counter, place)),
        Fault::Ambiguous(place) => Some(place_of_span(counter, place)),
        Fault::OptionGap(place) => Some(place_of_span(counter, place)),
        Fault::Uncertain(place, _) => Some(place_of_span(counter, place)),
        Fault::Spawn
        | Fault::Memory
        | Fault::TooLarge
        | Fault::Write(_)
        | Fault::Read
        | Fault::Answer(_) => None,
    }
}

/// Where a full name is first given that is given again; of an uncertain use, the file that can't be read.
fn first_of<'a>(counter: &mut TreeCounter<'a>, fault: &Fault) -> Option<Place<'a>>
    requires { HasFilesOf counter.old fault.now }
    ensures place { result ≡ first_of counter.old fault.now }
    ensures same { counter.new ≡ counter.old }
{
    match fault {
        Fault::Duplicate(first, _) => Some(place_of_span(counter, first)),
        Fault::Uncertain(_, behind) => Some(counter.place_in(*behind, None, None)),
        _ => None,
    }
}

/// The string literals of an import without a file.
fn import_of<'a>(tree: &'a Tree, fault: &Fault) -> Option<&'a [u8]>
    requires { HasFilesOf tree.now fault.now }
    ensures { option_map (λ path. path.now) result ≡ import_of tree.now fault.now }
{
    match fault {
        Fault::MissingImport(place) => Some(spanned(tree, place)),
        _ => None,
    }
}

/// The bytes of a source from the token on that the parser met.
fn met_of<'a>(tree: &'a Tree, fault: &Fault) -> Option<&'a [u8]>
    requires { HasFilesOf tree.now fault.now }
    ensures { option_map (λ bytes. bytes.now) result ≡ met_of tree.now fault.now }
{
    match fault {
        Fault::Syntax(file, fault) => match fault.offset() {
            Some(at) => Some(tail(tree.bytes(*file), at)),
            None => None,
        },
        _ => None,
    }
}

/// The bytes of what is named where a fault is.
fn named_of<'a>(tree: &'a Tree, fault: &Fault) -> Option<&'a [u8]>
    requires { HasFilesOf tree.now fault.now }
    ensures { option_map (λ bytes. bytes.now) result ≡ named_of tree.now fault.now }
{
    match fault {
        Fault::Duplicate(_, second) => Some(spanned(tree, second)),
        Fault::MissingImport(place) => Some(spanned(tree, place)),
        Fault::Unresolved(place) => Some(spanned(tree, place)),
        Fault::Ambiguous(place) => Some(spanned(tree, place)),
        Fault::OptionGap(place) => Some(spanned(tree, place)),
        Fault::Uncertain(place, _) => Some(spanned(tree, place)),
        _ => None,
    }
}

/// The finding of a fault of the tree. The places are counted on from those before.
fn counted_finding<'a>(
    kind: FindingKind,
    tree: &'a Tree,
    counters: &mut Counters<'a>,
    fault: &Fault,
) -> Finding<'a>
    requires fault { HasFilesOf tree.now fault.now }
    requires own { counters.old.own ≡ tree.now }
    requires first { counters.old.first ≡ tree.now }
    ensures finding { result ≡ finding_of kind tree.now fault.now }
    ensures own { counters.new.own ≡ tree.now }
    ensures first { counters.new.first ≡ tree.now }
{
    Finding {
        kind,
        name: fault.name(),
        message: sentence_in(tree, fault),
        place: place_of(&mut counters.own, fault),
        met: met_of(tree, fault),
        named: named_of(tree, fault),
        first: first_of(&mut counters.first, fault),
        import: import_of(tree, fault),
    }
}

/// The finding of a fault of the tree.
///
/// The file numbers in the fault have to be below the tree's `file_count`, as `fault_line` asks it.
pub fn finding_of<'a>(kind: FindingKind, tree: &'a Tree, fault: &Fault) -> Finding<'a>
    requires { HasFilesOf tree.now fault.now }
    ensures { result ≡ finding_of kind tree.now fault.now }
{
    counted_finding(kind, tree, &mut counters_of(tree), fault)
}

/// What a thing is that an index lacks.
fn kind_of(omission: &Omission) -> FindingKind
    ensures { result ≡ kind_of omission.now }
{
    match omission {
        Omission::File(..) | Omission::Duplicate(..) => FindingKind::Skipped,
        Omission::MissingImport(_) => FindingKind::Unresolved,
        Omission::Unresolved(_) | Omission::Ambiguous(_) => FindingKind::Unresolved,
        Omission::OptionGap(_) => FindingKind::Unresolved,
        Omission::Uncertain(..) => FindingKind::Uncertain,
    }
}

/// The finding of what an index of the tree lacks. The places are counted on from those before.
fn told_finding<'a>(tree: &'a Tree, counters: &mut Counters<'a>, omission: &Omission) -> Finding<'a>
    requires files { HasFilesOf tree.now (fault_of_omission omission.now) }
    requires own { counters.old.own ≡ tree.now }
    requires first { counters.old.first ≡ tree.now }
    ensures finding { result ≡ told_finding tree.now omission.now }
    ensures own { counters.new.own ≡ tree.now }
    ensures first { counters.new.first ≡ tree.now }
{
    counted_finding(kind_of(omission), tree, counters, &Fault::from(*omission))
}

/// The findings of what is told of an index of the tree: each thing, in this order.
///
/// The file numbers in what is told have to be below the tree's `file_count`, as `told_text` asks it. An error means
/// that memory was refused.
pub fn told_findings<'a>(
    alloc: Global,
    tree: &'a Tree,
    told: &[Omission],
) -> Result<Vec<Finding<'a>>, AllocError>
    requires { HaveFilesOf tree.now told.now }
    ensures { IfOk result (λ findings. findings.items ≡ told_findings tree.now told.now) }
{
    let mut counters = counters_of(tree);
    let mut findings = Vec::new(alloc);
    for omission in told {
        let finding = told_finding(tree, &mut counters, omission);
        findings.push(finding)?;
    }
    Ok(findings)
}

/// The findings of what is told beside what couldn't be read.
fn findings_beside<'a>(
    alloc: Global,
    tree: &'a Tree,
    unread: &[UnreadPath],
    told: &[Omission],
) -> Result<Vec<Finding<'a>>, AllocError>
    requires { HaveFilesOf tree.now told.now }
    ensures { IfOk result (λ findings. findings.items ≡ told_findings tree.now (told_beside unread.now told.now)) }
{
    match unread {
        [] => told_findings(alloc, tree, told),
        [_, ..] => {
            let read = told_read(alloc, told)?;
            told_findings(alloc, tree, read.as_slice())
        }
    }
}

/// The findings of what is told of an index of the tree, and before these one for each path that couldn't be read and
/// was left out: a file of the tree among them is told there alone.
///
/// The file numbers in what is told have to be below the tree's `file_count`, as `told_text` asks it. An error means
/// that memory was refused.
pub fn all_findings<'a>(
    alloc: Global,
    tree: &'a Tree,
    unread: &'a [UnreadPath],
    told: &[Omission],
) -> Result<Vec<Finding<'a>>, AllocError>
    requires { HaveFilesOf tree.now told.now }
    ensures { IfOk result (λ findings. findings.items ≡ all_findings tree.now unread.now told.now) }
{
    let mut findings = unread_findings(alloc, unread)?;
    let mut others = findings_beside(alloc, tree, unread, told)?;
    findings.append(&mut others)?;
    Ok(findings)
}

/// What is told, as faults of a run.
fn faults_of(alloc: Global, told: &[Omission]) -> Result<Vec<Fault>, AllocError>
    ensures { IfOk result (λ faults. faults.items ≡ faults_of told.now) }
{
    let mut faults = Vec::new(alloc);
    for omission in told {
        faults.push(Fault::from(*omission))?;
    }
    Ok(faults)
}

/// Whether the file with this number would be left out for a fault.
fn leaves_out(number: usize, fault: &Fault) -> bool
    ensures { result ≡ leaves_out number fault.now }
{
    match fault {
        Fault::Unread(other) => number == *other,
        Fault::Lex(other, _) | Fault::Syntax(other, _) => number == *other,
        Fault::Duplicate(_, second) => number == second.file,
        _ => false,
    }
}

/// Whether two places are one.
fn is_one_place(a: &FilePlace, b: &FilePlace) -> bool
    ensures { result ≡ is_one_place a.now b.now }
{
    a.file == b.file && a.span.start == b.span.start && a.span.end == b.span.end
}

/// Whether a fault is that of the import at this place.
fn is_import_at(place: &FilePlace, fault: &Fault) -> bool
    ensures { result ≡ is_import_at place.now fault.now }
{
    match fault {
        Fault::MissingImport(other) => is_one_place(place, other),
        _ => false,
    }
}

/// Whether a fault is that of the use at this place.
fn is_use_at(place: &FilePlace, fault: &Fault) -> bool
    ensures { result ≡ is_use_at place.now fault.now }
{
    match fault {
        Fault::Unresolved(other) => is_one_place(place, other),
        Fault::Ambiguous(other) => is_one_place(place, other),
        _ => false,
    }
}

/// Whether a fault is that of the option at this place.
fn is_gap_at(place: &FilePlace, fault: &Fault) -> bool
    ensures { result ≡ is_gap_at place.now fault.now }
{
    match fault {
        Fault::OptionGap(other) => is_one_place(place, other),
        _ => false,
    }
}

/// Whether a fault is that of the uncertain use at this place.
fn is_uncertain_at(place: &FilePlace, fault: &Fault) -> bool
    ensures { result ≡ is_uncertain_at place.now fault.now }
{
    match fault {
        Fault::Uncertain(other, _) => is_one_place(place, other),
        _ => false,
    }
}

/// Whether the second tells of the same file, import, use or option as the first.
fn tells_same(fault: &Fault, other: &Fault) -> bool
    ensures { result ≡ tells_same fault.now other.now }
{
    match fault {
        Fault::Unread(number) => leaves_out(*number, other),
        Fault::Lex(number, _) | Fault::Syntax(number, _) => leaves_out(*number, other),
        Fault::Duplicate(_, second) => leaves_out(second.file, other),
        Fault::MissingImport(place) => is_import_at(place, other),
        Fault::Unresolved(place) => is_use_at(place, other),
        Fault::Ambiguous(place) => is_use_at(place, other),
        Fault::OptionGap(place) => is_gap_at(place, other),
        Fault::Uncertain(place, _) => is_uncertain_at(place, other),
        _ => false,
    }
}

/// Appends a fault, unless it tells of the same as this one.
fn push_other(faults: &mut Vec<Fault>, own: &Fault, fault: &Fault) -> Result<(), AllocError>
    ensures { OnOk result (faults.new.items
        ≡ faults.old.items ++ (if is_other own.now fault.now then fault.now ∷ [] else [])) }
{
    if tells_same(own, fault) {
        return Ok(());
    }
    Ok(faults.push(*fault)?)
}

/// A fault, and then the others of these.
fn faults_with(alloc: Global, own: &Fault, told: &[Fault]) -> Result<Vec<Fault>, AllocError>
    ensures { IfOk result (λ faults. faults.items ≡ faults_with own.now told.now) }
{
    let mut faults = vec![in alloc; *own]?;
    for fault in told {
        push_other(&mut faults, own, fault)?;
    }
    Ok(faults)
}

/// What a fault is of a run that is refused: for an uncertain use none would be.
fn refused_kind(fault: &Fault) -> FindingKind
    ensures { result ≡ refused_kind fault.now }
{
    match fault {
        Fault::Uncertain(..) => FindingKind::Uncertain,
        _ => FindingKind::Fault,
    }
}

/// The findings of faults: each is one for which a run is refused, but for uncertain uses.
fn refused_in<'a>(
    alloc: Global,
    tree: &'a Tree,
    faults: &[Fault],
) -> Result<Vec<Finding<'a>>, AllocError>
    requires { All (HasFilesOf tree.now) faults.now }
    ensures { IfOk result (λ findings. findings.items ≡ refused_in tree.now faults.now) }
{
    let mut counters = counters_of(tree);
    let mut findings = Vec::new(alloc);
    for fault in faults {
        let finding = counted_finding(refused_kind(fault), tree, &mut counters, fault);
        findings.push(finding)?;
    }
    Ok(findings)
}

/// The findings of a run that is refused for this fault: the fault, and then what else would be told, as `told_of_tree`
/// gives it if faults are skipped, in its order. What tells of the same file, import or use isn't told again.
///
/// The file numbers in the fault, and in what is told, have to be below the tree's `file_count`. An error means that
/// memory was refused.
pub fn refused_findings<'a>(
    alloc: Global,
    tree: &'a Tree,
    fault: &Fault,
    told: &[Omission],
) -> Result<Vec<Finding<'a>>, AllocError>
    requires fault { HasFilesOf tree.now fault.now }
    requires told { HaveFilesOf tree.now told.now }
    ensures { IfOk result (λ findings. findings.items ≡ refused_findings tree.now fault.now told.now) }
{
    let others = faults_of(alloc, told)?;
    let faults = faults_with(alloc, fault, others.as_slice())?;
    refused_in(alloc, tree, faults.as_slice())
}

/// The counts for the last line of a report, of a tree with this many sources, and of a run that ends with this status.
pub fn counts_of(sources: usize, told: &[Omission], status: u8) -> Counts
    ensures { result ≡ counts_of sources told.now status }
{
    Counts {
        sources: sources.saturating_sub(count_skipped_sources(sources, told)),
        skipped: count_skipped(told),
        imports: count_imports(told),
        uses: count_uses(told),
        status,
    }
}

/// The same, with what couldn't be read and was left out.
pub fn counts_with(sources: usize, unread: &[UnreadPath], told: &[Omission], status: u8) -> Counts
    ensures { result ≡ counts_with sources unread.now told.now status }
{
    Counts {
        skipped: count_left_out(unread, told),
        ..counts_of(sources, told, status)
    }
}

/// No two findings of what is told are alike, with what couldn't be read, if no two of its paths are; and no two faults
/// of a run that is refused.
pub fn findings_come_once<C: Chooses>(chooser: &C)
    ensures { FindingsComeOnce (C.allows chooser.now) }
{}
