//! In which file each source has the messages of its options.

ghost use Rattle.std.specs.Prelude.{ℕ, ◌≡◌, ◌<◌, ◌↔◌, Bool, true, None, Some, IsTrue, IfOk, Contains, length};
ghost use Rattle.std.specs.List.{list_any};
ghost use Rattle.std.specs.List.Sorted.{IsNonDecreasing};
ghost use Rattle.proto_visibility.specs.Files.{File};
ghost use Rattle.proto_visibility.specs.Reaches.{IsDescriptor, descriptor_path};
ghost use Rattle.proto_visibility.specs.Tables.ImportTables.{AreNumbered, IsTableOf, number_in};
ghost use Rattle.proto_visibility.specs.Tables.OptionTables.{AreOptionsIn, AreAnswers, answer_of, one_or_several};
ghost use Rattle.proto_visibility.specs.Tables.OptionTables.{has_file_options, is_file_options};

use crate::backward::{first_ends, turned};
use crate::files::LinkFile;
use crate::import_table::Steps;
use proto_decl::{Declaration, DeclarationKind};
use std::alloc::{AllocError, Global};
use std::collections::HashMap;

/// In which file a source has the messages of its options: in one that its imports lead to, or in the file that protoc
/// comes with.
#[derive(Clone, Copy, Debug, Drop, PartialEq, Eq)]
pub enum OptionsIn {
    /// In none.
    Nowhere,
    /// In the file with this number alone.
    At(usize),
    /// In several: its imports lead to a file with these messages, and to a copy of it.
    Several,
}

/// The path of the file that protoc comes with, which declares the messages of options.
const DESCRIPTOR_PATH: &str = "google/protobuf/descriptor.proto";

/// For each file in which one it has the messages of its options; for none, if no names in options are linked.
pub(crate) fn options_of(
    alloc: Global,
    files: &[LinkFile],
    table: &[Steps],
    numbers: &HashMap<&str, usize>,
) -> Result<Vec<OptionsIn>, AllocError>
    requires table { IsTableOf files.now table.now }
    requires numbers { AreNumbered files.now numbers.now }
    ensures { IfOk result (λ known. AreOptionsIn files.now known.items) }
{
    if !link_options(files) {
        return Ok(Vec::new(alloc));
    }
    let mut ends = descriptors(alloc, files)?;
    let back = turned(alloc, table)?;
    let firsts = first_ends(alloc, back.as_slice(), ends.as_slice())?;
    ends.reverse();
    let lasts = first_ends(alloc, back.as_slice(), ends.as_slice())?;
    let built_in = built_in_file(numbers);
    let known = answers(alloc, firsts.as_slice(), lasts.as_slice(), built_in)?;
    Ok(known)
}

/// The file that protoc comes with, by its path.
fn built_in_file(numbers: &HashMap<&str, usize>) -> Option<usize>
    ensures { result ≡ number_in numbers.now descriptor_path }
{
    numbers.get(DESCRIPTOR_PATH).copied()
}

/// Whether names in the options of one of the files are linked.
fn link_options(files: &[LinkFile]) -> bool
    ensures { result ≡ list_any (λ (file : File). file.links_options) files.now }
{
    files.iter().any(|file| file.links_options())
}

/// The files with the messages of options, in order.
fn descriptors(alloc: Global, files: &[LinkFile]) -> Result<Vec<usize>, AllocError>
    ensures each { IfOk result (λ numbers. (number : ℕ) → Contains numbers.items number ↔ IsDescriptor files.now number) }
    ensures in_order { IfOk result (λ numbers. IsNonDecreasing numbers.items) }
{
    let mut numbers = Vec::new(alloc);
    for (number, file) in files.iter().enumerate() {
        if !has_file_options(file) {
            continue;
        }
        numbers.push(number)?;
    }
    Ok(numbers)
}

/// Whether a file has the messages of options.
fn has_file_options(file: &LinkFile) -> bool
    ensures { result ≡ has_file_options file.now }
{
    match file.facts {
        Some(facts) => facts
            .declarations()
            .iter()
            .any(|declaration| is_file_options(declaration)),
        None => false,
    }
}

/// Whether it is the message of the options of files.
fn is_file_options(declaration: &Declaration) -> bool
    ensures { result ≡ is_file_options declaration.now }
{
    match declaration.kind() {
        DeclarationKind::Message => declaration.full_name().is("google.protobuf.FileOptions"),
        DeclarationKind::Enum
        | DeclarationKind::Service
        | DeclarationKind::Field
        | DeclarationKind::Oneof
        | DeclarationKind::Value
        | DeclarationKind::Method => false,
    }
}

/// The answer for each file, by the first and by the last of the files with these messages to which its imports lead,
/// and by the file that protoc comes with.
fn answers(
    alloc: Global,
    firsts: &[Option<usize>],
    lasts: &[Option<usize>],
    built_in: Option<usize>,
) -> Result<Vec<OptionsIn>, AllocError>
    requires { length lasts.now ≡ length firsts.now }
    ensures { IfOk result (λ known. AreAnswers firsts.now lasts.now built_in known.items) }
{
    let mut known = Vec::with_capacity(alloc, firsts.len())?;
    for index in 0..firsts.len() {
        known.push_reserved(answer(firsts[index], lasts[index], built_in));
    }
    Ok(known)
}

/// The answer for one.
fn answer(first: Option<usize>, last: Option<usize>, built_in: Option<usize>) -> OptionsIn
    ensures { result ≡ answer_of first last built_in }
{
    match first {
        Some(first) => one_or_several(first, last),
        None => match built_in {
            Some(number) => OptionsIn::At(number),
            None => OptionsIn::Nowhere,
        },
    }
}

/// The answer where there is a first one.
fn one_or_several(first: usize, last: Option<usize>) -> OptionsIn
    ensures { result ≡ one_or_several first last }
{
    match last {
        Some(last) => {
            if first == last {
                OptionsIn::At(first)
            } else {
                OptionsIn::Several
            }
        }
        None => OptionsIn::Several,
    }
}
