//! What is known of files that were read, beside their facts, and their texts.

ghost use Rattle.std.specs.Prelude.{◌≡◌, true, IfOk, map};
ghost use Rattle.option_link.specs.Beside.{beside_of};
ghost use Rattle.scip_build.specs.Documents.{beside_in, known_in, text_of, texts_of};

use crate::parsed_file::ParsedFile;
use option_link::{FilesBeside, OptionFacts};
use std::alloc::{AllocError, Global};

/// What is known of a file beside its facts, if anything is.
fn beside_at<'a>(parsed_file: &'a ParsedFile<'_>) -> Option<&'a OptionFacts>
    ensures { beside_of result ≡ beside_in parsed_file.now.contents }
{
    match &parsed_file.contents {
        Ok(contents) => contents.beside.as_ref(),
        Err(_) => None,
    }
}

/// What is known of files beside their facts, each under its number; of no file, if it isn't asked for.
pub(crate) fn files_beside<'a>(
    alloc: Global,
    parsed: &'a [ParsedFile<'_>],
    asked: bool,
) -> Result<FilesBeside<'a>, AllocError>
    ensures { IfOk result (λ beside. asked ≡ true → beside ≡ known_in parsed.now) }
{
    let mut beside = FilesBeside::new(alloc);
    if !asked {
        return Ok(beside);
    }
    for parsed_file in parsed {
        beside.push(beside_at(parsed_file))?;
    }
    Ok(beside)
}

/// The text of a file that was read; the empty one, if it can't be read.
fn text_of<'a>(parsed_file: &'a ParsedFile<'_>) -> &'a str
    ensures { result.now ≡ text_of parsed_file.now }
{
    match &parsed_file.contents {
        Ok(contents) => contents.text.as_str(),
        Err(_) => "",
    }
}

/// The texts of files, each under its number.
pub(crate) fn texts_of<'a>(
    alloc: Global,
    parsed: &'a [ParsedFile<'_>],
) -> Result<Vec<&'a str>, AllocError>
    ensures { IfOk result (λ texts. map (λ text. text.now) texts.items ≡ texts_of parsed.now) }
{
    let mut texts = Vec::with_capacity(alloc, parsed.len())?;
    for parsed_file in parsed {
        texts.push(text_of(parsed_file))?;
    }
    Ok(texts)
}
