//! The limits that an index has to keep.

ghost use Rattle.std.specs.Prelude.{◌≡◌, IfOk, map, string_bytes};
ghost use Rattle.streams.specs.Writers.{writer};
ghost use Rattle.programs.specs.Limits.{broken_by, limit_status, said_of, sentence_with, told, too_few, too_many};
ghost use Rattle.programs.specs.Messages.{Tells};

use crate::messages::report;
use command_line::Limits;
use protoscip::{SOURCES_STATUS, UnreadPath, count_left_out, count_skipped_sources, plain_line};
use scip_build::Omission;
use std::alloc::{AllocError, Global};
use streams::Sink;

/// No limits.
pub(crate) const NO_LIMITS: Limits = Limits {
    max_skipped: None,
    min_sources: None,
};

/// The limit that an index breaks.
#[derive(Clone, Copy, Debug, PartialEq, Eq)]
pub(crate) enum LimitFault {
    /// So many files are left out, and only so many may be.
    TooManySkipped(usize, usize),
    /// So many sources are indexed, and so many have to be.
    TooFewSources(usize, usize),
}

/// A line end, and then words between two numbers.
fn sentence_with(
    alloc: Global,
    first: usize,
    words: &str,
    second: usize,
) -> Result<String, AllocError>
    ensures { IfOk result (λ text. string_bytes text ≡ sentence_with first words.now second) }
{
    format!(in alloc; "\n{first}{words}{second}")
}

/// What is said of the limit that an index breaks.
#[derive(Clone, Copy)]
struct LimitSaid {
    /// The name in its line.
    name: &'static str,
    /// How many files are left out, or how many sources are indexed.
    counted: usize,
    /// The words between the two numbers.
    words: &'static str,
    /// How many there may be, or have to be.
    limit: usize,
}

impl LimitFault {
    /// What is said of it.
    fn said(&self) -> LimitSaid
        ensures name { result.name.now ≡ (said_of self.now).name }
        ensures counted { result.counted ≡ (said_of self.now).counted }
        ensures words { result.words.now ≡ (said_of self.now).words }
        ensures limit { result.limit ≡ (said_of self.now).limit }
    {
        match *self {
            LimitFault::TooManySkipped(skipped, most) => LimitSaid {
                name: "TooManySkipped",
                counted: skipped,
                words: " files are left out, and --max-skipped allows ",
                limit: most,
            },
            LimitFault::TooFewSources(indexed, least) => LimitSaid {
                name: "TooFewSources",
                counted: indexed,
                words: " sources are indexed, and --min-sources wants ",
                limit: least,
            },
        }
    }

    /// The line, without its end, that says this, explained if that is asked for.
    fn text(&self, alloc: Global, explain: bool) -> Result<String, AllocError>
        ensures { IfOk result (λ text. string_bytes text ≡ told explain self.now) }
    {
        let said = self.said();
        let mut text = plain_line(alloc, said.name)?;
        if !explain {
            return Ok(text);
        }
        let sentence = sentence_with(alloc, said.counted, said.words, said.limit)?;
        text.push_str(sentence.as_str())?;
        Ok(text)
    }
}

/// More files are left out than may be, if that is limited.
fn too_many(most: Option<usize>, skipped: usize) -> Option<LimitFault>
    ensures { result ≡ too_many most skipped }
{
    match most {
        Some(most) if most < skipped => Some(LimitFault::TooManySkipped(skipped, most)),
        _ => None,
    }
}

/// Fewer sources are indexed than have to be, if that is limited.
fn too_few(least: Option<usize>, indexed: usize) -> Option<LimitFault>
    ensures { result ≡ too_few least indexed }
{
    match least {
        Some(least) if indexed < least => Some(LimitFault::TooFewSources(indexed, least)),
        _ => None,
    }
}

/// The limit that an index breaks which lacks this, of a tree with this many sources, without what couldn't be read.
/// That of what is left out is the first.
pub(crate) fn broken_by(
    limits: Limits,
    sources: usize,
    unread: &[UnreadPath],
    told: &[Omission],
) -> Option<LimitFault>
    ensures { result ≡ broken_by limits sources unread.now told.now }
{
    let indexed = sources.saturating_sub(count_skipped_sources(sources, told));
    let skipped = count_left_out(unread, told);
    too_many(limits.max_skipped, skipped).or(too_few(limits.min_sources, indexed))
}

/// Says which limit an index breaks, explained if that is asked for, and gives the exit status.
pub(crate) fn report_limit<M: Sink>(
    alloc: Global,
    fault: LimitFault,
    explain: bool,
    messages: &mut M,
) -> u8
    ensures { Tells (told explain fault) limit_status (writer M.Sink messages) result }
{
    report(fault.text(alloc, explain), SOURCES_STATUS, messages)
}
