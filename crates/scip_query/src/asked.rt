//! What is asked in one line.

ghost use Rattle.std.specs.Prelude.{◌≡◌};
ghost use Rattle.std.specs.Option.{option_map};
ghost use Rattle.scip_query.specs.AskedInLine.{asked_about, asked_there};
ghost use Rattle.scip_query.specs.MoreViews.{more_view};

use crate::command::{Command, Question, path_of};
use crate::more_command::{MoreCommand, place_of};

/// A question about the place that `pos` asks about.
fn asked_there<'a>(question: Question, place: MoreCommand<'a>) -> MoreCommand<'a>
    ensures { more_view result ≡ asked_there question (more_view place.entry) }
{
    match (question, place) {
        (Question::References, MoreCommand::Known(Command::Ask(_, position, path))) => {
            MoreCommand::Known(Command::Ask(question, position, path))
        }
        (Question::Documentation, MoreCommand::Known(Command::Ask(_, position, path))) => {
            MoreCommand::Entry(position, path)
        }
        (_, place) => place,
    }
}

/// The question about a text: it is a place if it is spelled `PATH:LINE:COL`, with LINE and COL from 1, as for `pos`, and
/// else a name. The empty text is neither.
#[tactic(auto, unfolding(crate::specs::AskedInLine::asked_about))]
pub fn asked_about(question: Question, text: &str) -> Option<MoreCommand<'_>>
    ensures { option_map more_view result ≡ asked_about question text.now }
{
    let bytes = text.as_bytes();
    if let Some(place) = place_of(bytes) {
        return Some(asked_there(question, place));
    }
    let name = path_of(bytes)?;
    Some(MoreCommand::Named(question, name))
}
