//! How commands are asked for, and taken.

ghost use Rattle.std.specs.Prelude.{◌≡◌};
ghost use Rattle.programs.specs.Manners.{answers_json, knows_more, manner_of, takes_commands};

use command_line::Request;
use scip_query::Manner;
use std::alloc::AllocError;
use streams::{Failed, Feed};

/// What is shown where a command is waited for.
const PROMPT: &str = "> ";

/// Whether more commands are known to what is asked for.
fn knows_more(asked: &Result<Request, AllocError>) -> bool
    ensures { result ≡ knows_more asked.now }
{
    match asked {
        Ok(Request::Query(options)) => options.more,
        Ok(Request::Shell(given)) => given.more,
        _ => false,
    }
}

/// Whether what is asked for reads commands.
pub fn takes_commands(asked: &Result<Request, AllocError>) -> bool
    ensures { result ≡ takes_commands asked.now }
{
    match asked {
        Ok(Request::Query(_)) => true,
        Ok(Request::Shell(_)) => true,
        _ => false,
    }
}

/// Whether what is asked for answers in JSON.
fn answers_json(asked: &Result<Request, AllocError>) -> bool
    ensures { result ≡ answers_json asked.now }
{
    match asked {
        Ok(Request::Query(options)) => options.json,
        _ => false,
    }
}

/// How commands are taken and answered: in JSON if that is asked for; else on a terminal all are known, and it is said
/// in sentences why one isn't answered.
pub fn manner_of(asked: &Result<Request, AllocError>, is_terminal: bool) -> Manner
    ensures { result ≡ manner_of asked.now is_terminal }
{
    if answers_json(asked) {
        Manner::Json
    } else if is_terminal {
        Manner::Spoken
    } else if knows_more(asked) {
        Manner::More
    } else {
        Manner::Plain
    }
}

/// A feed of commands that asks for each on a terminal.
///
/// It asks there before each read, and ends the line where there is nothing more to read. Nothing depends on it: what
/// can't be shown is lost.
#[derive(Drop)]
pub struct Prompting<'a, T: Eprint, F> {
    feed: F,
    terminal: &'a T,
    asks: bool,
}

impl<'a, T: Eprint, F> Prompting<'a, T, F> {
    /// Commands that are asked for on a terminal, or not.
    pub fn new(feed: F, terminal: &'a T, asks: bool) -> Prompting<'a, T, F> {
        Prompting {
            feed,
            terminal,
            asks,
        }
    }

    /// Shows a text, where commands are asked for.
    fn show(&self, text: &str) {
        if self.asks {
            let _ = self.terminal.eprint(text);
        }
    }
}

impl<'a, T: Eprint, F: Feed> Feed for Prompting<'a, T, F> {
    ghost use Rattle.programs.specs.Manners.{feed_of};

    ghost remaining = { λ p. F.remaining (feed_of p) };

    ghost failures = { λ p. F.failures (feed_of p) };

    ghost reads = { λ p. F.reads (feed_of p) };

    ghost ends = { λ p. F.ends (feed_of p) };

    fn read(&mut self, room: &mut [u8]) -> Result<usize, Failed> {
        self.show(PROMPT);
        let result = self.feed.read(room);
        if let Ok(count) = &result {
            if *count == 0 {
                self.show("\n");
            }
        }
        result
    }
}
