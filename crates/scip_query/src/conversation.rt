//! Answers to commands that are read.

ghost use Rattle.std.specs.Prelude.{◌≡◌, ◌++◌, ◌∷◌, [], List, ℕ, OnOk};
ghost use Rattle.scip_query.specs.MoreAnswers.{reply_to};
ghost use Rattle.scip_query.specs.Conversing.{IsConversed, IsConversedIn, LeavesFeed};
ghost use Rattle.scip_query.specs.Tables.ConversingSteps.{kept_with, Stands, Goes, AnswersNext, Concludes};
ghost use Rattle.streams.specs.Readers.{IsReadBriefly, reader};
ghost use Rattle.streams.specs.Writers.{writer};

use crate::answer_fault::AnswerFault;
use crate::command::MAX_COMMAND_LENGTH;
use crate::manner::Manner;
use crate::queries::Queries;
use std::alloc::{AllocError, Global};
use std::marker::Model;
use streams::{Failed, Feed, MAX_READS, Sink, write_all};

/// How many bytes are read at a time, at most.
const BUFFER_LENGTH: usize = 16_384;

/// The line that is being read, and how much was answered.
#[derive(Drop)]
struct Conversation {
    /// The line so far; of one that is too long for a command, one byte more than a command may have.
    line: Vec<u8>,
    /// How many bytes of answers went out, up to `u64::MAX`.
    written: u64,
}

/// Keeps a byte of the line, if what is kept isn't too long for a command already.
fn keep(line: &mut Vec<u8>, byte: u8) -> Result<(), AllocError>
    ensures { OnOk result (line.new.items ≡ kept_with line.old.items byte) }
{
    if line.len() <= MAX_COMMAND_LENGTH {
        line.push(byte)?;
    }
    Ok(())
}

/// Queries, and the manner in which commands about them are answered. Contracts see the index, and the manner.
#[derive(Drop)]
struct Answering<'a> {
    queries: &'a Queries,
    manner: Manner,
}

impl<'a> Model for Answering<'a> {
    ghost use Rattle.scip_query.specs.MoreAnswers.{Asked};

    ghost Value = { Asked };

    ghost view = { λ a. record { index = a.queries.now; manner = a.manner } };
}

impl<'a> Answering<'a> {
    /// Answers the line, and begins the next.
    fn reply<W: Sink>(
        &self,
        alloc: Global,
        conversation: &mut Conversation,
        answers: &mut W,
    ) -> Result<(), AnswerFault>
        ensures { AnswersNext (writer W.Sink answers) conversation.old conversation.new
            (reply_to self.now conversation.old.line.items) result }
    {
        let text = self
            .queries
            .reply_in(alloc, self.manner, conversation.line.as_slice())?;
        let written = conversation.written;
        match write_all(answers, text.as_bytes()) {
            Ok(()) => {
                conversation.written = written.saturating_add(text.len() as u64);
                conversation.line.clear();
                Ok(())
            }
            Err(cut_off) => {
                let count = written.saturating_add(cut_off.written as u64);
                Err(AnswerFault::Write(count))
            }
        }
    }

    /// Takes in one byte: answers the line that it ends, or keeps it.
    fn take_in<W: Sink>(
        &self,
        alloc: Global,
        conversation: &mut Conversation,
        byte: u8,
        answers: &mut W,
    ) -> Result<(), AnswerFault>
        ensures { (first : W) (read : List ℕ) → Stands W.Sink self.now first read conversation.old answers.old
            → Goes W.Sink self.now first (read ++ byte ∷ []) conversation.new answers.new result }
    {
        if byte == b'\n' {
            self.reply(alloc, conversation, answers)
        } else {
            keep(&mut conversation.line, byte)?;
            Ok(())
        }
    }

    /// Takes in some bytes, and answers the lines that end in them.
    fn take_in_all<W: Sink>(
        &self,
        alloc: Global,
        conversation: &mut Conversation,
        bytes: &[u8],
        answers: &mut W,
    ) -> Result<(), AnswerFault>
        ensures { (first : W) (read : List ℕ) → Stands W.Sink self.now first read conversation.old answers.old
            → Goes W.Sink self.now first (read ++ bytes.now) conversation.new answers.new result }
    {
        for byte in bytes {
            self.take_in(alloc, conversation, *byte, answers)?;
        }
        Ok(())
    }

    /// Answers the last line, which has no `\n`, if there is one.
    fn conclude<W: Sink>(
        &self,
        alloc: Global,
        conversation: &mut Conversation,
        answers: &mut W,
    ) -> Result<(), AnswerFault>
        ensures { (first : W) (read : List ℕ) → Stands W.Sink self.now first read conversation.old answers.old
            → Concludes W.Sink self.now first read answers.new result }
    {
        if conversation.line.is_empty() {
            Ok(())
        } else {
            self.reply(alloc, conversation, answers)
        }
    }

    /// Reads commands to their end, and answers each.
    fn answer_all<R: Feed, W: Sink>(
        &self,
        alloc: Global,
        commands: &mut R,
        answers: &mut W,
    ) -> Result<(), AnswerFault>
        ensures replies { IsConversedIn self.now (reader R.Feed commands) (writer W.Sink answers) result }
        ensures feed { LeavesFeed (reader R.Feed commands) result }
        ensures briefly { IsReadBriefly (reader R.Feed commands) }
    {
        let mut buffer = [0u8; BUFFER_LENGTH];
        let mut conversation = Conversation {
            line: Vec::new(alloc),
            written: 0,
        };
        'reads: for _read in 0..MAX_READS {
            let count = match commands.read(&mut buffer) {
                Ok(count) => count,
                Err(Failed) => return Err(AnswerFault::Read),
            };
            if count == 0 {
                return self.conclude(alloc, &mut conversation, answers);
            }
            self.take_in_all(alloc, &mut conversation, &buffer[..count], answers)?;
        }
        Err(AnswerFault::Read)
    }
}

impl Queries {
    /// Reads commands, one a line, to their end, and writes the answer to each as soon as its line has ended, in as
    /// many writes as the sink takes. A last line without `\n` is a command if it isn't empty. A line of more than
    /// `MAX_COMMAND_LENGTH` bytes is a bad command, and isn't kept whole.
    ///
    /// - `Read`: a read failed, or `MAX_READS` reads gave no end. The lines that had ended are answered.
    /// - `Write(count)`: a write failed after so many bytes of the answers.
    /// - `Memory`: the commands before are answered, and nothing of this one's answer was written.
    pub fn answer_all<R: Feed, W: Sink>(
        &self,
        alloc: Global,
        commands: &mut R,
        answers: &mut W,
    ) -> Result<(), AnswerFault>
        ensures replies { IsConversed self.now (reader R.Feed commands) (writer W.Sink answers) result }
        ensures feed { LeavesFeed (reader R.Feed commands) result }
        ensures briefly { IsReadBriefly (reader R.Feed commands) }
    {
        self.answer_all_in(alloc, Manner::Plain, commands, answers)
    }

    /// The same in a manner, which says what commands there are and how they are answered.
    pub fn answer_all_in<R: Feed, W: Sink>(
        &self,
        alloc: Global,
        manner: Manner,
        commands: &mut R,
        answers: &mut W,
    ) -> Result<(), AnswerFault>
        ensures replies { IsConversedIn (record { index = self.now; manner = manner }) (reader R.Feed commands)
            (writer W.Sink answers) result }
        ensures feed { LeavesFeed (reader R.Feed commands) result }
        ensures briefly { IsReadBriefly (reader R.Feed commands) }
    {
        let answering = Answering {
            queries: self,
            manner,
        };
        answering.answer_all(alloc, commands, answers)
    }
}
