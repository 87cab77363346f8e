//! Laws of commands, each the contract of a function that does nothing.

ghost use Rattle.std.specs.Prelude.{◌≡◌, ℕ, List, Some};
ghost use Rattle.scip_query.specs.Commands.{Command, IsCommand};
ghost use Rattle.scip_query.specs.CommandReading.{command_of};
ghost use Rattle.scip_query.specs.MoreCommands.{MoreCommand, IsMoreCommand};
ghost use Rattle.scip_query.specs.MoreCommandReading.{more_command_of};
ghost use Rattle.scip_records.specs.declared.records.Index.{Index};
ghost use Rattle.scip_query.specs.AnswerText.{answer_of};
ghost use Rattle.scip_query.specs.Answers.{given_to, more_given_to};
ghost use Rattle.scip_query.specs.MoreAnswers.{more_answer_of, text_of};

/// A line is read as the command that the grammar gives it, and as no other.
pub fn commands_follow_the_grammar()
    ensures found { (line : List ℕ) (command : Command) → command_of line ≡ Some command → IsCommand line command }
    ensures exact { (line : List ℕ) (command : Command) → IsCommand line command → command_of line ≡ Some command }
{}

/// The same where more commands are known.
pub fn more_commands_follow_the_grammar()
    ensures found { (line : List ℕ) (command : MoreCommand) → more_command_of line ≡ Some command → IsMoreCommand line
        command }
    ensures exact { (line : List ℕ) (command : MoreCommand) → IsMoreCommand line command → more_command_of line
        ≡ Some command }
{}

/// Each form of an answer shows the answer whose text `query` writes.
pub fn answers_have_their_text()
    ensures plain { (index : Index) (command : Command) → answer_of index command ≡ text_of (given_to index command) }
    ensures more { (index : Index) (command : MoreCommand) → more_answer_of index command
        ≡ text_of (more_given_to index command) }
{}
