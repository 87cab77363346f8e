//! How arguments and options of each kind are made.

ghost use Rattle.std.specs.Prelude.{◌≡◌};
ghost use Rattle.clap.specs.Words.{rule_of};
ghost use Rattle.command_line.specs.Arguments.{
  flag_rule,
  option_rule,
  optional_rule,
  or_default,
  repeated,
  required_rule,
  taking_words,
};

use clap::{Arg, ArgAction};
use std::alloc::Global;

/// An argument that has to be given.
pub(crate) fn required<'a>(alloc: Global, name: &'a str, help: &'a str) -> Arg<'a>
    ensures { rule_of result ≡ required_rule name.entry.now }
{
    Arg::new(alloc, name).help(help).required(true)
}

/// An argument that may be given.
pub(crate) fn optional<'a>(alloc: Global, name: &'a str, help: &'a str) -> Arg<'a>
    ensures { rule_of result ≡ optional_rule name.entry.now }
{
    Arg::new(alloc, name).help(help)
}

/// An option `--name VALUE` that takes any text.
pub(crate) fn option<'a>(alloc: Global, name: &'a str, value: &'a str, help: &'a str) -> Arg<'a>
    ensures { rule_of result ≡ option_rule name.entry.now }
{
    Arg::new(alloc, name)
        .long(name)
        .value_name(value)
        .help(help)
}

/// An option `--name` without a value.
pub(crate) fn flag<'a>(alloc: Global, name: &'a str, help: &'a str) -> Arg<'a>
    ensures { rule_of result ≡ flag_rule name.entry.now }
{
    Arg::new(alloc, name)
        .long(name)
        .help(help)
        .action(ArgAction::SetTrue)
}

/// The option, which may be given again.
pub(crate) fn repeated<'a>(option: Arg<'a>) -> Arg<'a>
    ensures { rule_of result ≡ repeated (rule_of option.entry) }
{
    option.action(ArgAction::Append)
}

/// The option, with this text where it isn't given.
pub(crate) fn or_default<'a>(option: Arg<'a>, text: &'a str) -> Arg<'a>
    ensures { rule_of result ≡ or_default text.entry.now (rule_of option.entry) }
{
    option.default_value(text)
}

/// The option, with only these words for its value.
pub(crate) fn taking_words<'a>(option: Arg<'a>, words: &'a [&'a str]) -> Arg<'a>
    ensures { rule_of result ≡ taking_words words.entry (rule_of option.entry) }
{
    option.value_parser(words)
}
