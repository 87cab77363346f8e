//! Files with facts, options and fields.

ghost use Rattle.proto_parse.specs.dialect.Dialect.TheVariants.{All};
ghost use Rattle.proto_parse.specs.Derives.{Derives};

use crate::packages::package_name;
use basics::Sequence;
use option_link::OptionFacts;
use proto_decl::{FileFacts, declare};
use proto_lex::{LexFault, Text, Tokens, lex};
use proto_options::{fields_of, messages_of, options_of};
use proto_parse::{Dialect, File, SyntaxFault, parse_with};
use std::alloc::{AllocError, Global};
use test_kit::{FileText, Made, file_text};

/// The messages of the options, of which the files of a row may see some.
const DESCRIPTOR: &str =
    "syntax = \"proto2\"; package google.protobuf;\nmessage FileOptions { optional string java_package = 1; \
enum OptimizeMode { SPEED = 1; CODE_SIZE = 2; } optional OptimizeMode optimize_for = 9; extensions 1000 \
to max; }\nmessage MessageOptions { optional bool message_set_wire_format = 1; optional bool deprecated \
= 3; extensions 1000 to max; }\nmessage FieldOptions { optional bool deprecated = 3; extensions 1000 to \
max; }\nmessage OneofOptions { extensions 1000 to max; } message EnumOptions { extensions 1000 to max; \
}\nmessage EnumValueOptions { extensions 1000 to max; } message ServiceOptions { extensions 1000 to max; \
}\nmessage MethodOptions { extensions 1000 to max; } message ExtensionRangeOptions { extensions 1000 to \
max; }\n";

/// The message that others are packed in.
const ANY: &str =
    "syntax = \"proto3\"; package google.protobuf; message Any { string type_url = 1; bytes value = 2; }\n";

/// What is known of a file; none where it isn't accepted.
#[derive(Drop)]
pub(crate) struct Known<'t> {
    pub(crate) facts: Option<FileFacts<'t>>,
    pub(crate) beside: OptionFacts,
}

/// Nothing.
fn nothing(alloc: Global) -> OptionFacts {
    OptionFacts {
        options: Sequence::new(alloc),
        fields: Sequence::new(alloc),
        messages: Sequence::new(alloc),
    }
}

/// What is known of a file with this tree.
fn known_of_tree<'t>(
    alloc: Global,
    number: usize,
    tokens: &Tokens<'_, 't>,
    file: &File,
) -> Made<Known<'t>>
    requires { Derives All tokens.now.text tokens.now.tokens file.now }
{
    let facts = declare(alloc, number, tokens, file)?;
    let package = package_name(alloc, facts.package_name())?;
    let Ok(options) = options_of(alloc, tokens, file, package.as_str()) else {
        return Err(AllocError);
    };
    Ok(Known {
        facts: Some(facts),
        beside: OptionFacts {
            options,
            fields: fields_of(alloc, file)?,
            messages: messages_of(alloc, tokens, file)?,
        },
    })
}

/// What is known of tokens.
fn known_of_tokens<'t>(alloc: Global, number: usize, tokens: &Tokens<'_, 't>) -> Made<Known<'t>> {
    match parse_with(alloc, tokens, Dialect::All) {
        Ok(file) => known_of_tree(alloc, number, tokens, &file),
        Err(SyntaxFault::Memory) => Err(AllocError),
        Err(_) => Ok(Known {
            facts: None,
            beside: nothing(alloc),
        }),
    }
}

/// What is known of a text.
fn known_of_text<'t>(alloc: Global, number: usize, text: &Text<'t>) -> Made<Known<'t>> {
    match lex(alloc, text) {
        Ok(tokens) => known_of_tokens(alloc, number, &tokens),
        Err(LexFault::Memory) => Err(AllocError),
        Err(_) => Ok(Known {
            facts: None,
            beside: nothing(alloc),
        }),
    }
}

/// What is known of a file.
pub(crate) fn known_of<'t>(alloc: Global, number: usize, source: &'t str) -> Made<Known<'t>> {
    match Text::new(alloc, source.as_bytes()) {
        Ok(text) => known_of_text(alloc, number, &text),
        Err(LexFault::Memory) => Err(AllocError),
        Err(_) => Ok(Known {
            facts: None,
            beside: nothing(alloc),
        }),
    }
}

/// The files of a row.
pub(crate) fn files_in<'t>(alloc: Global, row: &'t str) -> Made<Vec<FileText<'t>>> {
    let mut files = Vec::new(alloc);
    for file in row.split_terminator('|') {
        files.push(file_text(file))?;
    }
    Ok(files)
}

/// The same, with those of `google.protobuf`.
pub(crate) fn files_of<'t>(alloc: Global, row: &'t str) -> Made<Vec<FileText<'t>>> {
    let mut files = files_in(alloc, row)?;
    files.push(FileText {
        path: "google/protobuf/descriptor.proto",
        text: DESCRIPTOR,
        is_included: true,
        is_left_out: false,
        is_unread: false,
    })?;
    files.push(FileText {
        path: "google/protobuf/any.proto",
        text: ANY,
        is_included: true,
        is_left_out: false,
        is_unread: false,
    })?;
    Ok(files)
}
