//! The options of a source as a text, of a line for each.

ghost use Rattle.proto_parse.specs.dialect.Dialect.TheVariants.{All};
ghost use Rattle.proto_parse.specs.Derives.{Derives};

use crate::packages::package_of;
use proto_lex::{Span, Tokens};
use proto_options::{Element, FileOption, OptionName, OptionRole, options_of};
use proto_parse::{Dialect, File, SyntaxFault, parse_with};
use std::alloc::Global;
use test_kit::{Draft, text_of, tokens_of};

/// Adds what is at a place.
fn add_part(draft: &mut Draft, source: &str, span: Span) {
    match source.get(span.start as usize..span.end as usize) {
        Some(part) => draft.add(part),
        None => draft.add("?"),
    }
}

/// Adds what an option is of.
fn add_element(draft: &mut Draft, source: &str, element: Element) {
    match element {
        Element::File => draft.add("file"),
        Element::Message => draft.add("message"),
        Element::Field(name) => {
            draft.add("field ");
            add_part(draft, source, name);
        }
        Element::Oneof => draft.add("oneof"),
        Element::Enum => draft.add("enum"),
        Element::EnumValue => draft.add("value"),
        Element::Service => draft.add("service"),
        Element::Method => draft.add("method"),
        Element::ExtensionRange => draft.add("range"),
    }
}

/// The signs around a name of this role.
fn signs_of(role: OptionRole) -> (&'static str, &'static str) {
    match role {
        OptionRole::Field => (" ", ""),
        OptionRole::Extension => (" (", ")"),
        OptionRole::Message => (" [/", "]"),
        OptionRole::Elsewhere => (" [?/", "]"),
        OptionRole::Value => (" =", ""),
    }
}

/// Adds a name, and behind a `<` the number of the one in whose type it is looked up.
fn add_name(draft: &mut Draft, source: &str, name: &OptionName) {
    let (before, behind) = signs_of(name.role);
    draft.add(before);
    let mut mark = if name.name.leading_dot.is_some() {
        "."
    } else {
        ""
    };
    for component in name.name.components.as_slice() {
        draft.add(mark);
        add_part(draft, source, *component);
        mark = ".";
    }
    draft.add(behind);
    if let Some(around) = name.around {
        draft.add("<");
        draft.add_size(around);
    }
}

/// Adds the line of an option, with a `|` between the parts of its name and the names in its value.
fn add_option(draft: &mut Draft, source: &str, option: &FileOption) {
    add_element(draft, source, option.element);
    draft.add(" in ");
    draft.add(option.scope.as_str());
    draft.add(":");
    for (number, name) in option.setting.names.as_slice().iter().enumerate() {
        if number == option.setting.parts {
            draft.add(" |");
        }
        add_name(draft, source, name);
    }
    draft.add("\n");
}

/// Adds the name and the offset of a fault.
fn add_fault(draft: &mut Draft, fault: SyntaxFault) {
    draft.add(fault.name());
    if let Some(offset) = fault.offset() {
        draft.add(" ");
        draft.add_size(offset);
    }
}

/// Adds the lines of the options of a file, or the fault.
fn add_options(draft: &mut Draft, tokens: &Tokens<'_, '_>, file: &File)
    requires { Derives All tokens.now.text tokens.now.tokens file.now }
{
    let source = tokens.text().as_str();
    let Ok(package) = package_of(draft.alloc(), tokens, file) else {
        draft.cut();
        return;
    };
    match options_of(draft.alloc(), tokens, file, package.as_str()) {
        Ok(options) => {
            for option in options.as_slice() {
                add_option(draft, source, option);
            }
        }
        Err(fault) => add_fault(draft, fault),
    }
}

/// The lines of the options of tokens, or the fault.
fn lines_of(alloc: Global, tokens: &Tokens<'_, '_>) -> Draft {
    let mut draft = Draft::new(alloc);
    match parse_with(alloc, tokens, Dialect::All) {
        Ok(file) => add_options(&mut draft, tokens, &file),
        Err(fault) => add_fault(&mut draft, fault),
    }
    draft
}

/// Whether the options of a source are what a listing says. They are listed again if not, since memory may have run
/// out.
pub(crate) fn is_listed(alloc: Global, source: &str, want: &str) -> bool {
    is_listed_once(alloc, source, want) || is_listed_once(alloc, source, want)
}

/// The same, once.
fn is_listed_once(alloc: Global, source: &str, want: &str) -> bool {
    let Ok(text) = text_of(alloc, source.as_bytes()) else {
        return false;
    };
    let Ok(tokens) = tokens_of(alloc, &text) else {
        return false;
    };
    match lines_of(alloc, &tokens).finish() {
        Ok(lines) => lines.as_str() == want,
        Err(_) => false,
    }
}
