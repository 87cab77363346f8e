//! How declarations read, and where they are.

use comment_texts::CommentForm;
use proto_decl::{Detail, FactForm, declare_with, details_of};
use proto_lex::{Text, Tokens};
use proto_parse::{Dialect, parse_with};
use std::alloc::{AllocError, Global};
use test_kit::{text_of, tokens_of};

/// A source with each kind of declaration, with comments, gaps, options and bodies.
const SOURCE: &str = "syntax = \"proto3\";
package a;

// A book.
// Of paper.
message Book { // tail
  // Its title.
  string title = 1;  repeated string authors=3 [deprecated = true];
  map<string,  /* to */ Copy> copies = 6;

  // Apart.

  oneof kind { int32 size = 4; }
  message Copy {}
}
enum State { OPEN = 0; /* shut */ SHUT = 1; }
service Library {
  rpc Lend(stream Loan)
    returns (Receipt);
  rpc Close(Book) returns (Book) { option deprecated = true; }
}
message Loan {} message Receipt {}
";

/// For each declaration its signature, and behind ` @ ` its extent. The comment `Apart.` isn't directly above the
/// oneof.
const LISTED: &str = "message Book @ // A book.
// Of paper.
message Book { // tail
  // Its title.
  string title = 1;  repeated string authors=3 [deprecated = true];
  map<string,  /* to */ Copy> copies = 6;

  // Apart.

  oneof kind { int32 size = 4; }
  message Copy {}
}
string title = 1 @ // Its title.
  string title = 1;
repeated string authors=3 @ repeated string authors=3 [deprecated = true];
map<string, Copy> copies = 6 @ map<string,  /* to */ Copy> copies = 6;
oneof kind @ oneof kind { int32 size = 4; }
int32 size = 4 @ int32 size = 4;
message Copy @ message Copy {}
enum State @ enum State { OPEN = 0; /* shut */ SHUT = 1; }
OPEN = 0 @ OPEN = 0;
SHUT = 1 @ SHUT = 1;
service Library @ service Library {
  rpc Lend(stream Loan)
    returns (Receipt);
  rpc Close(Book) returns (Book) { option deprecated = true; }
}
rpc Lend(stream Loan) returns (Receipt) @ rpc Lend(stream Loan)
    returns (Receipt);
rpc Close(Book) returns (Book) @ rpc Close(Book) returns (Book) { option deprecated = true; }
message Loan @ message Loan {}
message Receipt @ message Receipt {}
";

/// A source of proto2, with a group that has options, a field of a qualified type, extensions and braces in options.
const OLDER: &str = "package a;
message Answer {
  optional group Result = 1 [deprecated = true] {
    required .a.Answer answer = 2;
  }
  /* Two
     lines. */
  // And a third.
  oneof kind {
    option (shown) = { inner { x: 1 } };
    string\ttext // to
      = 3;
  }
  extensions 100 to max;
}
extend Answer { optional string note = 100; }
";

/// The field and the message of the group read alike, and are at one place.
const OLDER_LISTED: &str = "message Answer @ message Answer {
  optional group Result = 1 [deprecated = true] {
    required .a.Answer answer = 2;
  }
  /* Two
     lines. */
  // And a third.
  oneof kind {
    option (shown) = { inner { x: 1 } };
    string\ttext // to
      = 3;
  }
  extensions 100 to max;
}
optional group Result = 1 @ optional group Result = 1 [deprecated = true] {
    required .a.Answer answer = 2;
  }
optional group Result = 1 @ optional group Result = 1 [deprecated = true] {
    required .a.Answer answer = 2;
  }
required .a.Answer answer = 2 @ required .a.Answer answer = 2;
oneof kind @ /* Two
     lines. */
  // And a third.
  oneof kind {
    option (shown) = { inner { x: 1 } };
    string\ttext // to
      = 3;
  }
string text = 3 @ string\ttext // to
      = 3;
optional string note = 100 @ optional string note = 100;
";

/// Sources, each with its listing.
const CASES: [(&str, &str); 2] = [(SOURCE, LISTED), (OLDER, OLDER_LISTED)];

/// Appends a part. One that memory isn't there for is left out, and then the listing is another.
fn add(text: &mut String, part: &str) {
    let _ = text.push_str(part);
}

/// Appends the line of a declaration.
fn add_detail(text: &mut String, source: &str, detail: &Detail) {
    let span = detail.extent;
    add(text, detail.signature.as_str());
    add(text, " @ ");
    let place = source.get(span.start as usize..span.end as usize);
    add(text, place.unwrap_or("nowhere"));
    add(text, "\n");
}

/// Appends the lines of declarations.
fn add_details(text: &mut String, source: &str, details: &[Detail]) {
    for detail in details {
        add_detail(text, source, detail);
    }
}

/// The listing of tokens: of their details alone, or of those of their facts, which have them only if they are asked
/// for.
fn listed(
    alloc: Global,
    tokens: &Tokens<'_, '_>,
    form: Option<FactForm>,
) -> Result<String, AllocError> {
    let mut text = String::new(alloc);
    let source = tokens.text().as_str();
    let Ok(file) = parse_with(alloc, tokens, Dialect::All) else {
        return Ok(text);
    };
    match form {
        Some(form) => {
            let facts = declare_with(alloc, form, 7, tokens, &file)?;
            add_details(&mut text, source, facts.details().unwrap_or(&[]));
        }
        None => {
            let details = details_of(alloc, tokens, &file)?;
            add_details(&mut text, source, details.as_slice());
        }
    }
    Ok(text)
}

/// The listing of a text.
fn listed_text(
    alloc: Global,
    text: &Text<'_>,
    form: Option<FactForm>,
) -> Result<String, AllocError> {
    match tokens_of(alloc, text) {
        Ok(tokens) => listed(alloc, &tokens, form),
        Err(_) => Ok(String::new(alloc)),
    }
}

/// Whether details are asked for.
fn form_with(details: bool) -> Option<FactForm> {
    Some(FactForm {
        comments: CommentForm::Raw,
        details,
    })
}

/// Whether a text is so listed, by its details alone and by facts with details, and with nothing by facts without.
fn is_listed_so(alloc: Global, text: &Text<'_>, want: &str) -> Result<bool, AllocError> {
    let alone = listed_text(alloc, text, None)?;
    let asked = listed_text(alloc, text, form_with(true))?;
    let unasked = listed_text(alloc, text, form_with(false))?;
    Ok(alone.as_str() == want && asked.as_str() == want && unasked.is_empty())
}

#[test]
fn declarations_read_as_they_are_written(rt: HostRuntime) -> Result<(), AllocError> {
    for (source, listed) in &CASES {
        if let Ok(text) = text_of(rt.alloc(), source.as_bytes()) {
            let is_so = is_listed_so(rt.alloc(), &text, *listed)?;
            assert!(&rt; is_so, "{source}");
        }
    }
    Ok(())
}
