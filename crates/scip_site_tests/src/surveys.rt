//! What an index has and lacks, with worked answers.

use crate::asked::queries;
use crate::calls::see;
use crate::indexes::DETAILED;
use scip_query::Queries;
use scip_survey::{
    Flaw, counts_of, counts_text, document_text, flaws_of, flaws_text, index_text, nearest_name,
};
use std::alloc::{AllocError, Global};
use std::test::Fail;

/// What is told of an index, and how.
#[derive(Clone, Copy)]
enum Told {
    Counts,
    Records,
    OfDocument(&'static str),
    Flaws,
    Nearest(&'static str),
}

/// What is told, in JSON or not, and its text.
struct Row {
    told: Told,
    json: bool,
    text: &'static str,
}

// The first row: one document with six occurrences, five of which define a symbol, and three entries; one external
// entry. The document says neither its language nor what its columns count, and `e/E#` has no entry.
static ROWS: [Row; 9] = [
    Row {
        told: Told::Counts,
        json: false,
        text: "documents: 1\noccurrences: 6\ndefinitions: 5\nsymbols: 3\nexternal symbols: 1\n",
    },
    Row {
        told: Told::Counts,
        json: true,
        text: "{\"definitions\":5,\"documents\":1,\"external_symbols\":1,\"occurrences\":6,\"symbols\":3}\n",
    },
    Row {
        told: Told::Records,
        json: false,
        text: "document a.proto  0\noccurrence a.proto:1:9-1:10 1 p/\noccurrence a.proto:3:9-3:10 1 p/M#x.\noccurrence a.proto:2:9-2:10 1 p/M#\noccurrence a.proto:5:9-5:11 1 p/Md#\noccurrence a.proto:3:2-3:3 0 e/E#\noccurrence a.proto:6:1-6:2 1 local 1\nsymbol a.proto Message p/M#\nsymbol a.proto Field p/M#x.\nsymbol a.proto 300 local 1\nexternal Enum p/Md#\n",
    },
    Row {
        told: Told::OfDocument("z"),
        json: true,
        text: "none",
    },
    Row {
        told: Told::Flaws,
        json: false,
        text: "a.proto: NoLanguage\na.proto: NoUnit\na.proto:3:2: NoEntry e/E#\n",
    },
    Row {
        told: Told::Flaws,
        json: true,
        text: "{\"flaw\":\"NoLanguage\",\"path\":\"a.proto\",\"range\":[],\"symbol\":\"\"}\n{\"flaw\":\"NoUnit\",\"path\":\"a.proto\",\"range\":[],\"symbol\":\"\"}\n{\"flaw\":\"NoEntry\",\"path\":\"a.proto\",\"range\":[2,1,2,2],\"symbol\":\"e/E#\"}\n",
    },
    Row {
        told: Told::Nearest("q.Mod"),
        json: false,
        text: "Md",
    },
    Row {
        told: Told::Nearest("Modes"),
        json: false,
        text: "Mode",
    },
    Row {
        told: Told::Nearest("xx"),
        json: false,
        text: "x",
    },
];

/// What is told of an index.
fn told_of(alloc: Global, asked: &Queries, row: &Row) -> Result<String, AllocError> {
    match row.told {
        Told::Counts => counts_text(alloc, row.json, &counts_of(asked)),
        Told::Records => index_text(alloc, row.json, asked),
        Told::OfDocument(path) => match document_text(alloc, row.json, asked, path)? {
            Some(text) => Ok(text),
            None => String::from_str(alloc, "none"),
        },
        Told::Flaws => flaws_text(alloc, row.json, flaws_of(alloc, asked)?.as_slice()),
        Told::Nearest(text) => match nearest_name(alloc, asked, text)? {
            Some(name) => String::from_str(alloc, name),
            None => String::from_str(alloc, "none"),
        },
    }
}

#[test]
fn told_as_a_whole(rt: HostRuntime) -> Result<(), Fail> {
    let asked = queries(&rt, rt.alloc(), DETAILED)?;
    for row in &ROWS {
        let text = told_of(rt.alloc(), &asked, row)?;
        see(&rt, text.as_str() == row.text, text.as_str());
    }
    see(&rt, Flaw::NoUnit.name() == "NoUnit", "a name");
    Ok(())
}
