//! Indexes and their joins.

/// Indexes, what is asked for, and their join.
pub struct Row {
    /// What it shows.
    pub case: &'static str,
    /// The indexes, parted by `|`.
    pub indexes: &'static str,
    /// The project root that is asked for, if it isn't empty.
    pub root: &'static str,
    /// Whether documents take the place of earlier ones.
    pub replace: bool,
    /// The join, or why there is none.
    pub joined: &'static str,
}

/// The first row reads: the documents of two indexes come in the order of their paths, and the metadata is that of the
/// first.
pub static ROWS: [Row; 19] = [
    Row {
        case: "documents by path",
        indexes: "@file:/// b:B#, d:|@file:/// a:A#,X#, c:",
        root: "",
        replace: false,
        joined: "@file:/// a:A#,X#, b:B#, c: d: ",
    },
    Row {
        case: "no index",
        indexes: "",
        root: "",
        replace: false,
        joined: "",
    },
    Row {
        case: "one index, which wasn't in order",
        indexes: "@r b: a: Y#=y X#=x X#=z",
        root: "",
        replace: false,
        joined: "@r a: b: X#=x Y#=y ",
    },
    Row {
        case: "an external entry that a document of another index has",
        indexes: "@r a:A#, B#=other C#=c|@r b:B#, A#=other",
        root: "",
        replace: false,
        joined: "@r a:A#, b:B#, C#=c ",
    },
    Row {
        case: "the external entry of the first index",
        indexes: "@r a: X#=first|@r b: X#=second W#=w",
        root: "",
        replace: false,
        joined: "@r a: b: W#=w X#=first ",
    },
    Row {
        case: "what an external entry is declared in",
        indexes: "@r a: Y#=y X#=x<Y#|@r b: X#=x<Z#",
        root: "",
        replace: false,
        joined: "@r a: b: X#=x<Y# Y#=y ",
    },
    Row {
        case: "a path in two indexes",
        indexes: "@r a: b:|@r c:|@r b: a:",
        root: "",
        replace: false,
        joined: "Twice a 0 2",
    },
    Row {
        case: "a path in three indexes",
        indexes: "@r a:|@r a:|@r a:",
        root: "",
        replace: false,
        joined: "Twice a 1 2",
    },
    Row {
        case: "a path twice in one index",
        indexes: "@r a: a:",
        root: "",
        replace: false,
        joined: "Twice a 0 0",
    },
    Row {
        case: "the later document of a path",
        indexes: "@r a:Old#, b:|@r a:New#,",
        root: "",
        replace: true,
        joined: "@r a:New#, b: ",
    },
    Row {
        case: "an external entry that only a replaced document has",
        indexes: "@r a:X#, X#=x|@r a:Y#, Y#=y",
        root: "",
        replace: true,
        joined: "@r a:Y#, X#=x ",
    },
    Row {
        case: "another root",
        indexes: "@r a:|@s b:",
        root: "",
        replace: false,
        joined: "OtherRoot",
    },
    Row {
        case: "a root that is asked for",
        indexes: "@r a:|@s b:",
        root: "t",
        replace: false,
        joined: "@t a: b: ",
    },
    Row {
        case: "no metadata is no root",
        indexes: "a:|@ b:",
        root: "",
        replace: false,
        joined: "a: b: ",
    },
    Row {
        case: "another text encoding",
        indexes: "@r a:|@r~0 b:|@r~2 c:",
        root: "",
        replace: false,
        joined: "OtherEncoding",
    },
    Row {
        case: "another text encoding, where a root is asked for",
        indexes: "@r~2 a:|@s b:",
        root: "t",
        replace: false,
        joined: "OtherEncoding",
    },
    Row {
        case: "the text encoding of the first index",
        indexes: "@r a:|@r~0 b:|@r c:",
        root: "",
        replace: false,
        joined: "@r a: b: c: ",
    },
    Row {
        case: "a first index that says no text encoding",
        indexes: "@r~0 a:|@r b:|@r~2 c:",
        root: "",
        replace: false,
        joined: "@r~0 a: b: c: ",
    },
    Row {
        case: "a root for an index without metadata",
        indexes: "a:",
        root: "t",
        replace: false,
        joined: "@t~0 a: ",
    },
];
