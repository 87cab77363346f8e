//! The names of programs and of their arguments.

pub(crate) const DUMP: &str = "dump";

pub(crate) const INDEX: &str = "index";

pub(crate) const JOIN: &str = "join";

pub(crate) const PAGES: &str = "pages";

pub(crate) const QUERY: &str = "query";

pub(crate) const SHELL: &str = "shell";

pub(crate) const SNAPSHOT: &str = "snapshot";

/// The argument that `snapshot` and `pages` want, and `query` and `join` once or more.
pub(crate) const INDEX_FILE: &str = "INDEX";

/// The argument that `index` and `shell` want, and the second one of `snapshot` and `pages`.
pub(crate) const ROOT: &str = "ROOT";

/// The last argument that `index` and `pages` want, and the first one of `join`.
pub(crate) const OUT: &str = "OUT";

pub(crate) const DEF: &str = "def";

pub(crate) const REF: &str = "ref";

pub(crate) const HOVER: &str = "hover";

pub(crate) const OUTLINE: &str = "outline";

pub(crate) const FIND: &str = "find";

pub(crate) const STATS: &str = "stats";

pub(crate) const PRINT: &str = "print";

pub(crate) const LINT: &str = "lint";

/// The argument that `print` may have.
pub(crate) const DOCUMENT: &str = "PATH";
