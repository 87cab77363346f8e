//! Laws of joins, each the contract of a function that does nothing.

ghost use Rattle.scip_join.specs.Laws.{JoinIsWellFormed, OneJoin, ShardsMakeTheWhole};
ghost use Rattle.scip_join.specs.Queries.{AnswersByDocument, AnswersTheUnion};

/// Indexes have one join at most.
pub fn one_join()
    ensures { OneJoin }
{}

/// The join of well-formed indexes is well-formed, if the root that is asked for is UTF-8. So its spelling decodes to
/// it
/// (`spelling_decodes_to_its_index` of `scip_wire`).
pub fn joined_is_well_formed()
    ensures { JoinIsWellFormed }
{}

/// An index whose documents are parted among shards is their join, byte for byte, since a join has one spelling: if its
/// documents come by path and its external entries by symbol, as those of a tree do, and each shard's external entries
/// are its own, or of symbols that it has a document's entry of.
pub fn shards_make_the_whole()
    ensures { ShardsMakeTheWhole }
{}

/// Of a symbol that isn't local, an index answers its occurrences document by document: so a join answers in the
/// order of
/// paths.
pub fn answers_are_by_document()
    ensures { AnswersByDocument }
{}

/// A join answers what the indexes answer together, but for documents that others took the place of.
pub fn join_answers_the_union()
    ensures { AnswersTheUnion }
{}
