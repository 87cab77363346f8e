//! Texts in order, among which one is looked for.

ghost use Rattle.std.specs.Prelude.{◌≡◌};
ghost use Rattle.scip_join.specs.Tables.{is_among, texts, AreInOrder};

/// Whether a text is one of these, if they are in order.
pub(crate) fn is_among(sorted: &[&str], text: &str) -> bool
    ensures { AreInOrder sorted.now → result ≡ is_among (texts sorted.now) text.now }
{
    sorted.binary_search(&text).is_ok()
}
