//! How symbols are shown.

ghost use Rattle.std.specs.Prelude.{◌≡◌};
ghost use Rattle.std.specs.List.{prefix_len};
ghost use Rattle.scip_pages.specs.Shown as spec;

use crate::code::cut;

/// Whether a byte isn't a space.
fn is_before_space(byte: u8) -> bool
    ensures { result ≡ spec.is_before_space byte }
{
    byte != b' '
}

/// How many bytes a text has before its first space.
fn len_before_space(text: &[u8]) -> usize
    ensures { result ≡ prefix_len spec.is_before_space text.now }
{
    text.iter()
        .take_while(|byte| is_before_space(**byte))
        .count()
}

/// What is behind the first space of a text; nothing if it has none.
fn behind_space(text: &[u8]) -> &[u8]
    ensures { result.now ≡ spec.behind_space text.now }
{
    let (_, behind) = cut(text, len_before_space(text));
    cut(behind, 1).1
}

/// A symbol as it is shown: its descriptors alone if all parts of its package are empty, and else whole (`scip.proto`,
/// `Symbol`).
pub fn shown_symbol(symbol: &[u8]) -> &[u8]
    ensures { result.now ≡ spec.shown_symbol symbol.now }
{
    let behind = behind_space(symbol);
    if behind.starts_with(b". . . ") {
        cut(behind, 6).1
    } else {
        symbol
    }
}
