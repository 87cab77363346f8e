//! The characters of bytes.

ghost use Rattle.std.specs.Prelude.{◌≡◌, ◌+◌, ◌<◌, ◌≤◌, [], ◌∷◌, MatchOption, IfSome, length, drop};
ghost use Rattle.std.specs.List.{prefix_len};
ghost use Rattle.diagnostics.specs.Characters.{characters, goes_on};
ghost use Rattle.diagnostics.specs.Excerpts.{last_of};

/// Whether the byte goes on with a character.
pub(crate) fn goes_on(byte: u8) -> bool
    ensures { result ≡ goes_on byte }
{
    matches!(byte, 128..192)
}

/// How many bytes go on with a character, up to the first that doesn't.
fn count_going_on(bytes: &[u8]) -> usize
    ensures value { result ≡ prefix_len goes_on bytes.now }
    ensures within { result ≤ length bytes.now }
{
    bytes.iter().take_while(|byte| goes_on(**byte)).count()
}

/// The first character of bytes, and those after it.
pub(crate) fn first_character(bytes: &[u8]) -> Option<(&[u8], &[u8])>
    ensures parts { MatchOption result (bytes.now ≡ []) (λ parts. characters bytes.now ≡ parts.0.now
        ∷ characters parts.1.now) }
    ensures lengths { IfSome result (λ parts. (length parts.1.now < length bytes.now)
        × (length parts.0.now ≤ length bytes.now)) }
{
    match bytes {
        [] => None,
        [_, others @ ..] => Some(bytes.split_at(1 + count_going_on(others))),
    }
}

/// How many characters they are.
pub(crate) fn count_characters(bytes: &[u8]) -> usize
    ensures count { result ≡ length (characters bytes.now) }
    ensures within { result ≤ length bytes.now }
{
    let mut rest = bytes;
    let mut count = 0;
    while let Some((_, others)) = first_character(rest) {
        rest = others;
        count += 1;
    }
    count
}

/// The bytes after this many characters.
pub(crate) fn skip_characters(bytes: &[u8], count: usize) -> &[u8]
    ensures { characters result.now ≡ drop count (characters bytes.now) }
{
    let mut rest = bytes;
    let mut left = count;
    while left > 0 {
        match first_character(rest) {
            Some((_, others)) => rest = others,
            None => return rest,
        }
        left -= 1;
    }
    rest
}

/// The bytes of the last characters, at most this many.
pub(crate) fn last_characters(bytes: &[u8], most: usize) -> &[u8]
    ensures last { characters result.now ≡ last_of most (characters bytes.now) }
    ensures few { length (characters result.now) ≤ most }
{
    skip_characters(bytes, count_characters(bytes).saturating_sub(most))
}
