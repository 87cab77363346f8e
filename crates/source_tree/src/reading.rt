//! Reading a source to its end.

ghost use Rattle.std.specs.Prelude.{◌≡◌, ◌≤◌, ◌+◌, ◌++◌, ℕ, List, Some, None, Ok, length, IfOk, IfErr, IfSome, OnOk};
ghost use Rattle.streams.specs.Readers.{IsReadBriefly, IsReadFault, IsReadThrough, IsUnfailed, reader};
ghost use Rattle.source_tree.specs.Reading.{kept_bytes, max_kept_length};

use proto_lex::MAX_TEXT_LENGTH;
use std::alloc::{AllocError, Global};
use streams::{Failed, Feed, MAX_READS};

/// How many bytes are read at a time, at most.
const BUFFER_LENGTH: usize = 16_384;

// A source of the greatest length can be read to its end, and one that is longer is found to be so.
const _: () = prove!(BUFFER_LENGTH as u64 * MAX_READS as u64 > MAX_TEXT_LENGTH as u64);

/// Appends bytes, as far as they are kept: up to one more than a text may have.
fn append_kept(bytes: &mut Vec<u8>, part: &[u8]) -> Result<(), AllocError>
    requires { length bytes.old.items ≤ MAX_TEXT_LENGTH + 1 }
    ensures { OnOk result (bytes.new.items ≡ kept_bytes (bytes.old.items ++ part.now)) }
{
    let space = MAX_TEXT_LENGTH + 1 - bytes.len();
    if part.len() <= space {
        bytes.extend_from_slice(part)
    } else {
        bytes.extend_from_slice(&part[..space])
    }
}

/// The bytes of a source, up to one more than a text may have; what lies after them is read too, and not kept.
///
/// None if a read failed, or `MAX_READS` reads gave no end.
pub fn read_source<R: Feed>(alloc: Global, source: &mut R) -> Result<Option<Vec<u8>>, AllocError>
    ensures bytes { IfOk result (λ read. IfSome read (λ bytes. (all : List ℕ) → R.remaining source.old ≡ Some all
        → bytes.items ≡ kept_bytes all)) }
    ensures few { IfOk result (λ read. IfSome read (λ bytes. length bytes.items ≤ max_kept_length)) }
    ensures through { IfOk result (λ read. IfSome read (λ _. IsReadThrough (reader R.Feed source))) }
    ensures read { result ≡ Ok None → IsReadFault (reader R.Feed source) }
    ensures memory { IfErr result (λ _. IsUnfailed (reader R.Feed source)) }
    ensures briefly { IsReadBriefly (reader R.Feed source) }
{
    let mut buffer = [0u8; BUFFER_LENGTH];
    let mut bytes = Vec::new(alloc);
    'reads: for _read in 0..MAX_READS {
        let count = match source.read(&mut buffer) {
            Ok(count) => count,
            Err(Failed) => return Ok(None),
        };
        if count == 0 {
            return Ok(Some(bytes));
        }
        append_kept(&mut bytes, &buffer[..count])?;
    }
    Ok(None)
}
