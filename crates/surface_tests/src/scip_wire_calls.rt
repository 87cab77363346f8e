//! The bytes of an index.

use crate::shared::{NOTHING, ONE_MESSAGE, see};
use scip_model::Std;
use scip_wire::{WriteFault, encoded_len, read_index, write_index};
use std::test::Fail;

#[test]
fn encoded_len_counts_the_bytes(rt: HostRuntime) -> Result<(), Fail> {
    let index = read_index(rt.alloc(), ONE_MESSAGE)?;
    see(&rt, encoded_len(&index) == Ok(200), "the length");
    Ok(())
}

#[test]
fn write_index_counts_what_went_out(rt: HostRuntime) -> Result<(), Fail> {
    let index = read_index(rt.alloc(), NOTHING)?;
    let mut room = [0u8; 10];
    let answer = write_index(&index, &mut Std::new(room.as_mut_slice()));
    see(
        &rt,
        answer == Err(WriteFault::Write(10)),
        "room for ten bytes",
    );
    see(&rt, NOTHING.starts_with(&room), "the first ten bytes");
    Ok(())
}
