//! Bytes that are changed at some places.

use crate::equal::succeeds;
use flat_memory::write_bytes;
use std::alloc::Global;
use std::process::Abort;

/// Puts words at places of bytes, where they fit.
fn change(bytes: &mut [u8], changes: &[(usize, u32)]) {
    for (at, word) in changes {
        if *at < bytes.len() && bytes.len() - at >= 4 {
            write_bytes(bytes, *at, &word.to_le_bytes());
        }
    }
}

/// The first `length` bytes, or zeros behind them, with other words at some places.
pub fn changed(
    rt: &impl Abort,
    alloc: Global,
    bytes: &[u8],
    length: usize,
    changes: &[(usize, u32)],
) -> Vec<u8> {
    let mut changed = succeeds(rt, Vec::from_slice(alloc, bytes));
    succeeds(rt, changed.resize(length, 0));
    change(&mut changed, changes);
    changed
}
