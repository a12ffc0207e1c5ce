//! How far the system lets the stack grow.

use std::fs;
use std::io::Read;
use std::rt::Files;

/// The least stack on which families are run by 64 workers, in bytes.
const LEAST_STACK: u64 = 40_960;

/// Where Linux tells what a process may take.
const LIMITS: &str = "/proc/self/limits";

/// How many bytes of that are read. The line of the stack ends before the 400th.
const FIRST_LINES: usize = 512;

/// Whether the stack has less room than that. Where the system does not tell, it has enough.
#[inline(never)]
pub(crate) fn is_stack_small<R: Files>(rt: &R) -> bool {
    let mut room = [0u8; FIRST_LINES];
    let Ok(mut file) = fs::open(rt, LIMITS) else {
        return false;
    };
    let Ok(count) = file.read(&mut room) else {
        return false;
    };
    let Ok(limits) = str::from_utf8(&room[..count]) else {
        return false;
    };
    matches!(stack_of(limits), Some(bytes) if bytes < LEAST_STACK)
}

/// How far the stack may grow, in bytes, by the text of the limits, and none where it has no limit.
fn stack_of(limits: &str) -> Option<u64> {
    let (_, rest) = limits.split_once("Max stack size")?;
    rest.split_ascii_whitespace().next()?.parse().ok()
}
