//! What the operating system tells of this process.

use std::fs;
use std::process::Abort;
use std::rt::Files;
use std::test::Fail;

/// How many bytes of the process are in memory (proc(5), `/proc/pid/statm`).
pub fn resident_bytes(rt: &(impl Files + Alloc)) -> Result<u64, Fail> {
    let text = fs::read_to_string(rt, "/proc/self/statm")?;
    bytes_told(text.as_str())
}

/// The same of the text of that file, whose second word counts pages.
fn bytes_told(text: &str) -> Result<u64, Fail> {
    let pages = text.split_whitespace().nth(1).ok_or("no such word")?;
    Ok(pages.parse::<u64>()?.saturating_mul(4096))
}

/// A thousand values took less than six megabytes.
pub fn are_few(rt: &impl Abort, bytes: u64) {
    assert!(rt; bytes < 6 << 20, "{bytes} bytes");
}
