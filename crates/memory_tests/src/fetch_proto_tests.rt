//! Frames: that a page is put into one and read from it, and that other bytes are none.

use crate::equal::{are_equal, succeeds};
use fetch_proto::{decode_frame, encode_reply};
use std::process::Abort;

/// The image, the page, and how many bytes of the page are 0, of bytes that are a frame.
fn zeros_in(bytes: &[u8]) -> Option<(u32, u32, usize)> {
    let frame = decode_frame(bytes)?;
    let page = frame.bytes;
    Some((frame.image, frame.page, zeros(page)))
}

/// How many bytes are 0.
fn zeros(bytes: &[u8]) -> usize {
    let mut zeros = 0;
    for byte in bytes {
        if *byte == 0 {
            zeros += 1;
        }
    }
    zeros
}

/// Whether the first so many bytes are a frame.
fn is_frame(bytes: &[u8], length: usize) -> bool {
    decode_frame(bytes.split_at(length.min(bytes.len())).0).is_some()
}

/// The bytes begin with the magic number, the image and the page, and then with zeros.
fn is_placed(rt: &impl Abort, bytes: &[u8]) {
    let begins = bytes.starts_with(b"SFR1\x03\0\0\0\x01\0\0\0\0");
    are_equal(rt, &(bytes.len(), begins), &(4108, true));
}

/// The bytes are a frame of zeros, and no fewer of them are one.
fn is_whole(rt: &impl Abort, bytes: &[u8]) {
    let cut = [
        is_frame(bytes, 0),
        is_frame(bytes, 11),
        is_frame(bytes, 12),
        is_frame(bytes, 4107),
    ];
    are_equal(
        rt,
        &(zeros_in(bytes), cut),
        &(Some((3, 1, 4096)), [false; 4]),
    );
}

#[test]
fn a_page_goes_in_a_frame(rt: HostRuntime) {
    let bytes = succeeds(&rt, encode_reply(rt.alloc(), 3, 1, &[0; 4096]));
    is_placed(&rt, &bytes);
    is_whole(&rt, &bytes);
}

fn is_no_frame(rt: &impl Abort, bytes: &[u8]) {
    are_equal(rt, &zeros_in(bytes), &None);
}

/// Puts another byte at the start.
fn change_first(bytes: &mut [u8]) {
    if let Some(first) = bytes.first_mut() {
        *first = b'R';
    }
}

#[test]
fn other_bytes_are_no_frame(rt: HostRuntime) {
    let mut bytes = succeeds(&rt, encode_reply(rt.alloc(), 3, 1, &[0; 4096]));
    succeeds(&rt, bytes.push(0));
    is_no_frame(&rt, &bytes);
    bytes.pop();
    change_first(&mut bytes);
    is_no_frame(&rt, &bytes);
}
