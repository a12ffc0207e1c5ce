//! The reports of families whose children talk, as `examples/siblings.py` has them.

use crate::texts::line_of;
use std::alloc::{AllocError, Global};

pub static SIBLING_SWAP: &[u8] =
    b"machine 0 exit 2 steps 21 out 0\n\nmachine 0.1.1 exit 2 steps 25 out 0\n\nmachine 0.1.2 exit 1 steps 25 out 0\n\n";

pub static SIBLING_STUCK: &[u8] =
    b"machine 0 stuck steps 14 out 0\n\nmachine 0.1.1 stuck steps 18 out 0\n\nmachine 0.1.2 stuck steps 18 out 0\n\n";

pub static SEND_AT_THE_LIMIT: &[u8] =
    b"machine 0 limit steps 19 out 0\n\nmachine 0.1.1 limit steps 19 out 0\n\nmachine 0.1.2 limit steps 19 out 0\n\n";

pub static RECEIVE_AT_THE_LIMIT: &[u8] =
    b"machine 0 exit 0 steps 21 out 0\n\nmachine 0.1.1 limit steps 21 out 0\n\nmachine 0.1.2 limit steps 21 out 0\n\n";

pub static WAITS_AT_THE_LIMIT: &[u8] =
    b"machine 0 stuck steps 14 out 0\n\nmachine 0.1.1 stuck steps 18 out 0\n\nmachine 0.1.2 stuck steps 18 out 0\n\n";

pub static LIMIT_BEFORE_THE_WAIT: &[u8] =
    b"machine 0 limit steps 18 out 0\n\nmachine 0.1.1 limit steps 18 out 0\n\nmachine 0.1.2 limit steps 18 out 0\n\n";

pub static ALONE: &[u8] = b"machine 0 exit 4294967282 steps 21 out 0\n\n";

pub static NO_PEER: &[u8] =
    b"machine 0 exit 0 steps 20 out 0\n\nmachine 0.1.1 exit 53 steps 49 out 0\n\nmachine 0.1.2 exit 53 steps 49 out 0\n\n";

pub static ONLY_CHILD: &[u8] =
    b"machine 0 exit 0 steps 20 out 0\n\nmachine 0.1.1 exit 53 steps 49 out 0\n\n";

pub static NO_COMMAND: &[u8] =
    b"machine 0 exit 0 steps 20 out 0\n\nmachine 0.1.1 exit 4294967278 steps 40 out 0\n\nmachine 0.1.2 exit 4294967278 steps 40 out 0\n\n";

pub static GRANTED_FEWER: &[u8] =
    b"machine 0 exit 0 steps 20 out 0\n\nmachine 0.1.1 exit 4294967295 steps 25 out 0\n\nmachine 0.1.2 exit 4294967295 steps 25 out 0\n\nmachine 0.1.3 exit 4294967295 steps 25 out 0\n\n";

pub static GRANTED_ALL: &[u8] =
    b"machine 0 exit 0 steps 20 out 0\n\nmachine 0.1.1 exit 5 steps 25 out 0\n\nmachine 0.1.2 exit 5 steps 25 out 0\n\nmachine 0.1.3 exit 5 steps 25 out 0\n\nmachine 0.1.4 exit 5 steps 25 out 0\n\nmachine 0.1.5 exit 1 steps 25 out 0\n\n";

pub static PING_PONG: &[u8] =
    b"machine 0 exit 0 steps 20 out 0\n\nmachine 0.1.1 exit 41 steps 30 out 0\n\nmachine 0.1.2 exit 41 steps 30 out 0\n\n";

pub static IN_ORDER: &[u8] =
    b"machine 0 exit 0 steps 20 out 0\n\nmachine 0.1.1 exit 20 steps 162 out 0\n\nmachine 0.1.2 exit 2097130 steps 182 out 0\n\n";

pub static NINE_WORDS: &[u8] =
    b"machine 0 exit 0 steps 20 out 0\n\nmachine 0.1.1 exit 0 steps 76 out 0\n\nmachine 0.1.2 exit 9 steps 25 out 0\n\n";

pub static EIGHT_WORDS: &[u8] =
    b"machine 0 stuck steps 16 out 0\n\nmachine 0.1.1 stuck steps 59 out 0\n\nmachine 0.1.2 stuck steps 59 out 0\n\n";

pub static PAST_THE_END: &[u8] =
    b"machine 0 exit 0 steps 20 out 0\n\nmachine 0.1.1 exit 2 steps 142 out 0\n\nmachine 0.1.2 exit 40 steps 142 out 0\n\n";

pub static ENDED_BY_EXIT: &[u8] =
    b"machine 0 exit 0 steps 20 out 0\n\nmachine 0.1.1 exit 1 steps 21 out 0\n\nmachine 0.1.2 exit 41 steps 38 out 0\n\n";

pub static ENDED_BY_LIMIT: &[u8] =
    b"machine 0 exit 0 steps 20 out 0\n\nmachine 0.1.1 limit steps 60 out 0\n\nmachine 0.1.2 exit 41 steps 38 out 0\n\n";

pub static WORDS_LEFT: &[u8] =
    b"machine 0 exit 0 steps 20 out 0\n\nmachine 0.1.1 exit 33 steps 43 out 0\n\nmachine 0.1.2 exit 268 steps 62 out 0\n\n";

pub static SECOND_BROOD: &[u8] =
    b"machine 0 exit 0 steps 156 out 0\n\nticket 0.1 killed 2\nmachine 0.2.1 exit 0 steps 155 out 0\n\nmachine 0.2.2 exit 4294967289 steps 162 out 0\n\n";

pub static THREE_STUCK: &[u8] =
    b"machine 0 stuck steps 16 out 0\n\nmachine 0.1.1 stuck steps 19 out 0\n\nmachine 0.1.2 stuck steps 19 out 0\n\nmachine 0.1.3 stuck steps 20 out 0\n\n";

pub static KILLED_WAITING: &[u8] = b"machine 0 exit 3 steps 142 out 0\n\nticket 0.1 killed 3\n";

pub static PARENT_ENDS: &[u8] = b"machine 0 exit 1 steps 17 out 0\n\nticket 0.1 killed 3\n";

pub static FRESH_PORT: &[u8] =
    b"machine 0 exit 0 steps 25 out 0\n\nmachine 0.1.1 exit 5 steps 57 out 0\n\nmachine 0.1.1.1.1 exit 2 steps 61 out 0\n\nmachine 0.1.1.1.2 exit 2 steps 61 out 0\n\nmachine 0.1.2 exit 5 steps 57 out 0\n\nmachine 0.1.2.1.1 exit 2 steps 61 out 0\n\nmachine 0.1.2.1.2 exit 2 steps 61 out 0\n\nmachine 0.1.3 exit 5 steps 57 out 0\n\nmachine 0.1.3.1.1 exit 2 steps 61 out 0\n\nmachine 0.1.3.1.2 exit 2 steps 61 out 0\n\n";

pub static TWO_LEVELS: &[u8] =
    b"machine 0 exit 0 steps 21 out 0\n\nmachine 0.1.1 exit 6 steps 48 out 0\n\nmachine 0.1.1.1.1 exit 2 steps 46 out 0\n\nmachine 0.1.1.1.2 exit 1 steps 46 out 0\n\nmachine 0.1.2 exit 5 steps 48 out 0\n\nmachine 0.1.2.1.1 exit 2 steps 46 out 0\n\nmachine 0.1.2.1.2 exit 1 steps 46 out 0\n\n";

pub static STUCK_FAMILY: &[u8] =
    b"machine 0 stuck steps 74 out 0\n\nmachine 0.1.1 exit 1 steps 19 out 0\n\nticket 0.2 killed 1\nmachine 0.3.1 exit 1 steps 57 out 0\n\nmachine 0.4.1 stuck steps 84 out 0\n\nmachine 0.4.1.1.1 stuck steps 86 out 0\n\nmachine 0.4.1.1.2 stuck steps 86 out 0\n\n";

pub static STUCK_WITH_OUTPUT: &[u8] =
    b"machine 0 stuck steps 19 out 1\nA\nmachine 0.1.1 stuck steps 24 out 1\nB\nmachine 0.1.2 stuck steps 24 out 1\nC\n";

pub static LATE_WORD: &[u8] =
    b"machine 0 exit 0 steps 24 out 0\n\nmachine 0.1.1 exit 268447744 steps 31 out 0\n\nmachine 0.1.2 exit 268447744 steps 29 out 0\n\n";

/// What a child of a ring exits with, and its steps. The first puts the word in, and the last sets the number of the first.
fn of_ring(children: u32, count: u32, child: u32) -> (u32, u32) {
    let before = count.wrapping_sub(1).wrapping_mul(children);
    let steps = count.wrapping_mul(11).wrapping_add(25);
    if child == 1 {
        return (before.wrapping_add(children), steps.wrapping_add(5));
    }
    let word = before.wrapping_add(child.wrapping_sub(1));
    if child == children {
        return (word, steps.wrapping_add(1));
    }
    (word, steps)
}

/// A ring of so many children, who pass a word on so many times each.
pub fn ring(alloc: Global, children: u32, count: u32) -> Result<String, AllocError> {
    let mut text = line_of(alloc, "0", 0, 20)?;
    for child in 1..=children {
        let name = format!(in alloc; "0.1.{child}")?;
        let (word, steps) = of_ring(children, count, child);
        text.push_str(&line_of(alloc, &name, word, steps)?)?;
    }
    Ok(text)
}

/// The sum of the numbers from 1 to this one.
fn sum_to(last: u32) -> u32 {
    let mut sum = 0u32;
    for number in 1..=last {
        sum = sum.wrapping_add(number);
    }
    sum
}

/// So many children, who send their numbers to all others and receive of all others, so many times. It takes them 7 steps to
/// send a word, and 8 to receive one.
pub fn all_to_all(alloc: Global, children: u32, count: u32) -> Result<String, AllocError> {
    let mut text = line_of(alloc, "0", 0, 20)?;
    let sum = sum_to(children);
    let round = children.wrapping_sub(1).wrapping_mul(15).wrapping_add(10);
    let steps = count.wrapping_mul(round).wrapping_add(18);
    for child in 1..=children {
        let name = format!(in alloc; "0.1.{child}")?;
        let value = count.wrapping_mul(sum.wrapping_sub(child));
        text.push_str(&line_of(alloc, &name, value, steps)?)?;
    }
    Ok(text)
}
