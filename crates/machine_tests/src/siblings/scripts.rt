//! Scripts that step through families whose children talk: where they wait, and when they go on.

ghost use Rattle.std.specs.Prelude.{◌≤◌, length};

use super::{at_most, guests};
use crate::equal::succeeds;
use crate::guests::with_clones;
use crate::world_core_tests::{Deed, family_does};
use forest_model::Options;
use std::alloc::{AllocError, Global};
use std::process::Abort;
use std::sync::Wait;

/// It makes no step, also where one is asked for, until the word has come.
static A_RECEIVE_WAITS: [(&str, &str); 18] = [
    ("step 0 100", "0 ran 14 wait 1"),
    ("step 0.1.1 100", "0.1.1 ran 0 stall 0"),
    ("push 0.1.1 0", "0.1.1 push 0 0"),
    ("give 0.1.1 0", "0.1.1 got 0"),
    ("give 0.1.2 0", "0.1.2 got 0"),
    ("step 0.1.1 100", "0.1.1 ran 10 receive 2"),
    ("step 0.1.1 1", "0.1.1 ran 0 receive 2"),
    ("peek 0.1.1 80000000", "0.1.1 word 100022b7"),
    ("step 0.1.2 8", "0.1.2 ran 8 ok"),
    ("step 0.1.1 0", "0.1.1 ran 0 receive 2"),
    ("step 0.1.2 1", "0.1.2 ran 1 ok"),
    ("step 0.1.1 0", "0.1.1 ran 0 ok"),
    ("step 0.1.1 1", "0.1.1 ran 1 ok"),
    ("step 0.1.1 100", "0.1.1 ran 4 exit 2"),
    ("step 0.1.1 1", "0.1.1 none"),
    ("step 0 1", "0 ran 0 wait 1"),
    ("step 0.1.2 100", "0.1.2 ran 6 exit 1"),
    ("step 0 100", "0 ran 7 exit 2"),
];

/// Each waits for the other, and no line takes them further.
static BOTH_WAIT: [(&str, &str); 9] = [
    ("step 0 100", "0 ran 14 wait 1"),
    ("push 0.1.1 0", "0.1.1 push 0 0"),
    ("give 0.1.1 0", "0.1.1 got 0"),
    ("give 0.1.2 0", "0.1.2 got 0"),
    ("step 0.1.1 100", "0.1.1 ran 8 receive 2"),
    ("step 0.1.2 100", "0.1.2 ran 8 receive 1"),
    ("step 0.1.1 100", "0.1.1 ran 0 receive 2"),
    ("step 0.1.2 100", "0.1.2 ran 0 receive 1"),
    ("step 0 100", "0 ran 0 wait 1"),
];

/// Eight words wait, and the ninth SEND goes on as one of them is received.
static A_SEND_WAITS: [(&str, &str); 14] = [
    ("step 0 100", "0 ran 16 wait 1"),
    ("push 0.1.1 0", "0.1.1 push 0 0"),
    ("give 0.1.1 0", "0.1.1 got 0"),
    ("give 0.1.2 0", "0.1.2 got 0"),
    ("step 0.1.1 1000", "0.1.1 ran 58 send 2"),
    ("step 0.1.1 1", "0.1.1 ran 0 send 2"),
    ("step 0.1.2 8", "0.1.2 ran 8 ok"),
    ("step 0.1.1 0", "0.1.1 ran 0 send 2"),
    ("step 0.1.2 1", "0.1.2 ran 1 ok"),
    ("step 0.1.1 0", "0.1.1 ran 0 ok"),
    ("step 0.1.1 1", "0.1.1 ran 1 ok"),
    ("step 0.1.1 1000", "0.1.1 ran 5 exit 0"),
    ("step 0.1.2 1000", "0.1.2 ran 4 exit 9"),
    ("step 0 100", "0 ran 4 exit 0"),
];

/// A SEND that waits goes on as the sibling ends, and what is sent then is dropped.
static A_SIBLING_ENDS: [(&str, &str); 9] = [
    ("step 0 100", "0 ran 16 wait 1"),
    ("push 0.1.1 0", "0.1.1 push 0 0"),
    ("give 0.1.1 0", "0.1.1 got 0"),
    ("give 0.1.2 0", "0.1.2 got 0"),
    ("step 0.1.1 1000", "0.1.1 ran 58 send 2"),
    ("step 0.1.2 129", "0.1.2 ran 129 ok"),
    ("step 0.1.1 0", "0.1.1 ran 0 send 2"),
    ("step 0.1.2 1", "0.1.2 ran 1 exit 40"),
    ("step 0.1.1 1000", "0.1.1 ran 72 exit 2"),
];

/// They are received as if it lived.
static WORDS_OF_ONE_THAT_ENDED: [(&str, &str); 7] = [
    ("step 0 100", "0 ran 16 wait 1"),
    ("push 0.1.1 0", "0.1.1 push 0 0"),
    ("give 0.1.1 0", "0.1.1 got 0"),
    ("give 0.1.2 0", "0.1.2 got 0"),
    ("step 0.1.1 1000", "0.1.1 ran 31 exit 33"),
    ("step 0.1.2 1000", "0.1.2 ran 50 exit 268"),
    ("step 0 100", "0 ran 4 exit 0"),
];

/// It waits until the sibling has come to its limit.
static A_RECEIVE_OF_ONE_THAT_ENDS: [(&str, &str); 9] = [
    ("step 0 100", "0 ran 16 wait 1"),
    ("push 0.1.1 0", "0.1.1 push 0 0"),
    ("give 0.1.1 0", "0.1.1 got 0"),
    ("give 0.1.2 0", "0.1.2 got 0"),
    ("step 0.1.2 100", "0.1.2 ran 10 receive 1"),
    ("step 0.1.1 47", "0.1.1 ran 47 ok"),
    ("step 0.1.2 100", "0.1.2 ran 0 receive 1"),
    ("step 0.1.1 1", "0.1.1 ran 1 limit"),
    ("step 0.1.2 100", "0.1.2 ran 16 exit 41"),
];

/// The step that comes to the limit sends, and the other sends to one that has ended.
static SENDS_AT_THE_LIMIT: [(&str, &str); 8] = [
    ("step 0 100", "0 ran 14 wait 1"),
    ("push 0.1.1 0", "0.1.1 push 0 0"),
    ("give 0.1.1 0", "0.1.1 got 0"),
    ("give 0.1.2 0", "0.1.2 got 0"),
    ("step 0.1.1 100", "0.1.1 ran 9 limit"),
    ("step 0.1.2 8", "0.1.2 ran 8 ok"),
    ("step 0.1.2 100", "0.1.2 ran 1 limit"),
    ("step 0 100", "0 ran 5 limit"),
];

/// Eight words wait each way as it is killed, and in the next brood none waits.
static WORDS_OF_A_BROOD_THAT_WAS_KILLED: [(&str, &str); 15] = [
    ("step 0 13", "0 ran 13 ok"),
    ("push 0.1.1 0", "0.1.1 push 0 0"),
    ("give 0.1.1 0", "0.1.1 got 0"),
    ("give 0.1.2 0", "0.1.2 got 0"),
    ("step 0.1.1 1000", "0.1.1 ran 47 send 2"),
    ("step 0.1.2 1000", "0.1.2 ran 47 send 1"),
    ("step 0 1000", "0 ran 139 wait 2"),
    ("step 0.1.1 1", "0.1.1 none"),
    ("push 0.2.1 0", "0.2.1 push 0 0"),
    ("give 0.2.1 0", "0.2.1 got 0"),
    ("give 0.2.2 0", "0.2.2 got 0"),
    ("step 0.2.2 1000", "0.2.2 ran 7 receive 1"),
    ("step 0.2.1 1000", "0.2.1 ran 7 exit 0"),
    ("step 0.2.2 1000", "0.2.2 ran 7 exit 4294967289"),
    ("step 0 1000", "0 ran 4 exit 0"),
];

/// The kill comes whether they wait or not.
static KILLED_WAITING: [(&str, &str); 9] = [
    ("step 0 13", "0 ran 13 ok"),
    ("push 0.1.1 0", "0.1.1 push 0 0"),
    ("give 0.1.1 0", "0.1.1 got 0"),
    ("give 0.1.2 0", "0.1.2 got 0"),
    ("give 0.1.3 0", "0.1.3 got 0"),
    ("step 0.1.1 100", "0.1.1 ran 7 receive 2"),
    ("step 0.1.3 100", "0.1.3 ran 8 receive 1"),
    ("step 0 1000", "0 ran 129 exit 3"),
    ("step 0.1.1 100", "0.1.1 none"),
];

/// The texts of lines and of their answers.
fn texts_of(alloc: Global, lines: &[(&str, &str)]) -> Result<(String, String), AllocError> {
    let mut script = String::new(alloc);
    let mut told = String::new(alloc);
    for (line, answer) in lines {
        script.push_str(line)?;
        script.push_str("\n")?;
        told.push_str(answer)?;
        told.push_str("\n")?;
    }
    Ok((script, told))
}

/// Of the family of the machine of these words each line has its answer.
fn answers<R: AllocGlobal + Abort + Wait>(
    rt: &R,
    words: &[u32],
    options: Options,
    lines: &[(&str, &str)],
)
    requires words { length words.now ≤ 64 }
    requires least { 1 ≤ options.limit }
    requires most { options.limit ≤ 1_000_000 }
    requires clones { options.allot ≤ 4096 }
{
    let (script, told) = succeeds(rt, texts_of(rt.alloc(), lines));
    let deed = Deed::Drive(script.as_bytes(), told.as_bytes());
    family_does(rt, rt.alloc(), words, options, deed);
}

#[test]
fn a_receive_waits(rt: HostRuntime) {
    answers(&rt, &guests::SIBLING_SWAP, with_clones(2), &A_RECEIVE_WAITS);
}

#[test]
fn both_wait(rt: HostRuntime) {
    answers(&rt, &guests::SIBLING_STUCK, with_clones(2), &BOTH_WAIT);
}

#[test]
fn a_send_waits(rt: HostRuntime) {
    answers(&rt, &guests::NINE_WORDS, with_clones(2), &A_SEND_WAITS);
}

#[test]
fn a_sibling_ends(rt: HostRuntime) {
    answers(&rt, &guests::PAST_THE_END, with_clones(2), &A_SIBLING_ENDS);
}

#[test]
fn words_of_one_that_ended(rt: HostRuntime) {
    answers(
        &rt,
        &guests::WORDS_LEFT,
        with_clones(2),
        &WORDS_OF_ONE_THAT_ENDED,
    );
}

#[test]
fn a_receive_of_one_that_ends(rt: HostRuntime) {
    answers(
        &rt,
        &guests::ENDED_BY_LIMIT,
        at_most(60),
        &A_RECEIVE_OF_ONE_THAT_ENDS,
    );
}

#[test]
fn sends_at_the_limit(rt: HostRuntime) {
    answers(&rt, &guests::SIBLING_SWAP, at_most(19), &SENDS_AT_THE_LIMIT);
}

#[test]
fn words_of_a_brood_that_was_killed(rt: HostRuntime) {
    answers(
        &rt,
        &guests::SECOND_BROOD,
        with_clones(2),
        &WORDS_OF_A_BROOD_THAT_WAS_KILLED,
    );
}

#[test]
fn killed_waiting(rt: HostRuntime) {
    answers(
        &rt,
        &guests::KILLED_WAITING,
        with_clones(3),
        &KILLED_WAITING,
    );
}
