//! Families whose children talk: they come to the same end, or get stuck in the same place, whoever runs them when.

ghost use Rattle.std.specs.Prelude.{◌≡◌};

mod gates;
mod guests;
mod leases;
mod scripts;
mod texts;

use crate::equal::succeeds;
use crate::guests::with_clones;
use crate::host_workers_tests::{ALL, SOME, each_ends_with};
use forest_model::Options;

#[test]
fn siblings_swap(rt: HostRuntime) {
    let text = texts::SIBLING_SWAP;
    each_ends_with(&rt, &guests::SIBLING_SWAP, with_clones(2), &ALL, text);
}

#[test]
fn one_answers_the_other(rt: HostRuntime) {
    let text = texts::PING_PONG;
    each_ends_with(&rt, &guests::PING_PONG, with_clones(2), &ALL, text);
}

#[test]
fn words_come_in_order(rt: HostRuntime) {
    let text = texts::IN_ORDER;
    each_ends_with(&rt, &guests::IN_ORDER, with_clones(2), &ALL, text);
}

/// A guest of two children that may make so many steps.
fn at_most(limit: u64) -> Options
    ensures { result ≡ record { limit = limit; allot = 2 } }
{
    Options { limit, allot: 2 }
}

// The step that comes to the limit sends, or receives, or does neither, since it waits.
#[test]
fn limits_come_with_a_talk(rt: HostRuntime) {
    let swap = &guests::SIBLING_SWAP;
    each_ends_with(&rt, swap, at_most(19), &ALL, texts::SEND_AT_THE_LIMIT);
    each_ends_with(&rt, swap, at_most(21), &ALL, texts::RECEIVE_AT_THE_LIMIT);
}

#[test]
fn limits_come_beside_a_wait(rt: HostRuntime) {
    let stuck = &guests::SIBLING_STUCK;
    each_ends_with(&rt, stuck, at_most(18), &ALL, texts::LIMIT_BEFORE_THE_WAIT);
    each_ends_with(&rt, stuck, at_most(19), &ALL, texts::WAITS_AT_THE_LIMIT);
}

// The root, which has no sibling, names 1. Children name 0, themselves and one more than there are.
#[test]
fn peers_that_are_none_are_refused(rt: HostRuntime) {
    each_ends_with(&rt, &guests::ALONE, with_clones(0), &ALL, texts::ALONE);
    let no_peer = &guests::NO_PEER;
    each_ends_with(&rt, no_peer, with_clones(2), &ALL, texts::NO_PEER);
    each_ends_with(&rt, no_peer, with_clones(1), &ALL, texts::ONLY_CHILD);
}

#[test]
fn commands_that_are_none_are_refused(rt: HostRuntime) {
    let text = texts::NO_COMMAND;
    each_ends_with(&rt, &guests::NO_COMMAND, with_clones(2), &ALL, text);
}

// Of five that are asked for three are granted, and then all.
#[test]
fn siblings_are_those_that_are_granted(rt: HostRuntime) {
    let guest = &guests::GRANTED_FEWER;
    each_ends_with(&rt, guest, with_clones(3), &ALL, texts::GRANTED_FEWER);
    each_ends_with(&rt, guest, with_clones(5), &ALL, texts::GRANTED_ALL);
}

#[test]
fn a_ninth_word_waits_for_room(rt: HostRuntime) {
    let text = texts::NINE_WORDS;
    each_ends_with(&rt, &guests::NINE_WORDS, with_clones(2), &ALL, text);
}

#[test]
fn words_to_one_that_has_ended_are_dropped(rt: HostRuntime) {
    let text = texts::PAST_THE_END;
    each_ends_with(&rt, &guests::PAST_THE_END, with_clones(2), &ALL, text);
}

// One that has exited, and one that came to its limit.
#[test]
fn there_is_no_word_of_one_that_has_ended(rt: HostRuntime) {
    let text = texts::ENDED_BY_EXIT;
    each_ends_with(&rt, &guests::ENDED_BY_EXIT, with_clones(2), &ALL, text);
    let text = texts::ENDED_BY_LIMIT;
    each_ends_with(&rt, &guests::ENDED_BY_LIMIT, at_most(60), &ALL, text);
}

#[test]
fn words_of_one_that_has_ended_are_received(rt: HostRuntime) {
    let text = texts::WORDS_LEFT;
    each_ends_with(&rt, &guests::WORDS_LEFT, with_clones(2), &ALL, text);
}

#[test]
fn words_go_with_their_brood(rt: HostRuntime) {
    let text = texts::SECOND_BROOD;
    each_ends_with(&rt, &guests::SECOND_BROOD, with_clones(2), &ALL, text);
}

#[test]
fn children_start_with_a_fresh_port(rt: HostRuntime) {
    let text = texts::FRESH_PORT;
    each_ends_with(&rt, &guests::FRESH_PORT, with_clones(9), &ALL, text);
}

#[test]
fn two_levels_talk(rt: HostRuntime) {
    let text = texts::TWO_LEVELS;
    each_ends_with(&rt, &guests::TWO_LEVELS, with_clones(6), &ALL, text);
}

// They wait as their parent kills them, and as it ends.
#[test]
fn siblings_that_wait_are_killed(rt: HostRuntime) {
    let text = texts::KILLED_WAITING;
    each_ends_with(&rt, &guests::KILLED_WAITING, with_clones(3), &ALL, text);
    let text = texts::PARENT_ENDS;
    each_ends_with(&rt, &guests::PARENT_ENDS, with_clones(3), &ALL, text);
}

#[test]
fn siblings_that_receive_first_are_stuck(rt: HostRuntime) {
    let text = texts::SIBLING_STUCK;
    each_ends_with(&rt, &guests::SIBLING_STUCK, with_clones(2), &ALL, text);
}

#[test]
fn siblings_that_send_without_end_are_stuck(rt: HostRuntime) {
    let text = texts::EIGHT_WORDS;
    each_ends_with(&rt, &guests::EIGHT_WORDS, with_clones(2), &ALL, text);
}

#[test]
fn three_are_stuck_in_a_ring(rt: HostRuntime) {
    let text = texts::THREE_STUCK;
    each_ends_with(&rt, &guests::THREE_STUCK, with_clones(3), &ALL, text);
}

#[test]
fn a_family_is_stuck_at_all_levels(rt: HostRuntime) {
    let text = texts::STUCK_FAMILY;
    each_ends_with(&rt, &guests::STUCK_FAMILY, with_clones(6), &ALL, text);
}

#[test]
fn those_that_are_stuck_have_put_out_bytes(rt: HostRuntime) {
    let text = texts::STUCK_WITH_OUTPUT;
    each_ends_with(&rt, &guests::STUCK_WITH_OUTPUT, with_clones(2), &ALL, text);
}

#[test]
fn four_pass_a_word_on(rt: HostRuntime) {
    let text = succeeds(&rt, texts::ring(rt.alloc(), 4, 50));
    let text = text.as_bytes();
    each_ends_with(&rt, &guests::SMALL_RING, with_clones(4), &ALL, text);
}

#[test]
fn sixty_four_pass_a_word_on(rt: HostRuntime) {
    let text = succeeds(&rt, texts::ring(rt.alloc(), 64, 16));
    let text = text.as_bytes();
    each_ends_with(&rt, &guests::RING, with_clones(64), &SOME, text);
}

#[test]
fn thirty_two_send_to_each_other(rt: HostRuntime) {
    let text = succeeds(&rt, texts::all_to_all(rt.alloc(), 32, 4));
    let text = text.as_bytes();
    each_ends_with(&rt, &guests::ALL_TO_ALL, with_clones(32), &SOME, text);
}
