//! Laws of the definitions, each the contract of a function that does nothing.

ghost use Rattle.std.specs.Prelude.{◌≡◌, ◌≢◌, ℕ, Option, Some, None, IfSome};
ghost use Rattle.sibling_port.specs.declared.talk.Talk.{Talk};
ghost use Rattle.sibling_port.specs.Registers.{SiblingRegisters, after_receive, after_send, at_start, talked};
ghost use Rattle.sibling_port.specs.Commands.{HasSibling, named, sibling_command};
ghost use Rattle.sibling_port.specs.Sibling.{sibling_load, sibling_store};

use crate::answers::{DONE, NO_SUCH_SIBLING, SIBLING_ENDED, UNKNOWN_COMMAND};
use crate::registers::{
    RECEIVE_COMMAND, SEND_COMMAND, SIBLING_COUNT, SIBLING_DATA, SIBLING_PEER, SIBLING_RESULT,
};
use crate::talk::{Asked, Talk};

/// What commands come to: SEND and RECEIVE ask for a talk where PEER names another child of the ticket,
/// and are refused where it does not. All others are refused.
pub fn commands_by_their_peer()
    ensures send { (number : ℕ) (s : SiblingRegisters) → HasSibling number s
        → sibling_command number s SEND_COMMAND ≡ Asked.Talk (Talk.Send s.peer) }
    ensures receive { (number : ℕ) (s : SiblingRegisters) → HasSibling number s
        → sibling_command number s RECEIVE_COMMAND ≡ Asked.Talk (Talk.Receive s.peer) }
    ensures nobody { (number : ℕ) (s : SiblingRegisters) → ¬ HasSibling number s
        → (sibling_command number s SEND_COMMAND ≡ Asked.Refused NO_SUCH_SIBLING)
        × (sibling_command number s RECEIVE_COMMAND ≡ Asked.Refused NO_SUCH_SIBLING) }
    ensures unknown { (number : ℕ) (s : SiblingRegisters) (command : ℕ) → command ≢ SEND_COMMAND → command ≢ RECEIVE_COMMAND
        → sibling_command number s command ≡ Asked.Refused UNKNOWN_COMMAND }
{}

/// A store that asks for a talk leaves the registers as they are, and the talk is with the sibling that
/// PEER names.
pub fn talks_wait()
    ensures { (number : ℕ) (s : SiblingRegisters) (offset width word : ℕ) (talk : Talk)
        → IfSome (sibling_store number s offset width word)
        (λ t. t.talk ≡ Some talk → (t.port ≡ s) × (HasSibling number s × (named talk ≡ s.peer))) }
{}

/// A root talks to nobody, and neither does a child that is alone.
pub fn who_is_alone_has_no_sibling()
    ensures root { (number : ℕ) (s : SiblingRegisters) → s.siblings ≡ 0 → ¬ HasSibling number s }
    ensures only_child { (s : SiblingRegisters) → s.siblings ≡ 1 → ¬ HasSibling 1 s }
{}

/// What a machine loads after a talk: 0 after a send, with DATA as it was; the word and 0 after a receive of
/// one; and after a receive of none that the sibling has ended, with DATA as it was.
pub fn talks_are_told()
    ensures sent { (s : SiblingRegisters)
        → (sibling_load (after_send s) SIBLING_RESULT 4 ≡ Some DONE) × (sibling_load (after_send s) SIBLING_DATA 4 ≡ Some s.word) }
    ensures received { (s : SiblingRegisters) (word : ℕ) → (sibling_load (after_receive (Some word) s) SIBLING_RESULT 4 ≡ Some DONE)
        × (sibling_load (after_receive (Some word) s) SIBLING_DATA 4 ≡ Some word) }
    ensures ended { (s : SiblingRegisters) → (sibling_load (after_receive None s) SIBLING_RESULT 4 ≡ Some SIBLING_ENDED)
        × (sibling_load (after_receive None s) SIBLING_DATA 4 ≡ Some s.word) }
{}

/// Stores and talks leave how many siblings there are, and talks leave PEER.
pub fn siblings_stay()
    ensures store { (number : ℕ) (s : SiblingRegisters) (offset width word : ℕ)
        → IfSome (sibling_store number s offset width word) (λ t. t.port.siblings ≡ s.siblings) }
    ensures talk { (s : SiblingRegisters) (word : Option ℕ) (answer : ℕ)
        → ((talked word answer s).siblings ≡ s.siblings) × ((talked word answer s).peer ≡ s.peer) }
{}
