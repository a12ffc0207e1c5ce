ghost use Rattle.std.specs.Prelude.{◌≡◌, ◌↔◌, true, false, Some, None, IsErr, IfOk, OnErr};
ghost use Rattle.sibling_port.specs.Registers.{at_start, refused, talked};
ghost use Rattle.sibling_port.specs.Commands.{commanded, is_sibling, sibling_command, talk_asks};
ghost use Rattle.sibling_port.specs.Sibling.{sibling_load, sibling_store};

use crate::answers::{NO_SUCH_SIBLING, UNKNOWN_COMMAND};
use crate::registers::{
    RECEIVE_COMMAND, SEND_COMMAND, SIBLING_COMMAND, SIBLING_COUNT, SIBLING_DATA, SIBLING_PEER,
    SIBLING_RESULT,
};
use crate::talk::{Asked, Talk};
use port_error::Fault;
use std::marker::Model;

/// The sibling port. It has no words of its siblings: these wait outside of it, until a talk is made.
#[derive(Clone, Copy)]
pub struct SiblingPort {
    peer: u32,
    word: u32,
    result: u32,
    siblings: u32,
}

impl Model for SiblingPort {
    ghost use Rattle.sibling_port.specs.Registers.{SiblingRegisters};

    ghost Value = { SiblingRegisters };

    ghost view = { λ p. record { peer = p.peer; word = p.word; result = p.result; siblings = p.siblings } };

    ghost inverse = { λ v. record { peer = v.peer; word = v.word; result = v.result; siblings = v.siblings } };
}

impl SiblingPort {
    /// The port of a machine that starts: of a child of a ticket that made so many, or of a root, with 0.
    pub fn new(siblings: u32) -> SiblingPort
        ensures { result ≡ at_start siblings }
    {
        SiblingPort {
            peer: 0,
            word: 0,
            result: 0,
            siblings,
        }
    }

    /// DATA: the word that a send sends.
    pub fn data(&self) -> u32
        ensures { result ≡ self.now.word }
    {
        self.word
    }

    /// Loads a word.
    #[tactic(auto, unfolding(crate::specs::Sibling::sibling_load))]
    pub fn load(&self, offset: u32, width: u32) -> Result<u32, Fault>
        ensures ok { IfOk result (λ word. sibling_load self.now offset width ≡ Some word) }
        ensures fault { IsErr result ↔ (sibling_load self.now offset width ≡ None) }
    {
        match (offset, width) {
            (SIBLING_PEER, 4) => Ok(self.peer),
            (SIBLING_DATA, 4) => Ok(self.word),
            (SIBLING_RESULT, 4) => Ok(self.result),
            (SIBLING_COUNT, 4) => Ok(self.siblings),
            _ => Err(Fault),
        }
    }

    /// Stores a word, in the machine that is the child of this number. Answers the talk that the machine
    /// is to make, if the word asks for one; all registers are as before then.
    #[tactic(auto, unfolding(crate::specs::Sibling::sibling_store))]
    pub fn store(
        &mut self,
        number: u32,
        offset: u32,
        width: u32,
        word: u32,
    ) -> Result<Option<Talk>, Fault>
        ensures ok { IfOk result (λ talk. sibling_store number self.old offset width word ≡ Some (record { port = self.new; talk = talk })) }
        ensures fault { IsErr result ↔ (sibling_store number self.old offset width word ≡ None) }
        ensures err { OnErr result (self.new ≡ self.old) }
    {
        match (offset, width) {
            (SIBLING_PEER, 4) => self.peer = word,
            (SIBLING_DATA, 4) => self.word = word,
            (SIBLING_COMMAND, 4) => return Ok(self.command(number, word)),
            _ => return Err(Fault),
        }
        Ok(None)
    }

    /// What a command asks for, in the machine that is the child of this number.
    #[tactic(auto, unfolding(crate::specs::Commands::sibling_command))]
    pub fn asked(&self, number: u32, command: u32) -> Asked
        ensures { result ≡ sibling_command number self.now command }
    {
        match command {
            SEND_COMMAND => self.asked_to(number, Talk::Send(self.peer)),
            RECEIVE_COMMAND => self.asked_to(number, Talk::Receive(self.peer)),
            _ => Asked::Refused(UNKNOWN_COMMAND),
        }
    }

    /// A talk was made: the word that it brought, if there is one, goes to DATA, and RESULT is the answer.
    pub fn talked(&mut self, word: Option<u32>, answer: u32)
        ensures { self.new ≡ talked word answer self.old }
    {
        if let Some(word) = word {
            self.word = word;
        }
        self.result = answer;
    }

    // Refuses a command, or answers the talk that it asks for.
    fn command(&mut self, number: u32, command: u32) -> Option<Talk>
        ensures { record { port = self.new; talk = result } ≡ commanded (sibling_command number self.old command) self.old }
    {
        match self.asked(number, command) {
            Asked::Refused(word) => {
                self.result = word;
                None
            }
            Asked::Talk(talk) => Some(talk),
        }
    }

    // A talk is asked for where PEER names another child of the ticket.
    fn asked_to(&self, number: u32, talk: Talk) -> Asked
        ensures { result ≡ talk_asks (is_sibling number self.now) talk }
    {
        if self.peer != 0 && self.peer != number && self.peer <= self.siblings {
            Asked::Talk(talk)
        } else {
            Asked::Refused(NO_SUCH_SIBLING)
        }
    }
}
