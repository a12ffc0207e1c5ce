//! The calls of a machine, which concern its children: CLONE, JOIN and KILL; and its talks with siblings: SEND and RECEIVE.

ghost use Rattle.std.specs.Prelude.{◌≡◌, ◌≤◌, ◌==◌, if◌then◌else◌, ℕ, Some, None, IfSome, IfOk, IsSome, OnOk, OnErr, length};
ghost use Rattle.image_depot.specs.Key.{IsKeyOf, image_of};
ghost use Rattle.forest_model.specs.Calls.{after_join, after_kill, forked};
ghost use Rattle.forest_model.specs.Forest.{machines};
ghost use Rattle.forest_model.specs.Talks.{talked};
ghost use Rattle.vm_hart.specs.Keyed.{IsOfDepot};
ghost use Rattle.vm_cell.specs.Standing.{IsAsked, IsClone, IsJoin, IsKill, IsSpoken, call_in, standing_call, standing_talk, talk_in};
ghost use Rattle.vm_hart.specs.Seeds.{IsOfImage, image_left};
ghost use Rattle.vm_cell.specs.Woken.{AreSeeds, woken};

use super::{Vm, count_step};
use forest_model::Ending;
use fork_port::Call;
use image_depot::{Depot, ImageKey};
use sibling_port::Talk;
use std::alloc::{AllocError, Global};
use std::sync::Wait;
use vm_descriptor::{Descriptor, MAX_CLONES, Seed};
use vm_hart::{Hart, Request};

/// What a machine leaves for its children, when it makes a CLONE.
#[derive(Drop)]
pub struct ForkImage {
    /// The key to the image that all of them start with.
    pub key: ImageKey,
    /// What child 1 starts with beside it, as bytes. The others differ in their number alone.
    pub seed: Seed,
}

impl Vm {
    /// The call that `step` would answer, if it would answer one. It takes no memory.
    pub fn call(&self) -> Option<Call>
        ensures value { result ≡ standing_call self.now }
        ensures asked { IfSome result (IsAsked self.now.machine) }
    {
        if self.ending.is_some() {
            return None;
        }
        call_in(self.hart.request())
    }

    /// The talk that `step` would answer, if it would answer one. It takes no memory.
    pub fn talk(&self) -> Option<Talk>
        ensures value { result ≡ standing_talk self.now }
        ensures asked { IfSome result (IsSpoken self.now.machine) }
    {
        if self.ending.is_some() {
            return None;
        }
        talk_in(self.hart.request())
    }

    /// The word that a SEND of the machine sends.
    pub fn data(&self) -> u32
        ensures { result ≡ self.now.machine.state.ports.sibling.word }
    {
        self.hart.data()
    }

    /// Makes the SEND or the RECEIVE that is the next step: the word that it brought, if there is one, goes into DATA, and
    /// RESULT is the answer. It takes no memory.
    pub fn talked(&mut self, word: Option<u32>, answer: u32)
        requires { IsSome (standing_talk self.old) }
        ensures { self.new ≡ record self.old { machine = talked self.old.machine word answer } }
    {
        self.hart.talked(word, answer);
        count_step(&mut self.steps, self.limit, &mut self.ending, true);
    }

    /// How many children a ticket was granted, which is 0 where there is no such ticket.
    pub fn granted(&self, ticket: u32) -> u32
        ensures value { result ≡ (machines.grant self.now.machine ticket).children }
        ensures most { result ≤ MAX_CLONES }
    {
        self.grant(ticket).0
    }

    /// Makes the CLONE that is the next step: the machine goes on, and each of its children starts with
    /// the seed by its number and the image of the brood's key. It may wait for another thread that keeps an image.
    pub fn freeze_child<R: Wait>(
        &mut self,
        rt: &R,
        alloc: Global,
        depot: &Depot,
    ) -> Result<ForkImage, AllocError>
        requires of_depot { IsOfDepot depot.now self.old.key }
        requires clone { IsClone (standing_call self.old) }
        ensures made { OnOk result (self.new ≡ record self.old { machine = forked self.old.machine }) }
        ensures err { OnErr result (self.new ≡ self.old) }
        ensures here { IfOk result (λ image. IsKeyOf depot.now image.key) }
        ensures seeds { IfOk result (λ image. (ticket : ℕ) → standing_call self.old ≡ Some (Call.Clone ticket)
            → AreSeeds self.old image.key (machines.grant self.old.machine ticket).children image.seed) }
    {
        let image = self.child_left(rt, alloc, depot)?;
        self.cloned();
        Ok(image)
    }

    /// What the CLONE that is the next step leaves for the children. The machine stays as it is, so this may be done
    /// long before the CLONE is made. It may wait for another thread that keeps an image.
    pub fn child_left<R: Wait>(
        &self,
        rt: &R,
        alloc: Global,
        depot: &Depot,
    ) -> Result<ForkImage, AllocError>
        requires of_depot { IsOfDepot depot.now self.now.key }
        requires clone { IsClone (standing_call self.now) }
        ensures here { IfOk result (λ image. IsKeyOf depot.now image.key) }
        ensures seeds { IfOk result (λ image. (ticket : ℕ) → standing_call self.now ≡ Some (Call.Clone ticket)
            → AreSeeds self.now image.key (machines.grant self.now.machine ticket).children image.seed) }
    {
        let ticket = self.cloned_ticket();
        let key = depot.freeze(rt, self.hart.freeze(alloc, depot)?)?;
        let seed = self.seed(alloc, ticket, &key)?;
        Ok(ForkImage { key, seed })
    }

    /// Makes the CLONE that is the next step. It takes no memory.
    pub fn cloned(&mut self)
        requires { IsClone (standing_call self.old) }
        ensures { self.new ≡ record self.old { machine = forked self.old.machine } }
    {
        let ticket = self.cloned_ticket();
        self.hart.fork(ticket);
        count_step(&mut self.steps, self.limit, &mut self.ending, true);
    }

    /// What child 1 of the CLONE that is the next step starts with, beside the image of a key.
    fn seed(&self, alloc: Global, ticket: u32, key: &ImageKey) -> Result<Seed, AllocError>
        requires asked { IsAsked self.now.machine (Call.Clone ticket) }
        requires image { image_of key.now ≡ image_left self.now.machine.state }
        ensures { IfOk result (λ seed. AreSeeds self.now key.now (machines.grant self.now.machine ticket).children seed) }
    {
        let (children, share) = self.grant(ticket);
        let steps = self.steps + 1;
        let seed = self
            .hart
            .seed(alloc, key.number(), share, steps, self.limit)?;
        Seed::new(alloc, &seed, children)
    }

    /// How many children a ticket was granted, and the share of each.
    #[tactic(auto, unfolding(forest_model::specs::Forest::machines))]
    fn grant(&self, ticket: u32) -> (u32, u32)
        ensures children { result.0 ≡ (machines.grant self.now.machine ticket).children }
        ensures share { result.1 ≡ (machines.grant self.now.machine ticket).share }
        ensures most { result.0 ≤ MAX_CLONES }
    {
        match self.hart.find(ticket) {
            Some((children, share, _)) => (children, share),
            None => (0, 0),
        }
    }

    /// The machine of a descriptor, which is of the image of a key, as a child of a ticket that made `siblings` children.
    /// Its blank pages alone are here, and no page of its disk.
    #[tactic(auto, unfolding(crate::specs::Woken::woken))]
    pub fn wake(
        alloc: Global,
        descriptor: &Descriptor,
        siblings: u32,
        key: &ImageKey,
        depot: &Depot,
    ) -> Result<Vm, AllocError>
        requires of_depot { IsKeyOf depot.now key.now }
        requires of_image { IsOfImage key.now descriptor.now }
        requires least { descriptor.now.clone_id ≤ siblings }
        requires most { siblings ≤ MAX_CLONES }
        ensures { IfOk result (λ vm. vm ≡ woken descriptor.now siblings key.now) }
    {
        Ok(Vm {
            hart: Hart::woken(alloc, descriptor, siblings, key, depot)?,
            steps: descriptor.steps,
            limit: descriptor.limit,
            ending: ending_at(descriptor.steps, descriptor.limit),
        })
    }

    /// Makes the JOIN that is the next step. The ticket's children have ended so, in order.
    pub fn joined(&mut self, endings: &[Ending]) -> Result<(), AllocError>
        requires { IsJoin self.old.machine endings.now (standing_call self.old) }
        ensures ok { OnOk result (self.new ≡ record self.old { machine = after_join self.old.machine endings.now }) }
        ensures err { OnErr result (self.new ≡ self.old) }
    {
        let ticket = self.joined_ticket(endings);
        self.hart.join(ticket, endings)?;
        count_step(&mut self.steps, self.limit, &mut self.ending, true);
        Ok(())
    }

    /// Makes the KILL that is the next step. It takes no memory.
    pub fn killed(&mut self)
        requires { IsKill (standing_call self.old) }
        ensures { self.new ≡ record self.old { machine = after_kill self.old.machine } }
    {
        let ticket = self.killed_ticket();
        self.hart.kill(ticket);
        count_step(&mut self.steps, self.limit, &mut self.ending, true);
    }

    /// The ticket of the CLONE that is the next step.
    fn cloned_ticket(&self) -> u32
        requires { IsClone (standing_call self.now) }
        ensures { IsAsked self.now.machine (Call.Clone result) }
    {
        match self.call() {
            Some(Call::Clone(ticket)) => ticket,
            _ => unreachable!(),
        }
    }

    /// The ticket of the KILL that is the next step.
    fn killed_ticket(&self) -> u32
        requires { IsKill (standing_call self.now) }
        ensures { IsAsked self.now.machine (Call.Kill result) }
    {
        match self.call() {
            Some(Call::Kill(ticket)) => ticket,
            _ => unreachable!(),
        }
    }

    /// The ticket of the JOIN that is the next step.
    fn joined_ticket(&self, endings: &[Ending]) -> u32
        requires { IsJoin self.now.machine endings.now (standing_call self.now) }
        ensures asked { IsAsked self.now.machine (Call.Join result) }
        ensures all { length endings.now ≡ (machines.grant self.now.machine result).children }
    {
        match self.call() {
            Some(Call::Join(ticket)) => ticket,
            _ => unreachable!(),
        }
    }
}

/// The call that is asked for, if it is one.
fn call_in(request: Option<Request>) -> Option<Call>
    ensures { result ≡ call_in request }
{
    match request {
        Some(Request::Call(call)) => Some(call),
        Some(Request::Talk(_)) | None => None,
    }
}

/// The talk that is asked for, if it is one.
fn talk_in(request: Option<Request>) -> Option<Talk>
    ensures { result ≡ talk_in request }
{
    match request {
        Some(Request::Talk(talk)) => Some(talk),
        Some(Request::Call(_)) | None => None,
    }
}

/// How a machine has ended that has made so many steps and no EXIT.
fn ending_at(steps: u64, limit: u64) -> Option<Ending>
    ensures { result ≡ (if steps == limit then Some Ending.Limit else None) }
{
    if steps == limit {
        Some(Ending::Limit)
    } else {
        None
    }
}
