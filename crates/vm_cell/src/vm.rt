ghost use Rattle.std.specs.Prelude.{◌≡◌, ◌≢◌, ◌+◌, ◌-◌, ◌*◌, ◌≤◌, ◌<◌, ◌==◌, if◌then◌else◌, MatchBool, IsTrue, true, false, [], length, slice_index_or, None, Some, IfOk, IfSome, OnErr};
ghost use Rattle.std.specs.Option.{option_copied};
ghost use Rattle.console_port.specs.declared.port.TheConstants.{MAX_INPUT};
ghost use Rattle.page_frames.specs.declared.page.TheConstants.{PAGE_SIZE};
ghost use Rattle.cow_disk.specs.Paged.{disk_over, IsWholeDisk};
ghost use Rattle.image_depot.specs.Key.{IsKeyOf};
ghost use Rattle.instruction_slots.specs.Slots.{Learns};
ghost use Rattle.forest_model.specs.Forest.{machines};
ghost use Rattle.fork_port.specs.Handed.{handed_of};
ghost use Rattle.forest_model.specs.Machine.{IsWithinLimit, boot, count};
ghost use Rattle.forest_model.specs.Memory.{bytes_at};
ghost use Rattle.forest_model.specs.Paged.{AreFlagged, pages_at_boot, stalled_at};
ghost use Rattle.vm_hart.specs.Acts.{Grows, IsReadable};
ghost use Rattle.vm_hart.specs.Kept.{ComesAside, Keeps};
ghost use Rattle.vm_hart.specs.Keyed.{Arrives, HasImage, IsOfDepot, hart_in, paged};
ghost use Rattle.vm_cell.specs.Parts.{ArePast, IsCut, IsMadeUntil, IsPart, Stops, stop_at};
ghost use Rattle.vm_hart.specs.Shown.{peeked, shown_registers};
ghost use Rattle.vm_hart.specs.Runs.{IsFreeFor, IsRun, moved_by};
ghost use Rattle.vm_cell.specs.Steps.{GoesOn, IsAfterStep, Stands, Steps};

use crate::slots::{Slots, begin_epoch, make_slots};
use cow_disk::{Disk, MAX_SECTORS, PAGE_SECTORS};
use elf_load::Loaded;
use forest_model::{Ending, Options, Written};
use fork_port::Call;
use guest_mem::Arrived;
use image_depot::{Depot, ImageKey, Parcel};
use instruction_slots::Slot;
use rv_traps::TIMER_INTERRUPT;
use sibling_port::Talk;
use std::alloc::{AllocError, Global};
use std::marker::Model;
use vm_descriptor::{MAX_CLONES, MAX_LIMIT};
use vm_hart::{Acted, Hart, Request};

mod fork;

pub use fork::ForkImage;

/// So many steps of a run are made one by one before fast ones are tried: those of a run that stops soon, at a page, a call or
/// a talk, take less so.
const FEW: u64 = 16;

/// The most steps that are made with no try at fast ones. It is odd, so that a try comes at another place of a short loop.
const LONGEST_PAUSE: u64 = 255;

/// In a pause as long as this no step is looked at before it is made.
const LONG_PAUSE: u64 = 16;

/// Where a machine stands after a step.
#[derive(Clone, Copy, Debug, PartialEq, Eq)]
pub enum Stepped {
    /// The step was made, and the machine lives.
    Went,
    /// The next step waits for the page at this place: the first that it touches and that is absent. It was not made.
    Stall(u32),
    /// The next step is a call, which the machine is to make. It was not made.
    Call(Call),
    /// The next step is a talk with a sibling, which the machine is to make. It was not made.
    Talk(Talk),
    /// The step ended the machine, or it had ended before.
    Ended(Ending),
}

/// What a run came to: how many steps were made, and where the machine stands after them.
#[derive(Clone, Copy)]
pub struct Ran {
    pub steps: u64,
    pub why: Stepped,
}

/// What ends a run of a machine that lives. It is a few bytes, where a `Stepped` has room for all that a machine hands over,
/// so each step can answer it.
#[derive(Clone, Copy)]
enum Stop {
    /// The next step waits for this page.
    Page(u32),
    /// The next step is this call.
    Call(Call),
    /// The next step is this talk.
    Talk(Talk),
    /// The machine has ended.
    End,
}

/// What a part of a run came to: how many steps were made, and what stopped it, if something did.
#[derive(Clone, Copy)]
struct Part {
    steps: u64,
    stop: Option<Stop>,
}

/// One machine, of which some pages may be absent.
pub struct Vm {
    hart: Hart,
    steps: u64,
    limit: u64,
    ending: Option<Ending>,
}

// By hand, since what a derive gives is proved in each crate above, for each type within.
impl Drop for Vm {
    fn drop(self) {
        let Vm {
            hart: _,
            steps: _,
            limit: _,
            ending: _,
        } = self;
    }
}

impl Model for Vm {
    ghost use Rattle.vm_hart.specs.Keyed.{KeyedMachine, machine_of};
    ghost use Rattle.vm_cell.specs.Steps.{IsCounted};

    ghost Value = { KeyedMachine };

    ghost view = { λ v. machine_of v.hart v.steps v.limit v.ending };

    ghost invariant = { λ v. IsCounted v.steps v.limit v.ending v.hart.state.ports.fork };
}

impl Vm {
    /// The machine that starts from an image, with this disk, of which every page is here, and this input. All
    /// its pages are here.
    #[tactic(auto, unfolding(forest_model::specs::Machine::boot))]
    pub fn boot(
        alloc: Global,
        image: &Loaded,
        disk: Disk,
        input: &[u8],
        options: Options,
    ) -> Result<Vm, AllocError>
        requires input_fits { length input.now ≤ MAX_INPUT }
        requires least { 1 ≤ options.limit }
        requires most { options.limit ≤ MAX_LIMIT }
        requires allot { options.allot ≤ MAX_CLONES }
        requires disk_whole { IsWholeDisk disk }
        ensures { IfOk result (λ vm. vm ≡ record { machine = boot image.now (disk_over disk []) input.now options; pages = pages_at_boot image.now (disk_over disk []); key = None }) }
    {
        Ok(Vm {
            hart: Hart::new(alloc, image, disk, input, options.allot)?,
            steps: 0,
            limit: options.limit,
            ending: None,
        })
    }

    /// How many steps the machine has made.
    pub fn steps(&self) -> u64
        ensures { result ≡ self.now.machine.steps }
    {
        self.steps
    }

    /// The most steps that the machine may make.
    pub fn limit(&self) -> u64
        ensures { result ≡ self.now.machine.limit }
    {
        self.limit
    }

    /// How the machine has ended, or `None` while it lives.
    pub fn ended(&self) -> Option<Ending>
        ensures ending { result ≡ self.now.machine.ending }
        // What a forest asks of every machine.
        ensures good { machines.is_good self.now.machine ≡ true }
    {
        self.ending
    }

    /// The word of RAM at an address as it would read, or `None` where the address is no multiple of 4 in RAM.
    pub fn peek(&self, depot: &Depot, address: u32) -> Option<u32>
        requires { IsOfDepot depot.now self.now.key }
        ensures { result ≡ peeked self.now.machine.state address }
    {
        self.hart.peek(depot, address)
    }

    /// The pc, and then the registers x1 to x31.
    pub fn regs(&self) -> [u32; 32]
        ensures { result ≡ shown_registers self.now.machine.state }
    {
        self.hart.shown_registers()
    }

    /// What the machine has put out on its console.
    pub fn output(&self) -> &[u8]
        ensures { result.now ≡ self.now.machine.state.ports.console.output }
    {
        self.hart.output()
    }

    /// The same, of a machine that is needed no more.
    pub fn into_output(self) -> Vec<u8>
        ensures { result.items ≡ self.machine.state.ports.console.output }
    {
        let Vm {
            hart,
            steps: _,
            limit: _,
            ending: _,
        } = self;
        hart.into_output()
    }

    /// The key to the image that has the absent pages. A machine that was booted has none, and wants nothing.
    pub fn key(&self) -> Option<&ImageKey>
        ensures value { option_copied result ≡ self.now.key }
        ensures absent { HasImage self.now.key self.now.pages }
    {
        self.hart.key()
    }

    /// The place of the page at which the next step stalls, if it stalls.
    pub fn wanted(&self) -> Option<u32>
        ensures { result ≡ stalled_at (paged self.now) }
    {
        if self.ending.is_some() {
            return None;
        }
        self.hart.wanted()
    }

    /// The pages of RAM.
    pub fn pages(&self) -> u32
        ensures value { result ≡ length self.now.pages.blank }
        ensures flagged { AreFlagged self.now.machine.state self.now.pages }
    {
        self.hart.pages()
    }

    /// All pages. One is told by its place: those of RAM come first, and then those of the disk.
    pub fn places(&self) -> u32
        ensures value { result ≡ length self.now.pages.here }
        ensures least { length self.now.pages.blank ≤ result }
        ensures few { PAGE_SECTORS * result ≤ PAGE_SECTORS * length self.now.pages.blank + MAX_SECTORS }
    {
        self.hart.places()
    }

    /// Whether a page is here. One that is not is absent.
    pub fn is_here(&self, page: u32) -> bool
        requires { page < length self.now.pages.here }
        ensures { result ≡ slice_index_or self.now.pages.here page false }
    {
        self.hart.is_here(page)
    }

    /// Takes a page that was sent, where it is absent and one of the image of the key. Nothing else changes.
    pub fn arrive(
        &mut self,
        alloc: Global,
        depot: &Depot,
        parcel: &Parcel,
    ) -> Result<Arrived, AllocError>
        requires of_depot { IsOfDepot depot.now self.old.key }
        requires parcel { IsKeyOf depot.now parcel.now.key }
        ensures arrives { IfOk result (Arrives self.old.key self.old.pages parcel.now self.new.pages) }
        ensures rest { (self.new.machine ≡ self.old.machine) × (self.new.key ≡ self.old.key) }
        ensures err { OnErr result (self.new ≡ self.old) }
    {
        self.hart.arrive(alloc, depot, parcel)
    }

    /// Makes one step, if the machine lives, the pages that the step touches are here, and it is no call and no talk.
    #[inline]
    #[tactic(auto, unfolding(forest_model::specs::Machine::advance))]
    pub fn step(&mut self) -> Result<Stepped, AllocError>
        ensures steps { IfOk result (λ stepped. Steps self.old self.new stepped) }
        ensures key { self.new.key ≡ self.old.key }
        ensures err { OnErr result (self.new ≡ self.old) }
        // Memory is wanted only for a page of RAM, a byte of output or a sector of the disk that is
        // written, and for a ticket.
        ensures memory { OnErr result ((self.old.machine.ending ≡ None) × (stalled_at (paged self.old) ≡ None) × Grows self.old.machine.state) }
    {
        if let Some(ending) = self.ending {
            return Ok(Stepped::Ended(ending));
        }
        match self.step_live(&mut [Slot::empty()], true)? {
            Some(Stop::Page(page)) => Ok(Stepped::Stall(page)),
            Some(Stop::Call(call)) => Ok(Stepped::Call(call)),
            Some(Stop::Talk(talk)) => Ok(Stepped::Talk(talk)),
            Some(Stop::End) | None => Ok(self.standing()),
        }
    }

    /// Makes at most `most` steps, until the machine ends, stalls or is to make a call or a talk, and looks at the step
    /// after them. After an `Err` the steps before it stand. The slots may be those of runs of other machines.
    pub fn run(&mut self, slots: &mut Slots, most: u64) -> Result<Ran, AllocError>
        ensures steps { IfOk result (λ ran. self.new ≡ moved_by ran.steps self.old) }
        ensures free { IfOk result (λ ran. IsFreeFor ran.steps self.old) }
        ensures each_made { IfOk result (λ ran. self.new.machine.steps ≡ self.old.machine.steps + ran.steps) }
        ensures stands { IfOk result (λ ran. Stands self.new ran.why) }
        ensures most { IfOk result (λ ran. ran.steps ≤ most) }
        ensures all_made { IfOk result (λ ran. ran.why ≡ Stepped.Went → ran.steps ≡ most) }
        ensures enough { IfOk result (λ ran. self.old.machine.limit ≤ self.old.machine.steps + most → ran.why ≢ Stepped.Went) }
        ensures err { OnErr result (self.new ≡ moved_by (self.new.machine.steps - self.old.machine.steps) self.old) }
        ensures err_free { OnErr result (IsFreeFor (self.new.machine.steps - self.old.machine.steps) self.old) }
        ensures err_steps { OnErr result (self.old.machine.steps ≤ self.new.machine.steps) }
        ensures err_most { OnErr result (self.new.machine.steps < self.old.machine.steps + most) }
        ensures err_live { OnErr result (self.new.machine.ending ≡ None) }
        ensures err_here { OnErr result (stalled_at (paged self.new) ≡ None) }
        ensures err_memory { OnErr result (Grows self.new.machine.state) }
    {
        if let Some(ending) = self.ending {
            return Ok(Ran {
                steps: 0,
                why: Stepped::Ended(ending),
            });
        }
        let part = self.run_parts(slots, most)?;
        Ok(Ran {
            steps: part.steps,
            why: self.standing_by(part.stop),
        })
    }

    /// Where the machine stands whose run this ended, if anything did, with a look at the next step.
    fn standing_by(&self, stop: Option<Stop>) -> Stepped
        requires { IfSome stop (Stops self.now) }
        ensures stands { Stands self.now result }
        ensures went { result ≡ Stepped.Went → (stop ≡ None) × IsWithinLimit self.now.machine }
    {
        match stop {
            Some(stop) => self.stopped_by(stop),
            None => self.standing_now(),
        }
    }

    /// Where the machine stands whose run this ended.
    fn stopped_by(&self, stop: Stop) -> Stepped
        requires { Stops self.now stop }
        ensures stands { Stands self.now result }
        ensures stopped { result ≢ Stepped.Went }
    {
        match stop {
            Stop::Page(page) => Stepped::Stall(page),
            Stop::Call(call) => Stepped::Call(call),
            Stop::Talk(talk) => Stepped::Talk(talk),
            Stop::End => self.standing(),
        }
    }

    /// Makes at most `most` steps of a machine that lives, and looks at no step after them.
    fn run_parts(&mut self, slots: &mut Slots, most: u64) -> Result<Part, AllocError>
        requires { self.old.machine.ending ≡ None }
        ensures ok { IfOk result (IsPart most self.old self.new) }
        ensures err { OnErr result (IsCut most self.old self.new) }
    {
        let first = self.step_first(slots, most.min(FEW))?;
        if first.stop.is_some() {
            return Ok(first);
        }
        if first.steps < FEW {
            return Ok(first);
        }
        let rest = self.run_on(slots, most - first.steps)?;
        Ok(Part {
            steps: first.steps + rest.steps,
            stop: rest.stop,
        })
    }

    /// The same, with each step made by itself. The slots are made here, where there is memory for them.
    fn step_first(&mut self, slots: &mut Slots, most: u64) -> Result<Part, AllocError>
        requires { self.old.machine.ending ≡ None }
        ensures ok { IfOk result (IsPart most self.old self.new) }
        ensures err { OnErr result (IsCut most self.old self.new) }
    {
        make_slots(&mut slots.slots, slots.epoch, slots.alloc);
        if slots.slots.is_empty() {
            return self.step_alike(most);
        }
        self.step_some(slots.slots.as_mut_slice(), most)
    }

    /// The same where there is no memory for slots.
    fn step_alike(&mut self, most: u64) -> Result<Part, AllocError>
        requires { self.old.machine.ending ≡ None }
        ensures ok { IfOk result (IsPart most self.old self.new) }
        ensures err { OnErr result (IsCut most self.old self.new) }
    {
        self.step_some(&mut [Slot::empty()], most)
    }

    /// The same with fast steps, where there are slots.
    fn run_on(&mut self, slots: &mut Slots, most: u64) -> Result<Part, AllocError>
        requires { self.old.machine.ending ≡ None }
        ensures ok { IfOk result (IsPart most self.old self.new) }
        ensures err { OnErr result (IsCut most self.old self.new) }
    {
        if slots.slots.is_empty() {
            return self.step_alike(most);
        }
        self.run_with(slots.slots.as_mut_slice(), &mut slots.epoch, most)
    }

    /// The same, with each step made by itself. Its word is not decoded where its slot has it, and else its slot has it then.
    fn step_some(&mut self, slots: &mut [Slot], most: u64) -> Result<Part, AllocError>
        requires live { self.old.machine.ending ≡ None }
        requires some { 0 < length slots.old }
        ensures ok { IfOk result (IsPart most self.old self.new) }
        ensures err { OnErr result (IsCut most self.old self.new) }
        ensures learns { Learns slots.old slots.new }
    {
        let first = self.steps;
        let few = most.min(self.limit - first);
        let stop = self.step_until(slots, first + few)?;
        Ok(Part {
            steps: self.steps - first,
            stop,
        })
    }

    /// Makes steps until so many are made in all. `step_live` is inlined, and the loop has nothing beside it: the count of the
    /// machine's steps is its own, and the step that may come to the limit is apart.
    #[inline(never)]
    fn step_until(&mut self, slots: &mut [Slot], until: u64) -> Result<Option<Stop>, AllocError>
        requires live { self.old.machine.ending ≡ None }
        requires from { self.old.machine.steps ≤ until }
        requires some { 0 < length slots.old }
        ensures ok { IfOk result (IsMadeUntil until self.old self.new) }
        ensures within { IfOk result (λ stop. IsWithinLimit self.new.machine) }
        ensures err { OnErr result (IsCut (until - self.old.machine.steps) self.old self.new) }
        ensures learns { Learns slots.old slots.new }
    {
        let below = until.min(self.limit - 1);
        while self.steps < below {
            if let Some(stop) = self.step_live(slots, false)? {
                return Ok(Some(stop));
            }
        }
        if self.steps < until {
            let last = self.step_kept(slots)?;
            return Ok(last.stop);
        }
        Ok(None)
    }

    /// Makes the coming steps by themselves, so many: one where it leaves RAM as it is, as a slot tells, which then has its
    /// word, too.
    #[inline(always)]
    fn step_alone(
        &mut self,
        slots: &mut [Slot],
        is_left: bool,
        count: u64,
    ) -> Result<Part, AllocError>
        requires live { self.old.machine.ending ≡ None }
        requires one { IsTrue is_left → count ≡ 1 }
        requires some { 0 < length slots.old }
        ensures ok { IfOk result (IsPart count self.old self.new) }
        ensures err { OnErr result (IsCut count self.old self.new) }
        ensures learns { Learns slots.old slots.new }
    {
        if is_left {
            self.step_kept(slots)
        } else {
            self.step_some(slots, count)
        }
    }

    /// Makes one step of a machine that lives, by the slots.
    #[inline(never)]
    fn step_kept(&mut self, slots: &mut [Slot]) -> Result<Part, AllocError>
        requires live { self.old.machine.ending ≡ None }
        requires some { 0 < length slots.old }
        ensures ok { IfOk result (IsPart 1 self.old self.new) }
        ensures within { IfOk result (λ part. IsWithinLimit self.new.machine) }
        ensures err { OnErr result (IsCut 1 self.old self.new) }
        ensures learns { Learns slots.old slots.new }
    {
        let first = self.steps;
        let stop = self.step_live(slots, true)?;
        Ok(Part {
            steps: self.steps - first,
            stop,
        })
    }

    /// The same with slots. What they keep for an epoch holds while fast steps are made, so steps that are made by themselves begin an epoch, unless it is one that leaves
    /// RAM as it is.
    #[inline(never)]
    fn run_with(
        &mut self,
        slots: &mut [Slot],
        epoch: &mut u32,
        most: u64,
    ) -> Result<Part, AllocError>
        requires live { self.old.machine.ending ≡ None }
        requires some { 0 < length slots.old }
        requires past { ArePast epoch.old slots.old }
        ensures ok { IfOk result (IsPart most self.old self.new) }
        ensures err { OnErr result (IsCut most self.old self.new) }
        ensures past { ArePast epoch.new slots.new }
        ensures same_length { length slots.new ≡ length slots.old }
    {
        begin_epoch(slots, epoch);
        let mut steps = 0;
        let mut pause = 1;
        while steps < most {
            let made = self.make_fast(slots, *epoch, most - steps - 1);
            steps += made;
            pause = pause_after(pause, made);
            let is_left = self.leaves_ram(slots, *epoch, pause);
            let count = count_alone(is_left, pause, most - steps);
            let part = self.step_alone(slots, is_left, count)?;
            steps += part.steps;
            if part.stop.is_some() {
                let stop = part.stop;
                return Ok(Part { steps, stop });
            }
            if !is_left {
                begin_epoch(slots, epoch);
            }
        }
        Ok(Part { steps, stop: None })
    }

    /// Whether the coming step leaves RAM as it is, which pages are here, and what may be fetched. Before a long pause that
    /// is not looked at.
    #[inline(always)]
    fn leaves_ram(&self, slots: &[Slot], epoch: u32, pause: u64) -> bool
        requires some { 0 < length slots.now }
        requires keeps { Keeps (hart_in self.now) epoch slots.now }
        ensures { IsTrue result → ComesAside (hart_in self.now) }
    {
        if pause >= LONG_PAUSE {
            return false;
        }
        self.hart.leaves_ram(slots, epoch)
    }

    /// Makes the fast steps that come, at most `most`, of a machine that lives, and answers how many. It lives on.
    #[inline(always)]
    fn make_fast(&mut self, slots: &mut [Slot], epoch: u32, most: u64) -> u64
        requires live { self.old.machine.ending ≡ None }
        requires some { 0 < length slots.old }
        requires keeps { Keeps (hart_in self.old) epoch slots.old }
        ensures run { IsRun self.old self.new result }
        ensures most { result ≤ most }
        ensures live { self.new.machine.ending ≡ None }
        ensures keeps { Keeps (hart_in self.new) epoch slots.new }
        ensures same_length { length slots.new ≡ length slots.old }
    {
        let most = most.min(self.limit - self.steps - 1);
        let made = self.hart.make_fast(slots, epoch, most);
        self.steps += made;
        made
    }

    /// Makes one step of a machine that lives, or answers what keeps it from that: a page, a call or a talk. It tells where the step
    /// ended the machine. A step that cannot be the last one does not look at the limit.
    #[inline(always)]
    #[tactic(auto, unfolding(forest_model::specs::Machine::advance))]
    fn step_live(
        &mut self,
        slots: &mut [Slot],
        may_be_last: bool,
    ) -> Result<Option<Stop>, AllocError>
        requires live { self.old.machine.ending ≡ None }
        requires below { may_be_last ≡ false → self.old.machine.steps + 1 < self.old.machine.limit }
        requires some { 0 < length slots.old }
        ensures goes { IfOk result (λ stop. GoesOn self.old self.new stop) }
        ensures learns { Learns slots.old slots.new }
        ensures err { OnErr result (self.new ≡ self.old) }
        ensures here { OnErr result (stalled_at (paged self.old) ≡ None) }
        ensures memory { OnErr result (Grows self.old.machine.state) }
    {
        match self.hart.act(slots)? {
            Acted::Stalled(page) => Ok(Some(Stop::Page(page))),
            Acted::Trapped { cause, value } => {
                self.hart.trap(cause, value);
                Ok(count_step(&mut self.steps, self.limit, &mut self.ending, may_be_last))
            }
            Acted::Interrupted => {
                self.hart.trap(TIMER_INTERRUPT, 0);
                Ok(count_step(&mut self.steps, self.limit, &mut self.ending, may_be_last))
            }
            Acted::Retired(written) => {
                count_retired(&mut self.hart, written);
                Ok(count_step(&mut self.steps, self.limit, &mut self.ending, may_be_last))
            }
            Acted::Exited {
                value,
                address,
                count,
            } => {
                let steps = &mut self.steps;
                end(
                    &mut self.hart,
                    value,
                    address,
                    count,
                    steps,
                    &mut self.ending,
                );
                Ok(Some(Stop::End))
            }
            Acted::Asked(request) => Ok(Some(stop_at(request))),
        }
    }

    /// Where the machine stands after a step, with no look at the next one.
    #[inline]
    fn standing(&self) -> Stepped
        ensures { IsAfterStep self.now result }
    {
        match self.ending {
            None => Stepped::Went,
            Some(ending) => Stepped::Ended(ending),
        }
    }

    /// Where the machine stands, with a look at the next step.
    fn standing_now(&self) -> Stepped
        ensures stands { Stands self.now result }
        ensures within { IsWithinLimit self.now.machine }
        ensures counted { self.now.machine.steps ≤ self.now.machine.limit }
    {
        if let Some(ending) = self.ending {
            return Stepped::Ended(ending);
        }
        if let Some(page) = self.hart.wanted() {
            return Stepped::Stall(page);
        }
        match self.hart.request() {
            Some(request) => self.stopped_by(stop_at(request)),
            None => Stepped::Went,
        }
    }
}

/// What stops a run where the machine asks for this.
#[inline(always)]
fn stop_at(request: Request) -> Stop
    ensures { result ≡ stop_at request }
{
    match request {
        Request::Call(call) => Stop::Call(call),
        Request::Talk(talk) => Stop::Talk(talk),
    }
}

/// How many steps are to be made by themselves after a try at fast ones that made so many. Where one step traps, the next
/// often traps too, so after tries that were not worth their while, one upon the other, it is more and more.
#[inline(always)]
fn pause_after(pause: u64, made: u64) -> u64
    ensures { 1 ≤ result }
{
    if made > 1 {
        return 1;
    }
    if pause < LONGEST_PAUSE {
        2 * pause + 1
    } else {
        pause
    }
}

/// How many of the steps that are left are made by themselves: one where it leaves RAM as it is, and else those of the
/// pause.
#[inline(always)]
fn count_alone(is_left: bool, pause: u64, left: u64) -> u64
    requires pause { 1 ≤ pause }
    requires left { 1 ≤ left }
    ensures some { 1 ≤ result }
    ensures within { result ≤ left }
    ensures one { IsTrue is_left → result ≡ 1 }
{
    if is_left { 1 } else { pause.min(left) }
}

/// Counts a step that retired an instruction and wrote this of the counters: mostly nothing, which is known there, so that
/// each counter is one addition.
#[inline(always)]
fn count_retired(hart: &mut Hart, written: Written)
    ensures { hart.new ≡ record hart.old { state = count true written hart.old.state } }
{
    match written {
        Written::Nothing => hart.count(true, Written::Nothing),
        Written::Counter(_) | Written::Time => hart.count(true, written),
    }
}

/// Counts the step that ends a machine by EXIT, with this value and so many bytes from an address on. It is apart, since the
/// bytes have a room that no other step is to make.
#[cold]
#[inline(never)]
fn end(
    hart: &mut Hart,
    value: u32,
    address: u32,
    number: u32,
    steps: &mut u64,
    ending: &mut Option<Ending>,
)
    requires readable { IsReadable hart.old address number }
    requires steps { steps.old ≤ MAX_LIMIT }
    ensures hart { hart.new ≡ record hart.old { state = count true Written.Nothing hart.old.state } }
    ensures steps { steps.new ≡ steps.old + 1 }
    ensures ending { ending.new ≡ Some (Ending.Exit value (handed_of (bytes_at address number hart.old.state))) }
{
    *ending = Some(Ending::Exit(value, hart.handed(address, number)));
    hart.count(true, Written::Nothing);
    *steps += 1;
}

/// Counts a step of a machine that lives, which ends it where it reaches the limit.
#[inline(always)]
fn count_step(
    steps: &mut u64,
    limit: u64,
    ending: &mut Option<Ending>,
    may_be_last: bool,
) -> Option<Stop>
    requires within { steps.old < limit }
    requires below { may_be_last ≡ false → steps.old + 1 < limit }
    ensures counted { steps.new ≡ steps.old + 1 }
    ensures ends { ending.new ≡ (if steps.old + 1 == limit then Some Ending.Limit else ending.old) }
    ensures stop { result ≡ (if steps.old + 1 == limit then Some Stop.End else None) }
{
    *steps += 1;
    if may_be_last && *steps == limit {
        *ending = Some(Ending::Limit);
        return Some(Stop::End);
    }
    None
}
