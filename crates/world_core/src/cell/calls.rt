//! The calls of a machine, and its end.

ghost use Rattle.std.specs.Prelude.{◌≡◌, ℕ, ◌+◌, ◌≤◌, ◌<◌, ◌^◌, ◌++◌, Some, OnOk, OnErr, IfSome, map, true, false, vec_capacity, vec_len};
ghost use Rattle.std.specs.BTreeMap.{IsOrdered, btree_map_len, get};
ghost use Rattle.std.specs.Ordering.{nat_cmp};
ghost use Rattle.image_depot.specs.Key.{Shelves};
ghost use Rattle.forest_tree.specs.Operations.{clone, join, kill};
ghost use Rattle.forest_tree.specs.Tree.{Path, Tree, brood_of, broods_of, machine};
ghost use Rattle.forest_tree.specs.Step.{endings, have_ended};
ghost use Rattle.forest_tree.specs.Sound.{IsSound};
ghost use Rattle.forest_model.specs.Calls.{after_join, after_kill, forked};
ghost use Rattle.run_report.specs.Lines.{lines};
ghost use Rattle.run_report.specs.Report.{lines_of};
ghost use Rattle.vm_cell.specs.Keyed.{paged};
ghost use Rattle.vm_cell.specs.Standing.{standing_call};
ghost use Rattle.vm_cell.specs.declared.vm.fork.ForkImage.{ForkImage};
ghost use Rattle.world_core.specs.Broods.{killed_line};
ghost use Rattle.world_core.specs.Images.{HasImages, Images, IsBroodAt};
ghost use Rattle.world_core.specs.PreparedFork.{IsNewBrood};
ghost use Rattle.world_core.specs.Shows.{Holds, HoldsAfter, Member, StandsAt, Tallies, ended_tree};
ghost use Rattle.world_core.specs.Shows.{forest, forked_tree, joined_tree, killed_tree, paged_of, told_member};

use crate::cell::broods::{line_count, put_lines};
use crate::cell::{Brood, Cell};
use forest_model::Ending;
use fork_port::Call;
use machine_names::Name;
use run_report::{Line, Outcome};
use std::alloc::{AllocError, Global};
use std::collections::BTreeMap;
use vm_cell::Vm;

impl Cell {
    /// Makes the CLONE that the machine stands at, with the brood of its ticket.
    pub(crate) fn fork(&mut self, vm: &mut Vm, ticket: u32, brood: Brood) -> Result<(), AllocError>
        requires clones { standing_call vm.old ≡ Some (Call.Clone ticket) }
        ensures ok { OnOk result (vm.new ≡ record vm.old { machine = forked vm.old.machine }) }
        ensures err { OnErr result (vm.new ≡ vm.old) }
        ensures holds { OnOk result ((depot : Shelves) (path : Path) (left : ForkImage) → IsNewBrood depot path vm.old ticket brood left
            → (t : Tree Member) → Holds depot path self.old t → StandsAt (paged vm.old) (clone ticket) t
            → HoldsAfter depot path self.new (forked_tree ticket t)) }
        ensures still { OnErr result ((depot : Shelves) (path : Path) (t : Tree Member) → Holds depot path self.old t → Holds depot path self.new t) }
        ensures images { (images : Images) (path : Path) → HasImages images path self.old → IsBroodAt images path ticket brood
            → HasImages images path self.new }
        ensures place { (self.new.state ≡ self.old.state) × (self.new.is_listed ≡ self.old.is_listed) × (self.new.kin ≡ self.old.kin) }
    {
        make_room(&mut self.log, self.broods.len() + 1)?;
        self.broods.insert(ticket, brood)?;
        vm.cloned();
        Ok(())
    }

    /// Makes the JOIN that the machine stands at, whose children have all ended.
    pub(crate) fn join(&mut self, alloc: Global, vm: &mut Vm, ticket: u32) -> Result<(), AllocError>
        requires joins { standing_call vm.old ≡ Some (Call.Join ticket) }
        requires ended { (depot : Shelves) × (path : Path) × (t : Tree Member) × Holds depot path self.old t × StandsAt (paged vm.old) (join ticket) t
            × (have_ended forest (brood_of ticket (broods_of t)) ≡ true) }
        ensures ok { (t : Tree Member) (depot : Shelves) (path : Path) → Holds depot path self.old t → StandsAt (paged vm.old) (join ticket) t
            → have_ended forest (brood_of ticket (broods_of t)) ≡ true
            → OnOk result ((vm.new ≡ record vm.old { machine = after_join vm.old.machine (endings forest (brood_of ticket (broods_of t))) })
            × HoldsAfter depot path self.new (joined_tree ticket t)) }
        ensures err { OnErr result (vm.new ≡ vm.old) }
        ensures key { vm.new.key ≡ vm.old.key }
        ensures still { (t : Tree Member) (depot : Shelves) (path : Path) → Holds depot path self.old t → OnErr result (Holds depot path self.new t) }
        ensures images { (images : Images) (path : Path) → HasImages images path self.old → HasImages images path self.new }
        ensures place { (self.new.state ≡ self.old.state) × (self.new.is_listed ≡ self.old.is_listed) × (self.new.kin ≡ self.old.kin) }
    {
        let Some(brood) = self.broods.get(&ticket) else {
            unreachable!();
        };
        let endings = brood.endings(alloc)?;
        let lines = line_count(&brood.slots).saturating_add(self.broods.len());
        self.log.reserve(lines)?;
        vm.joined(&endings)?;
        let Some(brood) = self.broods.remove(&ticket) else {
            unreachable!();
        };
        put_lines(brood.slots, &mut self.log);
        Ok(())
    }

    /// Makes the KILL that the machine stands at.
    pub(crate) fn kill(&mut self, vm: &mut Vm, ticket: u32)
        requires kills { standing_call vm.old ≡ Some (Call.Kill ticket) }
        requires holds { (depot : Shelves) × (path : Path) × (t : Tree Member) × Holds depot path self.old t × StandsAt (paged vm.old) (kill ticket) t }
        ensures vm { vm.new ≡ record vm.old { machine = after_kill vm.old.machine } }
        ensures after { (t : Tree Member) (depot : Shelves) (path : Path) → Holds depot path self.old t → StandsAt (paged vm.old) (kill ticket) t
            → HoldsAfter depot path self.new (killed_tree ticket t) }
        ensures images { (images : Images) (path : Path) → HasImages images path self.old → HasImages images path self.new }
        ensures place { (self.new.state ≡ self.old.state) × (self.new.is_listed ≡ self.old.is_listed) × (self.new.kin ≡ self.old.kin) }
    {
        vm.killed();
        let Some(brood) = self.broods.remove(&ticket) else {
            unreachable!();
        };
        self.log.push_reserved(brood.into_line(ticket));
    }

    /// What a machine that has ended leaves. The tickets that it had cloned are killed.
    pub(crate) fn into_outcome(self, name: Name, vm: Vm, ending: Ending) -> Outcome
        requires { (t : Tree Member) × Tallies name self t × IsSound forest t }
        ensures ending { result.ending ≡ Some ending }
        ensures lines { (t : Tree Member) → Tallies name self t → IsSound forest t → paged_of (machine t) ≡ paged vm → vm.machine.ending ≡ Some ending
            → lines_of result ≡ lines told_member name (ended_tree t) }
    {
        let Cell {
            kin: _,
            state: _,
            is_listed: _,
            broods,
            mut log,
            room,
        } = self;
        log_killed(broods, &mut log);
        let steps = vm.steps();
        Outcome::new(room, name, Some(ending), steps, vm.into_output(), log)
    }
}

/// Makes room for so many lines. A log that has room for none gets just that, since most machines that fork have one ticket.
fn make_room(log: &mut Vec<Line>, lines: usize) -> Result<(), AllocError>
    ensures items { log.new.items ≡ log.old.items }
    ensures len { vec_len log.new ≡ vec_len log.old }
    ensures room { OnOk result (vec_len log.new + lines ≤ vec_capacity log.new) }
    ensures kept { vec_capacity log.old ≤ vec_capacity log.new }
{
    if log.capacity() == 0 {
        log.reserve_exact(lines)
    } else {
        log.reserve(lines)
    }
}

/// Moves the lines of tickets, where they are killed, to a log, which has room for them.
fn log_killed(broods: BTreeMap<u32, Brood>, log: &mut Vec<Line>)
    requires room { vec_len log.old + btree_map_len broods ≤ vec_capacity log.old }
    requires small { (number : ℕ) → IfSome (get nat_cmp broods number) (λ brood. vec_len brood.slots < 2 ^ 32) }
    ensures lines { log.new.items ≡ log.old.items ++ map killed_line broods.entries }
    ensures ordered { IsOrdered nat_cmp broods }
{
    // Most machines have none, and an iterator takes long to make.
    if broods.is_empty() {
        return;
    }
    'broods: for (ticket, brood) in broods {
        log.push_reserved(brood.into_line(ticket));
    }
}
