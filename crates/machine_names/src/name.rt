//! Names of machines, which are keys of maps too.

ghost use Rattle.std.specs.Prelude.{◌≡◌, ◌<◌, ◌≤◌, ◌+◌, ◌*◌, ◌^◌, [], drop, length, take, IfOk, IsTrue, MatchOption, OnErr, string_bytes};
ghost use Rattle.std.specs.Arc.{arc_value};
ghost use Rattle.std.specs.Fmt.{WritesOnOk};
ghost use Rattle.std.specs.List.{flat_map};
ghost use Rattle.forest_tree.specs.Tree.{Path, beyond, is_below};
ghost use Rattle.io_edge.specs.Outside.{HasRisen};
ghost use Rattle.io_edge.specs.Streamed.{Streams};
ghost use Rattle.machine_names.specs.Forks.{BeginsWith};
ghost use Rattle.machine_names.specs.Name.{begins_with, branch_text, child_path, name_text, next_of};
ghost use Rattle.machine_names.specs.NameOrder.{back_cmp};

use crate::forks::Forks;
use io_edge::{Sink, SinkBuffer, WriteFault};
use itoa::write_digits;
use shared_leaves::Handle;
use std::alloc::{AllocError, Global};
use std::cmp::Ordering;
use std::fmt;
use std::marker::Model;
use std::sync::Arc;

/// The bytes of the longest fork in text: two points, and two numbers of ten digits.
const BRANCH_LENGTH: usize = 22;

/// As many forks as a processor compares at once.
const AT_ONCE: usize = 4;

/// A fork on the way to a machine: the ticket, and which child of the ticket it is.
#[derive(Copy)]
pub struct Branch {
    // In this order both are one number to a processor, by which forks are in order.
    child: u32,
    ticket: u32,
}

impl Model for Branch {
    ghost use Rattle.forest_tree.specs.Tree as tree;

    ghost Value = { tree.Branch };

    ghost view = { λ b. record { ticket = b.ticket; child = b.child } };

    ghost inverse = { λ v. record { ticket = v.ticket; child = v.child } };
}

impl Default for Branch {
    fn default() -> Branch {
        Branch::new(0, 0)
    }
}

impl Clone for Branch {
    ghost use Rattle.std.specs.Prelude.{◌≡◌};

    ghost is_clone = { λ branch copy. copy ≡ branch };

    fn clone(&self) -> Result<Branch, AllocError> {
        Ok(*self)
    }
}

impl Handle for Branch {
    ghost use Rattle.std.proofs.Common.{lit<};

    ghost clone_is_equal = { λ branch copy same. same };

    ghost is_small = { (lit< tt, lit< tt) };
}

impl Branch {
    pub fn new(ticket: u32, child: u32) -> Branch
        ensures { result ≡ record { ticket = ticket; child = child } }
    {
        Branch { ticket, child }
    }

    /// Both numbers in one, by which forks are in order.
    #[inline(always)]
    fn key(&self) -> u64
        ensures both { result ≡ self.now.ticket * 2 ^ 32 + self.now.child }
        ensures fits { self.now.child < 2 ^ 32 }
    {
        (self.ticket as u64) << 32 | self.child as u64
    }

    /// Puts out the fork in text.
    fn put<K: Sink>(&self, buffer: &mut SinkBuffer, sink: &mut K) -> Result<(), WriteFault>
        ensures counts { K.faults sink.old ≤ K.faults sink.new }
        ensures fault { OnErr result (HasRisen (K.faults sink.old) (K.faults sink.new)) }
        ensures streams { Streams (K.gone sink.old) (K.gone sink.new) buffer.old (branch_text self.now) buffer.new result }
    {
        if self.ticket < 10 && self.child < 10 {
            return buffer.put(sink, &self.short_text());
        }
        let mut text = [0; BRANCH_LENGTH];
        let begin = self.write(&mut text);
        let (_, text) = text.split_at(begin);
        buffer.put(sink, text)
    }

    /// The fork in text, where both of its numbers have one digit.
    #[inline]
    #[tactic(auto, using(std::proofs::lemmas::Fmt::decimal_digit))]
    fn short_text(&self) -> [u8; 4]
        requires ticket { self.now.ticket < 10 }
        requires child { self.now.child < 10 }
        ensures { result ≡ branch_text self.now }
    {
        [
            b'.',
            b'0' + self.ticket as u8,
            b'.',
            b'0' + self.child as u8,
        ]
    }

    /// Writes the fork in text to the end of the bytes, and tells where it begins.
    #[inline]
    fn write(&self, bytes: &mut [u8; BRANCH_LENGTH]) -> usize
        ensures within { result ≤ BRANCH_LENGTH }
        ensures text { drop result bytes.new ≡ branch_text self.now }
    {
        let child = write_digits(self.child as u64, bytes, BRANCH_LENGTH) - 1;
        bytes[child] = b'.';
        let ticket = write_digits(self.ticket as u64, bytes, child) - 1;
        bytes[ticket] = b'.';
        ticket
    }
}

impl PartialEq for Branch {
    ghost use Rattle.std.specs.Ordering.{eq_by_cmp};
    ghost use Rattle.std.specs.Cmp.{partial_equiv_from_equiv};
    ghost use Rattle.machine_names.specs.NameOrder.{branch_cmp, branch_eq_laws};

    ghost eq = { eq_by_cmp branch_cmp };

    ghost laws = { partial_equiv_from_equiv branch_eq_laws };

    fn eq(&self, other: &Branch) -> bool {
        self.cmp(other).is_eq()
    }
}

impl Eq for Branch {
    ghost use Rattle.machine_names.specs.NameOrder.{branch_eq_laws};

    ghost laws = { branch_eq_laws };
}

impl PartialOrd for Branch {
    ghost use Rattle.std.specs.Ordering.{as_partial_cmp};
    ghost use Rattle.std.specs.Cmp.{partial_order_from_total};
    ghost use Rattle.machine_names.specs.NameOrder.{branch_cmp, branch_cmp_total};

    ghost partial_cmp = { as_partial_cmp branch_cmp };

    ghost laws = { partial_order_from_total branch_cmp_total };

    fn partial_cmp(&self, other: &Branch) -> Option<Ordering> {
        Some(self.cmp(other))
    }
}

impl Ord for Branch {
    ghost use Rattle.std.specs.Prelude.{refl};
    ghost use Rattle.machine_names.specs.NameOrder.{branch_cmp, branch_cmp_total};

    ghost cmp = { branch_cmp };

    ghost total = { branch_cmp_total };

    ghost matches_partial_cmp = { λ a b. refl };

    ghost matches_eq = { λ a b. refl };

    #[inline]
    fn cmp(&self, other: &Branch) -> Ordering {
        self.key().cmp(&other.key())
    }
}

/// The name of a machine: for each fork on the way to it from the root, the ticket and which child of
/// the ticket it is. The root's name has none. A copy of a name, and the name of a parent, share a row of forks
/// with it, and so do the names of siblings. Names are in the order of their numbers of
/// forks, and by the last forks where these are as many.
#[derive(Drop)]
pub struct Name {
    /// The forks on the way to the parent, and maybe others behind them.
    above: Arc<Forks>,
    /// How many forks there are, with the last.
    depth: usize,
    /// The last fork, if there is one. It decides most comparisons, which look at no row then.
    last: Branch,
}

impl Model for Name {
    ghost use Rattle.std.specs.Prelude.{◌-◌, ◌≤◌, length};
    ghost use Rattle.std.specs.Arc.{arc_value};
    ghost use Rattle.forest_tree.specs.Tree.{Path};
    ghost use Rattle.machine_names.specs.Forks.{named};

    ghost Value = { Path };

    ghost view = { λ n. named n.depth n.last (arc_value n.above) };

    ghost invariant = { λ n. n.depth - 1 ≤ length (arc_value n.above) };
}

impl Name {
    /// The name of the machine that was booted.
    pub fn root(alloc: Global) -> Result<Name, AllocError>
        ensures { IfOk result (λ name. name ≡ []) }
    {
        Name::of_forks(alloc, Forks::few(Vec::new(alloc)))
    }

    /// The name that has these forks, from the root on.
    pub fn from_branches(alloc: Global, branches: Vec<Branch>) -> Result<Name, AllocError>
        ensures { IfOk result (λ name. name ≡ branches.items) }
    {
        Name::of_forks(alloc, Forks::few(branches))
    }

    /// The name that has all forks of a row.
    fn of_forks(alloc: Global, forks: Forks) -> Result<Name, AllocError>
        ensures { IfOk result (λ name. name ≡ forks) }
    {
        let depth = forks.len();
        let last = forks.last_of(depth);
        Ok(Name {
            above: Arc::new(alloc, forks)?,
            depth,
            last,
        })
    }

    /// The name of a child of this machine. Where this name's row has its last fork too it costs one handle, else a row
    /// as `whole` makes it.
    pub fn child(&self, alloc: Global, ticket: u32, index: u32) -> Result<Name, AllocError>
        ensures { IfOk result (λ name. name ≡ child_path self.now ticket index) }
    {
        let Some(depth) = self.depth.checked_add(1) else {
            return Err(AllocError);
        };
        Ok(Name {
            above: self.row(alloc)?,
            depth,
            last: Branch::new(ticket, index),
        })
    }

    /// The same name, whose row has its last fork too: the names of its children share it. Where its forks are many it
    /// costs a handle for each 64 of them, and copies of the forks behind these, which are less than 64; else a copy of
    /// its forks, and where the row has them all one handle.
    pub fn whole(&self, alloc: Global) -> Result<Name, AllocError>
        ensures { IfOk result (λ name. name ≡ self.now) }
    {
        Ok(Name {
            above: self.row(alloc)?,
            depth: self.depth,
            last: self.last,
        })
    }

    /// A row that begins with the forks of this name.
    fn row(&self, alloc: Global) -> Result<Arc<Forks>, AllocError>
        ensures { IfOk result (λ row. BeginsWith self.now (arc_value row)) }
    {
        if self.depth == 0 {
            return Arc::try_clone(&self.above);
        }
        if self.above.has_at(self.depth - 1, self.last) {
            return Arc::try_clone(&self.above);
        }
        let all = self.above.followed_by(alloc, self.depth - 1, self.last)?;
        Ok(Arc::new(alloc, all)?)
    }

    /// The same name once more. It costs one handle.
    pub fn copy(&self) -> Result<Name, AllocError>
        ensures { IfOk result (λ name. name ≡ self.now) }
    {
        Ok(Name {
            above: Arc::try_clone(&self.above)?,
            depth: self.depth,
            last: self.last,
        })
    }

    /// How many forks it has.
    pub fn depth(&self) -> usize
        ensures { result ≡ length self.now }
    {
        self.depth
    }

    /// The name in text: `0` for the root, and for each fork `.`, the ticket, `.` and the child's number.
    pub fn text(&self, alloc: Global) -> Result<String, AllocError>
        ensures { IfOk result (λ text. string_bytes text ≡ name_text self.now) }
    {
        self.to_string(alloc)
    }

    /// Puts out the same text, fork by fork. It takes no memory.
    pub fn put<K: Sink>(&self, buffer: &mut SinkBuffer, sink: &mut K) -> Result<(), WriteFault>
        ensures counts { K.faults sink.old ≤ K.faults sink.new }
        ensures fault { OnErr result (HasRisen (K.faults sink.old) (K.faults sink.new)) }
        ensures streams { Streams (K.gone sink.old) (K.gone sink.new) buffer.old (name_text self.now) buffer.new result }
    {
        buffer.put(sink, b"0")?;
        self.put_forks(buffer, sink)
    }

    /// Puts out the forks in text, one after another.
    fn put_forks<K: Sink>(&self, buffer: &mut SinkBuffer, sink: &mut K) -> Result<(), WriteFault>
        ensures counts { K.faults sink.old ≤ K.faults sink.new }
        ensures fault { OnErr result (HasRisen (K.faults sink.old) (K.faults sink.new)) }
        ensures streams { Streams (K.gone sink.old) (K.gone sink.new) buffer.old (flat_map branch_text self.now) buffer.new result }
    {
        if self.depth == 0 {
            return Ok(());
        }
        put_first(&self.above, self.depth - 1, buffer, sink)?;
        self.last.put(buffer, sink)
    }

    /// Takes the last fork off, its ticket and its child's number, so that the parent's name is left. The
    /// root's name has none, and stays. It takes no memory.
    pub fn pop(&mut self) -> Option<(u32, u32)>
        ensures { MatchOption result ((self.old ≡ []) × (self.new ≡ [])) (λ last. self.old ≡ child_path self.new last.0 last.1) }
    {
        if self.depth == 0 {
            return None;
        }
        let last = self.last;
        self.depth -= 1;
        self.last = self.above.last_of(self.depth);
        Some((last.ticket, last.child))
    }

    /// The last fork, its ticket and its child's number, or `None` in the root's name. It takes no memory.
    pub fn last(&self) -> Option<(u32, u32)>
        ensures { MatchOption result (self.now ≡ []) (λ last. (parent : Path) × (self.now ≡ child_path parent last.0 last.1)) }
    {
        if self.depth == 0 {
            return None;
        }
        let last = self.last;
        Some((last.ticket, last.child))
    }

    /// Whether this name goes on from another by a child of a ticket.
    pub fn is_below(&self, name: &Name, ticket: u32) -> bool
        ensures { result ≡ begins_with ticket (beyond name.now self.now) }
    {
        match self.next_beyond(name) {
            Some(next) => next.ticket == ticket,
            None => false,
        }
    }

    /// Whether this name goes on from another, and is longer.
    pub fn is_below_all(&self, name: &Name) -> bool
        ensures { result ≡ is_below name.now self.now }
    {
        self.next_beyond(name).is_some()
    }

    /// The first fork by which this name goes on from another, if it does.
    fn next_beyond(&self, name: &Name) -> Option<Branch>
        ensures { result ≡ next_of (beyond name.now self.now) }
    {
        if self.depth <= name.depth {
            return None;
        }
        if name.cmp_begin(&self.above).is_ne() {
            return None;
        }
        if self.depth - 1 == name.depth {
            return Some(self.last);
        }
        Some(*self.above.get(name.depth))
    }

    /// How the first forks of a row, as many as this name has, compare with it, from the last of them back.
    fn cmp_begin(&self, forks: &Forks) -> Ordering
        requires { length self.now ≤ length forks.now }
        ensures { result ≡ back_cmp (take (length self.now) forks.now) self.now }
    {
        if self.depth == 0 {
            return Ordering::Equal;
        }
        let before = self.depth - 1;
        let order = forks.get(before).cmp(&self.last);
        if order.is_ne() {
            return order;
        }
        cmp_back(forks, &self.above, before)
    }

    /// How it compares with a name of as many forks, from the last of them back.
    #[inline]
    fn cmp_as_deep(&self, other: &Name) -> Ordering
        requires { length self.now ≡ length other.now }
        ensures { result ≡ back_cmp self.now other.now }
    {
        if self.depth == 0 {
            return Ordering::Equal;
        }
        // Siblings differ in the last.
        let order = self.last.cmp(&other.last);
        if order.is_ne() {
            return order;
        }
        cmp_back(&self.above, &other.above, self.depth - 1)
    }
}

/// Puts out the first forks of a list in text, one after another.
fn put_first<K: Sink>(
    branches: &Forks,
    count: usize,
    buffer: &mut SinkBuffer,
    sink: &mut K,
) -> Result<(), WriteFault>
    requires { count ≤ length branches.now }
    ensures counts { K.faults sink.old ≤ K.faults sink.new }
    ensures fault { OnErr result (HasRisen (K.faults sink.old) (K.faults sink.new)) }
    ensures streams { Streams (K.gone sink.old) (K.gone sink.new) buffer.old (flat_map branch_text (take count branches.now)) buffer.new result }
{
    'branches: for at in 0..count {
        branches.get(at).put(buffer, sink)?;
    }
    Ok(())
}

/// How the first forks of two lists compare, as many as `count` tells, from the last of them back.
#[inline(never)]
fn cmp_back(left: &Forks, right: &Forks, count: usize) -> Ordering
    requires left { count ≤ length left.now }
    requires right { count ≤ length right.now }
    ensures { result ≡ back_cmp (take count left.now) (take count right.now) }
{
    let mut rest = count;
    'runs: while rest > 0 {
        let ours = left.run_before(rest);
        let theirs = right.run_before(rest);
        let len = ours.len().min(theirs.len());
        let (_, ours) = ours.split_at(ours.len() - len);
        let (_, theirs) = theirs.split_at(theirs.len() - len);
        let order = cmp_run_back(ours, theirs);
        if order.is_ne() {
            return order;
        }
        rest -= len;
    }
    Ordering::Equal
}

/// How two runs of as many forks compare, from the last of them back.
fn cmp_run_back(left: &[Branch], right: &[Branch]) -> Ordering
    requires { length left.now ≡ length right.now }
    ensures { result ≡ back_cmp left.now right.now }
{
    // Names are mostly compared with equal ones.
    if are_same(left, right) {
        return Ordering::Equal;
    }
    let mut rest = left.len();
    'branches: while rest > 0 {
        rest -= 1;
        let order = left[rest].cmp(&right[rest]);
        if order.is_ne() {
            return order;
        }
    }
    Ordering::Equal
}

/// Whether two runs of as many forks are known to be the same. It looks at all of them, so that several are compared at
/// once. Of fewer than that it answers no at once: one by one they are compared as fast.
#[inline]
fn are_same(left: &[Branch], right: &[Branch]) -> bool
    requires { length left.now ≡ length right.now }
    ensures { IsTrue result → left.now ≡ right.now }
{
    if left.len() < AT_ONCE {
        return false;
    }
    let mut difference = 0;
    'branches: for at in 0..left.len() {
        let (ours, theirs) = (left[at], right[at]);
        difference |= (ours.ticket ^ theirs.ticket) | (ours.child ^ theirs.child);
    }
    difference == 0
}

impl PartialEq for Name {
    ghost use Rattle.std.specs.Ordering.{eq_by_cmp};
    ghost use Rattle.std.specs.Cmp.{partial_equiv_from_equiv};
    ghost use Rattle.machine_names.specs.NameOrder.{path_cmp, path_eq_laws};

    ghost eq = { eq_by_cmp path_cmp };

    ghost laws = { partial_equiv_from_equiv path_eq_laws };

    fn eq(&self, other: &Name) -> bool {
        self.cmp(other).is_eq()
    }
}

impl Eq for Name {
    ghost use Rattle.machine_names.specs.NameOrder.{path_eq_laws};

    ghost laws = { path_eq_laws };
}

impl PartialOrd for Name {
    ghost use Rattle.std.specs.Ordering.{as_partial_cmp};
    ghost use Rattle.std.specs.Cmp.{partial_order_from_total};
    ghost use Rattle.machine_names.specs.NameOrder.{path_cmp, path_cmp_total};

    ghost partial_cmp = { as_partial_cmp path_cmp };

    ghost laws = { partial_order_from_total path_cmp_total };

    fn partial_cmp(&self, other: &Name) -> Option<Ordering> {
        Some(self.cmp(other))
    }
}

impl Ord for Name {
    ghost use Rattle.std.specs.Prelude.{refl};
    ghost use Rattle.machine_names.specs.NameOrder.{path_cmp, path_cmp_total};

    ghost cmp = { path_cmp };

    ghost total = { path_cmp_total };

    ghost matches_partial_cmp = { λ a b. refl };

    ghost matches_eq = { λ a b. refl };

    #[tactic(auto, unfolding(crate::specs::NameOrder::path_cmp))]
    fn cmp(&self, other: &Name) -> Ordering {
        let order = self.depth().cmp(&other.depth());
        if order.is_ne() {
            return order;
        }
        self.cmp_as_deep(other)
    }
}

impl fmt::Display for Name {
    ghost use Rattle.std.specs.Prelude.{Some};
    ghost use Rattle.machine_names.specs.Name.{name_text};

    ghost output = { λ name. Some (name_text name) };

    fn fmt<W: fmt::Write>(&self, f: &mut fmt::Formatter<W>) -> fmt::Result {
        write!(f, "0")?;
        write_forks(f, self)
    }
}

/// Writes the forks of a name in text, one after another.
fn write_forks<W: fmt::Write>(f: &mut fmt::Formatter<W>, name: &Name) -> fmt::Result
    ensures { WritesOnOk W.write_str_gives f.old result (flat_map branch_text name.now) f.new }
{
    if name.depth == 0 {
        return Ok(());
    }
    write_first(f, &name.above, name.depth - 1)?;
    write_branch(f, name.last)
}

/// Writes the first forks of a list in text, one after another.
fn write_first<W: fmt::Write>(
    f: &mut fmt::Formatter<W>,
    branches: &Forks,
    count: usize,
) -> fmt::Result
    requires { count ≤ length branches.now }
    ensures { WritesOnOk W.write_str_gives f.old result (flat_map branch_text (take count branches.now)) f.new }
{
    'branches: for at in 0..count {
        write_branch(f, *branches.get(at))?;
    }
    Ok(())
}

/// Writes a fork in text.
fn write_branch<W: fmt::Write>(f: &mut fmt::Formatter<W>, branch: Branch) -> fmt::Result
    ensures { WritesOnOk W.write_str_gives f.old result (branch_text branch) f.new }
{
    let Branch { ticket, child } = branch;
    write!(f, ".{ticket}.{child}")
}
