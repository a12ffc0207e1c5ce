//! The levels of a guest. Machines of levels 0 and 1 fork twice, and their children go on at the next level.
//! Registers 9 and 15 have the numbers of the two tickets, and the others are as in blocks.

ghost use Rattle.std.specs.Prelude.{◌≡◌, ◌<◌, ◌≤◌, ◌++◌, length, IfOk, OnOk};
ghost use Rattle.guest_gen.specs.Blocks.{blocks, after_blocks};
ghost use Rattle.guest_gen.specs.Levels.{numbered, fork, forked, kill, join, value, values, exit, last_part, middle_part, forking_level, after_level, last_level};

use crate::assembly::{add, addi, beq, jal, lw, sw};
use crate::blocks::push_blocks;
use rv_decode::Instr;
use seed_draws::Draws;
use std::alloc::{AllocError, Global};

/// The blocks before the first fork of a level, or of a level that does not fork.
const FIRST_BLOCKS: u32 = 200;

/// The blocks behind each fork.
const NEXT_BLOCKS: u32 = 50;

/// The children of a fork.
const CHILDREN: u32 = 4;

/// A child adds its number among its siblings to its sum.
#[tactic(auto, unfolding(crate::specs::Levels::numbered))]
pub(crate) fn numbered() -> [Instr; 2]
    ensures { result ≡ numbered }
{
    [lw(8, 16, 5), add(14, 14, 8)]
}

/// Takes a ticket for children that can make `share` clones each, keeps its number in a register, and makes
/// the children. They go on behind the rest of the level, which is so many words.
#[tactic(auto, unfolding(crate::specs::Levels::fork))]
fn fork(register: u32, share: u32, words: u32) -> [Instr; 13]
    requires register { register < 32 }
    requires share { share < 2048 }
    requires near { words < 0x1_0000 }
    ensures { result ≡ fork register share words }
{
    [
        addi(6, 0, CHILDREN),
        sw(6, 0, 5),
        addi(6, 0, share),
        sw(6, 4, 5),
        addi(6, 0, 1),
        sw(6, 8, 5),
        lw(register, 12, 5),
        sw(register, 0, 5),
        addi(6, 0, 2),
        sw(6, 8, 5),
        lw(8, 12, 5),
        beq(8, 0, 8),
        jal(0, 4 * (1 + words)),
    ]
}

/// Drops the children of the second ticket.
#[tactic(auto, unfolding(crate::specs::Levels::kill))]
fn kill() -> [Instr; 3]
    ensures { result ≡ kill }
{
    [sw(15, 0, 5), addi(6, 0, 4), sw(6, 8, 5)]
}

/// Waits for the children of the first ticket.
#[tactic(auto, unfolding(crate::specs::Levels::join))]
fn join() -> [Instr; 3]
    ensures { result ≡ join }
{
    [sw(9, 0, 5), addi(6, 0, 3), sw(6, 8, 5)]
}

/// Adds the value of a child that was waited for to the sum.
#[tactic(auto, unfolding(crate::specs::Levels::value))]
fn value(child: u32) -> [Instr; 4]
    requires { child ≤ 4 }
    ensures { result ≡ value child }
{
    [
        addi(6, 0, child),
        sw(6, 24, 5),
        lw(8, 32, 5),
        add(14, 14, 8),
    ]
}

/// Ends the machine with its sum as its value.
#[tactic(auto, unfolding(crate::specs::Levels::exit))]
fn exit() -> [Instr; 3]
    ensures { result ≡ exit }
{
    [sw(14, 0, 5), addi(6, 0, 5), sw(6, 8, 5)]
}

/// Adds the instructions that add the values of all children to the sum.
#[tactic(auto, using(std::proofs::lemmas::List::append_assoc, crate::proofs::Steps::values_more), unfolding(crate::specs::Levels::values))]
fn push_values(code: &mut Vec<Instr>) -> Result<(), AllocError>
    ensures { OnOk result (code.new.items ≡ code.old.items ++ values 4) }
{
    for before in 0..CHILDREN {
        code.extend_from_slice(&value(before + 1))?;
    }
    Ok(())
}

/// Adds a fork and the rest of its level.
#[tactic(auto, using(std::proofs::lemmas::List::append_assoc), unfolding(crate::specs::Levels::forked))]
fn push_forked(
    code: &mut Vec<Instr>,
    register: u32,
    share: u32,
    rest: &[Instr],
) -> Result<(), AllocError>
    requires register { register < 32 }
    requires share { share < 2048 }
    requires near { length rest.now < 0x1_0000 }
    ensures { OnOk result (code.new.items ≡ code.old.items ++ forked register share rest.now) }
{
    code.extend_from_slice(&fork(register, share, rest.len() as u32))?;
    code.extend_from_slice(rest)
}

/// The part of a level behind its second fork.
#[tactic(auto, unfolding(crate::specs::Levels::last_part))]
fn last_part(alloc: Global, draws: &mut Draws) -> Result<Vec<Instr>, AllocError>
    ensures part { IfOk result (λ part. part.items ≡ last_part draws.old) }
    ensures draws { OnOk result (draws.new ≡ after_blocks 50 draws.old) }
{
    let mut part = Vec::new(alloc);
    push_blocks(&mut part, draws, NEXT_BLOCKS)?;
    part.extend_from_slice(&kill())?;
    part.extend_from_slice(&join())?;
    push_values(&mut part)?;
    part.extend_from_slice(&exit())?;
    Ok(part)
}

/// The part of a level behind its first fork.
#[tactic(auto, using(std::proofs::lemmas::List::append_assoc, crate::proofs::Lengths::last_part_short), unfolding(crate::specs::Levels::middle_part))]
fn middle_part(alloc: Global, draws: &mut Draws, share: u32) -> Result<Vec<Instr>, AllocError>
    requires { share < 2048 }
    ensures part { IfOk result (λ part. part.items ≡ middle_part share draws.old) }
    ensures draws { OnOk result (draws.new ≡ after_blocks 50 (after_blocks 50 draws.old)) }
{
    let mut part = Vec::new(alloc);
    push_blocks(&mut part, draws, NEXT_BLOCKS)?;
    let rest = last_part(alloc, draws)?;
    push_forked(&mut part, 15, share, &rest)?;
    Ok(part)
}

/// Adds a level that forks.
#[tactic(auto, using(std::proofs::lemmas::List::append_assoc, crate::proofs::Lengths::middle_part_short), unfolding(crate::specs::Levels::forking_level, crate::specs::Levels::after_level))]
pub(crate) fn push_forking_level(
    code: &mut Vec<Instr>,
    draws: &mut Draws,
    share: u32,
) -> Result<(), AllocError>
    requires { share < 2048 }
    ensures code { OnOk result (code.new.items ≡ code.old.items ++ forking_level share draws.old) }
    ensures draws { OnOk result (draws.new ≡ after_level draws.old) }
{
    push_blocks(code, draws, FIRST_BLOCKS)?;
    let rest = middle_part(*code.allocator(), draws, share)?;
    push_forked(code, 9, share, &rest)
}

/// Adds a level that does not fork.
#[tactic(auto, using(std::proofs::lemmas::List::append_assoc), unfolding(crate::specs::Levels::last_level))]
pub(crate) fn push_last_level(code: &mut Vec<Instr>, draws: &mut Draws) -> Result<(), AllocError>
    ensures { OnOk result (code.new.items ≡ code.old.items ++ last_level draws.old) }
{
    push_blocks(code, draws, FIRST_BLOCKS)?;
    code.extend_from_slice(&exit())
}
