//! Blocks: a few instructions each, of one of four kinds, with numbers that are drawn. Register 5 has the
//! address of the fork port, 11 of the console, 12 of the block port, and 14 has the sum that the guest ends
//! with. Registers 6 to 8 are free for any use.

ghost use Rattle.std.specs.Prelude.{◌≡◌, ◌<◌, ◌++◌, OnOk};
ghost use Rattle.guest_gen.specs.Blocks.{memory_block, zero_block, disk_block, console_block, block_of, after_block_of, block, after_block, blocks, after_blocks};

use crate::assembly::{add, addi, lui, lw, sb, sw};
use rv_decode::Instr;
use seed_draws::Draws;
use std::alloc::AllocError;

/// Writes a word of a page behind the code, reads it and adds it to the sum.
#[tactic(auto, unfolding(crate::specs::Blocks::memory_block))]
fn memory_block(page: u32, word: u32, number: u32) -> [Instr; 5]
    requires page { page < 48 }
    requires word { word < 512 }
    requires number { number < 2048 }
    ensures { result ≡ memory_block page word number }
{
    [
        lui(6, 0x8_0010 + page),
        addi(7, 0, number),
        sw(7, 4 * word, 6),
        lw(8, 4 * word, 6),
        add(14, 14, 8),
    ]
}

/// Zeros a page behind the code.
#[tactic(auto, unfolding(crate::specs::Blocks::zero_block))]
fn zero_block(page: u32) -> [Instr; 6]
    requires { page < 48 }
    ensures { result ≡ zero_block page }
{
    [
        addi(6, 0, 16 + page),
        sw(6, 0, 5),
        addi(6, 0, 1),
        sw(6, 4, 5),
        addi(6, 0, 6),
        sw(6, 8, 5),
    ]
}

/// Reads a sector, increases its first word, writes the sector, and adds the word to the sum.
#[tactic(auto, unfolding(crate::specs::Blocks::disk_block))]
fn disk_block(sector: u32, increase: u32) -> [Instr; 10]
    requires sector { sector < 16 }
    requires increase { increase < 2048 }
    ensures { result ≡ disk_block sector increase }
{
    [
        addi(6, 0, sector),
        sw(6, 0, 12),
        addi(6, 0, 1),
        sw(6, 4, 12),
        lw(7, 512, 12),
        addi(7, 7, increase),
        sw(7, 512, 12),
        addi(6, 0, 2),
        sw(6, 4, 12),
        add(14, 14, 7),
    ]
}

/// Adds a word of a page behind the code to the sum, and puts out a letter, `A` being 0.
#[tactic(auto, unfolding(crate::specs::Blocks::console_block))]
fn console_block(page: u32, word: u32, letter: u32) -> [Instr; 5]
    requires page { page < 48 }
    requires word { word < 512 }
    requires letter { letter < 26 }
    ensures { result ≡ console_block page word letter }
{
    [
        lui(6, 0x8_0010 + page),
        lw(8, 4 * word, 6),
        add(14, 14, 8),
        addi(7, 0, 65 + letter),
        sb(7, 0, 11),
    ]
}

/// Adds a block of this kind, whose numbers are drawn.
#[tactic(auto, unfolding(crate::specs::Blocks::block_of, crate::specs::Blocks::after_block_of))]
fn push_block_of(code: &mut Vec<Instr>, draws: &mut Draws, kind: u32) -> Result<(), AllocError>
    ensures code { OnOk result (code.new.items ≡ code.old.items ++ block_of kind draws.old) }
    ensures draws { draws.new ≡ after_block_of kind draws.old }
{
    match kind {
        0 => {
            let page = draws.draw() % 48;
            let word = draws.draw() % 512;
            let number = draws.draw() % 2048;
            code.extend_from_slice(&memory_block(page, word, number))
        }
        1 => {
            let page = draws.draw() % 48;
            code.extend_from_slice(&zero_block(page))
        }
        2 => {
            let sector = draws.draw() % 16;
            let increase = draws.draw() % 2048;
            code.extend_from_slice(&disk_block(sector, increase))
        }
        _ => {
            let page = draws.draw() % 48;
            let word = draws.draw() % 512;
            let letter = draws.draw() % 26;
            code.extend_from_slice(&console_block(page, word, letter))
        }
    }
}

/// Adds a block whose kind is drawn first.
#[tactic(auto, unfolding(crate::specs::Blocks::block, crate::specs::Blocks::after_block))]
fn push_block(code: &mut Vec<Instr>, draws: &mut Draws) -> Result<(), AllocError>
    ensures code { OnOk result (code.new.items ≡ code.old.items ++ block draws.old) }
    ensures draws { draws.new ≡ after_block draws.old }
{
    let kind = draws.draw() % 4;
    push_block_of(code, draws, kind)
}

/// Adds so many blocks.
#[tactic(auto, using(std::proofs::lemmas::List::append_assoc, crate::proofs::Steps::blocks_more, crate::proofs::Steps::after_blocks_more), unfolding(crate::specs::Blocks::blocks, crate::specs::Blocks::after_blocks))]
pub(crate) fn push_blocks(
    code: &mut Vec<Instr>,
    draws: &mut Draws,
    count: u32,
) -> Result<(), AllocError>
    ensures code { OnOk result (code.new.items ≡ code.old.items ++ blocks count draws.old) }
    ensures draws { OnOk result (draws.new ≡ after_blocks count draws.old) }
{
    for _ in 0..count {
        push_block(code, draws)?;
    }
    Ok(())
}
