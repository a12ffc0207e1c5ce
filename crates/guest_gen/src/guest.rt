ghost use Rattle.std.specs.Prelude.{◌≡◌, map, IfOk};
ghost use Rattle.rv_asm.specs.Encode.{encoded};
ghost use Rattle.guest_gen.specs.Guest.{start, instructions, guest};

use crate::assembly::{addi, lui};
use crate::levels::{numbered, push_forking_level, push_last_level};
use elf_load::RAM_BASE;
use rv_asm::{elf_of, encode};
use rv_decode::Instr;
use seed_draws::Draws;
use std::alloc::{AllocError, Global};

/// The image of the guest of a seed: an executable with one segment at the start of RAM, which is entered at
/// its start. It wants 64 pages of RAM, a disk of 16 sectors or more, and 72 clones. The one error is want of
/// memory.
#[tactic(auto, using(crate::proofs::Lengths::words_short), unfolding(crate::specs::Guest::guest, crate::specs::Guest::words))]
pub fn guest_of(alloc: Global, seed: u32) -> Result<Vec<u8>, AllocError>
    ensures { IfOk result (λ file. file.items ≡ guest seed) }
{
    let instructions = instructions(alloc, seed)?;
    let words = words_of(alloc, &instructions)?;
    elf_of(alloc, RAM_BASE, &words)
}

/// The addresses of the fork port, the console and the block port, and the sum.
#[tactic(auto, unfolding(crate::specs::Guest::start))]
fn start() -> [Instr; 4]
    ensures { result ≡ start }
{
    [
        lui(5, 0x1_0002),
        lui(11, 0x1_0000),
        lui(12, 0x1_0001),
        addi(14, 0, 0),
    ]
}

/// The instructions of the guest of a seed.
#[tactic(auto, unfolding(crate::specs::Guest::instructions))]
fn instructions(alloc: Global, seed: u32) -> Result<Vec<Instr>, AllocError>
    ensures { IfOk result (λ code. code.items ≡ instructions seed) }
{
    let mut draws = Draws::new(seed);
    let mut code = Vec::new(alloc);
    code.extend_from_slice(&start())?;
    push_forking_level(&mut code, &mut draws, 8)?;
    code.extend_from_slice(&numbered())?;
    push_forking_level(&mut code, &mut draws, 0)?;
    code.extend_from_slice(&numbered())?;
    push_last_level(&mut code, &mut draws)?;
    Ok(code)
}

/// The words of these instructions.
fn words_of(alloc: Global, instructions: &[Instr]) -> Result<Vec<u32>, AllocError>
    ensures { IfOk result (λ words. words.items ≡ map encoded instructions.now) }
{
    instructions
        .iter()
        .map(|instruction| encode(instruction))
        .collect(alloc)
}
