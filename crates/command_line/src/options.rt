//! The one table of the subcommands and their options: the usage, which people, the launcher and the tools read, and rows by
//! which the parser is told of them and values are read. Tests compare each row with its line of the usage.

use elf_load::{MAX_PAGES, MIN_PAGES};
use host_fetch::MAX_AHEAD;
use vm_descriptor::{MAX_CLONES, MAX_LIMIT};
use wire_fates::MAX_WIRES;

/// What is said of words that have no meaning: what each subcommand takes and does, and a line for each option, with the least
/// number, the most and the default. The last line has no end.
pub const USAGE: &str = "snow: usage
  snow run IMAGE [--disk F] [--input F] [--ram N] [--limit N] [--clones N] [--wire N] [--ahead N]
                 [--workers N] [--slice N]
      run an executable image with all its children, and write their report
  snow drive IMAGE SCRIPT [--disk F] [--input F] [--ram N] [--limit N] [--clones N]
      step through it and its children by a script, and write what each line tells
  snow self SEED [--workers N]
      run a guest that is drawn from a seed, 0 to 4294967295, and write what it and its children came to

  --disk F     the file of the disk, at most 8192 sectors of 512 bytes; no sectors if not given
  --input F    the file of the console's input, at most 65536 bytes; empty if not given
  --ram N      the pages of RAM, 16 to 16384; 64 if not given
  --limit N    the most steps of a machine, 1 to 1000000000; 1000000 if not given
  --clones N   the most children and children's children, 0 to 4096; 0 if not given
  --wire N     what the wire does with the pages of children, 0 to 4294967295; 0, if not given, hands on each
  --ahead N    how many pages are asked for beside one that is wanted, 0 to 16; 0 if not given
  --workers N  how many machines may run at once, 1 to 64; 1 if not given
  --slice N    the steps after which a worker looks up from a machine, 1 to 1000000; 1000 if not given";

/// The numbers that an option may set. They are constants of their own, without the name, since definitions cite them, and can
/// cite no constant with a text.
#[derive(Clone, Copy)]
pub struct Limits {
    /// The least of them.
    pub least: u32,
    /// The most.
    pub most: u32,
    /// The one where the option is not given.
    pub default: u32,
}

/// An option `--name N`.
#[derive(Drop)]
pub struct NumberOption {
    pub name: &'static str,
    pub limits: Limits,
}

/// What a subcommand takes.
#[derive(Drop)]
pub enum Parameter {
    /// A word that has to be given.
    Word(&'static str),
    /// An option `--name F`, where F is the name of a file.
    File(&'static str),
    /// An option `--name N`, where N is a number.
    Number(NumberOption),
}

/// A subcommand: its name, and what it takes, its words in their order.
#[derive(Drop)]
pub struct Subcommand {
    pub name: &'static str,
    pub parameters: &'static [Parameter],
}

/// The pages of RAM.
pub const RAM: Limits = Limits {
    least: MIN_PAGES,
    most: MAX_PAGES,
    default: 64,
};

pub(crate) const RAM_OPTION: NumberOption = NumberOption {
    name: "ram",
    limits: RAM,
};

/// The most steps of a machine.
pub const LIMIT: Limits = Limits {
    least: 1,
    most: MAX_LIMIT as u32,
    default: 1_000_000,
};

pub(crate) const LIMIT_OPTION: NumberOption = NumberOption {
    name: "limit",
    limits: LIMIT,
};

/// The most machines at one time beside the first.
pub const CLONES: Limits = Limits {
    least: 0,
    most: MAX_CLONES,
    default: 0,
};

pub(crate) const CLONES_OPTION: NumberOption = NumberOption {
    name: "clones",
    limits: CLONES,
};

/// The seed of the wires. By 0 they hand on each page.
pub const WIRE: Limits = Limits {
    least: 0,
    most: u32::MAX,
    default: 0,
};

pub(crate) const WIRE_OPTION: NumberOption = NumberOption {
    name: "wire",
    limits: WIRE,
};

/// The pages that are asked for beside one that is wanted.
pub const AHEAD: Limits = Limits {
    least: 0,
    most: MAX_AHEAD,
    default: 0,
};

pub(crate) const AHEAD_OPTION: NumberOption = NumberOption {
    name: "ahead",
    limits: AHEAD,
};

/// The workers, and so the machines that run at one time.
pub const WORKERS: Limits = Limits {
    least: 1,
    most: MAX_WIRES as u32,
    default: 1,
};

pub(crate) const WORKERS_OPTION: NumberOption = NumberOption {
    name: "workers",
    limits: WORKERS,
};

/// The steps of a machine after which its worker first looks up, or 1,000 if that is fewer.
pub const SLICE: Limits = Limits {
    least: 1,
    most: 1_000_000,
    default: 1000,
};

pub(crate) const SLICE_OPTION: NumberOption = NumberOption {
    name: "slice",
    limits: SLICE,
};

/// `run`, which takes each option that there is, in the order of the usage.
pub const RUN: Subcommand = Subcommand {
    name: "run",
    parameters: &[
        Parameter::Word("IMAGE"),
        Parameter::File("disk"),
        Parameter::File("input"),
        Parameter::Number(RAM_OPTION),
        Parameter::Number(LIMIT_OPTION),
        Parameter::Number(CLONES_OPTION),
        Parameter::Number(WIRE_OPTION),
        Parameter::Number(AHEAD_OPTION),
        Parameter::Number(WORKERS_OPTION),
        Parameter::Number(SLICE_OPTION),
    ],
};

/// `drive`.
pub const DRIVE: Subcommand = Subcommand {
    name: "drive",
    parameters: &[
        Parameter::Word("IMAGE"),
        Parameter::Word("SCRIPT"),
        Parameter::File("disk"),
        Parameter::File("input"),
        Parameter::Number(RAM_OPTION),
        Parameter::Number(LIMIT_OPTION),
        Parameter::Number(CLONES_OPTION),
    ],
};

/// `self`.
pub const GENERATED: Subcommand = Subcommand {
    name: "self",
    parameters: &[Parameter::Word("SEED"), Parameter::Number(WORKERS_OPTION)],
};
