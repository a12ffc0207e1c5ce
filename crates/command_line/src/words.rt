//! What the words of the command line ask for.

ghost use Rattle.std.specs.Prelude.{◌≡◌, ◌≤◌, false, codes, IfOk, IfSome, option_and_then, option_map};
ghost use Rattle.clap.specs.declared.Command.TheViews.{out-Command};
ghost use Rattle.clap.specs.Words.{app_of, first_of, found_of, rows_of, rule_of, subcommand_rows_of, with_subcommand};
ghost use Rattle.command_line.specs.Commands.{meaning};
ghost use Rattle.command_line.specs.Commands.{app_for, rule_for};
ghost use Rattle.command_line.specs.Words.{command_of, drive_with, generated_guest, generated_how, generated_with, guest_of, how_of, meant, number_of, option_rule};
ghost use Rattle.command_line.specs.Words.{run_with, snow_app, texts, value_of, workers_of};

use crate::options::{
    AHEAD_OPTION, CLONES_OPTION, DRIVE, GENERATED, LIMIT, LIMIT_OPTION, Limits, NumberOption,
    Parameter, RAM, RAM_OPTION, RUN, SLICE, SLICE_OPTION, Subcommand, WIRE, WIRE_OPTION, WORKERS,
    WORKERS_OPTION,
};
use clap::error::ErrorKind;
use clap::{Arg, ArgMatches};
use elf_load::{MAX_PAGES, MIN_PAGES};
use host_fetch::MAX_AHEAD;
use std::alloc::{AllocError, Global};
use std::marker::Model;
use vm_descriptor::{MAX_CLONES, MAX_LIMIT};

/// The clones of the family of a generated guest.
pub const GENERATED_CLONES: u32 = 72;

/// The pages that are asked for beside one that is wanted where a generated guest is run.
pub const GENERATED_AHEAD: u32 = 4;

/// What the words ask for.
#[derive(Drop)]
pub enum Command<'a> {
    /// `run IMAGE`: the family of a guest is run to its end.
    Run(GuestWords<'a>, RunWords),
    /// `drive IMAGE SCRIPT`: it is driven by the script of this name.
    Drive(GuestWords<'a>, &'a str),
    /// `self SEED`: the family of the guest of this seed is run to its end.
    Generated(GeneratedWords),
}

/// What the words say of a guest.
#[derive(Drop)]
pub struct GuestWords<'a> {
    image: &'a str,
    disk: Option<&'a str>,
    input: Option<&'a str>,
    pages: u32,
    limit: u64,
    clones: u32,
}

impl<'a> Model for GuestWords<'a> {
    ghost use Rattle.std.specs.Prelude.{◌≤◌, option_map};
    ghost use Rattle.elf_load.specs.declared.image.TheConstants.{MIN_PAGES, MAX_PAGES};
    ghost use Rattle.vm_descriptor.specs.declared.descriptor.TheConstants.{MAX_CLONES, MAX_LIMIT};
    ghost use Rattle.command_line.specs.declared.options.TheConstants.{LIMIT};
    ghost use Rattle.command_line.specs.Words.{GuestValues};

    ghost Value = { GuestValues };

    ghost view = { λ g. record { image = g.image.now; disk = option_map (λ name. name.now) g.disk; input = option_map (λ name. name.now) g.input; pages = g.pages; limit = g.limit; clones = g.clones } };

    ghost invariant = { λ g. (MIN_PAGES ≤ g.pages) × (g.pages ≤ MAX_PAGES) × (LIMIT.least ≤ g.limit) × (g.limit ≤ MAX_LIMIT) × (g.clones ≤ MAX_CLONES) };
}

impl GuestWords<'_> {
    /// The name of the image.
    pub fn image(&self) -> &str
        ensures { result.now ≡ self.now.image }
    {
        self.image
    }

    /// The name of the disk, if one is given.
    pub fn disk(&self) -> Option<&str>
        ensures { option_map (λ name. name.now) result ≡ self.now.disk }
    {
        self.disk
    }

    /// The name of the input, if one is given.
    pub fn input(&self) -> Option<&str>
        ensures { option_map (λ name. name.now) result ≡ self.now.input }
    {
        self.input
    }

    /// The pages of RAM.
    pub fn pages(&self) -> u32
        ensures value { result ≡ self.now.pages }
        ensures least { MIN_PAGES ≤ result }
        ensures most { result ≤ MAX_PAGES }
    {
        self.pages
    }

    /// The most steps of the machine.
    pub fn limit(&self) -> u64
        ensures value { result ≡ self.now.limit }
        ensures least { LIMIT.least ≤ result }
        ensures most { result ≤ MAX_LIMIT }
    {
        self.limit
    }

    /// How many clones the family may have.
    pub fn clones(&self) -> u32
        ensures value { result ≡ self.now.clones }
        ensures most { result ≤ MAX_CLONES }
    {
        self.clones
    }
}

/// What the words say of how a family is run.
#[derive(Drop)]
pub struct RunWords {
    seed: u32,
    ahead: u32,
    workers: u32,
    slice: u32,
}

impl Model for RunWords {
    ghost use Rattle.std.specs.Prelude.{◌≤◌};
    ghost use Rattle.host_fetch.specs.declared.fetch_page.TheConstants.{MAX_AHEAD};
    ghost use Rattle.command_line.specs.declared.options.TheConstants.{SLICE, WORKERS};
    ghost use Rattle.command_line.specs.Words.{RunValues};

    ghost Value = { RunValues };

    ghost view = { λ r. record { seed = r.seed; ahead = r.ahead; workers = r.workers; slice = r.slice } };

    ghost invariant = { λ r. (r.ahead ≤ MAX_AHEAD) × (WORKERS.least ≤ r.workers) × (r.workers ≤ WORKERS.most) × (SLICE.least ≤ r.slice) × (r.slice ≤ SLICE.most) };
}

impl RunWords {
    /// The seed of the wires.
    pub fn seed(&self) -> u32
        ensures { result ≡ self.now.seed }
    {
        self.seed
    }

    /// How many pages are asked for beside one that is wanted.
    pub fn ahead(&self) -> u32
        ensures value { result ≡ self.now.ahead }
        ensures most { result ≤ MAX_AHEAD }
    {
        self.ahead
    }

    /// How many workers there are to be.
    pub fn workers(&self) -> u32
        ensures value { result ≡ self.now.workers }
        ensures least { WORKERS.least ≤ result }
        ensures most { result ≤ WORKERS.most }
    {
        self.workers
    }

    /// After how many steps of a machine, 1,000 at most, its worker looks up first: whether the family has ended, and
    /// whether another is to look for machines.
    pub fn slice(&self) -> u32
        ensures value { result ≡ self.now.slice }
        ensures least { SLICE.least ≤ result }
        ensures most { result ≤ SLICE.most }
    {
        self.slice
    }
}

/// What the words say of a guest that is drawn from a seed.
#[derive(Drop)]
pub struct GeneratedWords {
    seed: u32,
    workers: u32,
}

impl Model for GeneratedWords {
    ghost use Rattle.std.specs.Prelude.{◌≤◌};
    ghost use Rattle.command_line.specs.declared.options.TheConstants.{WORKERS};
    ghost use Rattle.command_line.specs.Words.{GeneratedValues};

    ghost Value = { GeneratedValues };

    ghost view = { λ g. record { seed = g.seed; workers = g.workers } };

    ghost invariant = { λ g. (WORKERS.least ≤ g.workers) × (g.workers ≤ WORKERS.most) };
}

impl GeneratedWords {
    /// The seed of the guest.
    pub fn seed(&self) -> u32
        ensures { result ≡ self.now.seed }
    {
        self.seed
    }

    /// What the guest is given. It has no files, and so no names.
    pub fn guest(&self) -> GuestWords<'static>
        ensures { result ≡ generated_guest }
    {
        GuestWords {
            image: "",
            disk: None,
            input: None,
            pages: RAM.default,
            limit: u64::from(LIMIT.default),
            clones: GENERATED_CLONES,
        }
    }

    /// How its family is run.
    pub fn how(&self) -> RunWords
        ensures { result ≡ generated_how self.now.workers }
    {
        RunWords {
            seed: WIRE.default,
            ahead: GENERATED_AHEAD,
            workers: self.workers,
            slice: SLICE.default,
        }
    }

    /// How many workers there are to be.
    pub fn workers(&self) -> u32
        ensures value { result ≡ self.now.workers }
        ensures least { WORKERS.least ≤ result }
        ensures most { result ≤ WORKERS.most }
    {
        self.workers
    }
}

/// What the words ask for, or `None` exactly where they have no meaning. It is not inlined, since the parser's values would
/// have room on the stack while a family runs.
#[inline(never)]
pub fn command_asked(alloc: Global, words: &[String]) -> Result<Option<Command<'_>>, AllocError>
    ensures { IfOk result (λ asked. option_map meaning asked ≡ meant (texts words.now)) }
{
    match snow_command(alloc)?.try_get_matches_from(words) {
        Ok(matches) => Ok(command_found(&matches)),
        Err(error) => match error.kind() {
            ErrorKind::OutOfMemory => Err(AllocError),
            _ => Ok(None),
        },
    }
}

/// The command line that the parser is to take.
fn snow_command<'a>(alloc: Global) -> Result<clap::Command<'a>, AllocError>
    ensures { IfOk result (λ command. app_of command ≡ snow_app) }
{
    let command = clap::Command::new(alloc, "snow").no_binary_name(true);
    let command = subcommand_added(alloc, command, &RUN)?;
    let command = subcommand_added(alloc, command, &DRIVE)?;
    subcommand_added(alloc, command, &GENERATED)
}

/// A command that has this subcommand, too.
fn subcommand_added<'a>(
    alloc: Global,
    command: clap::Command<'a>,
    subcommand: &Subcommand,
) -> Result<clap::Command<'a>, AllocError>
    ensures { IfOk result (λ added. app_of added ≡ with_subcommand (app_of command.entry) (app_for subcommand.now).top) }
{
    let made = made_subcommand(alloc, subcommand)?;
    command.subcommand(made)
}

/// A subcommand, as the parser is told of it.
fn made_subcommand<'a>(
    alloc: Global,
    subcommand: &Subcommand,
) -> Result<clap::Command<'a>, AllocError>
    ensures app { IfOk result (λ made. app_of made ≡ app_for subcommand.now) }
    ensures local { IfOk result (λ made. (out-Command made).has_globals ≡ false) }
{
    let mut made = clap::Command::new(alloc, subcommand.name);
    let parameters = subcommand.parameters;
    'parameters: for parameter in parameters {
        made = made.arg(argument(alloc, parameter))?;
    }
    Ok(made)
}

/// A parameter, as the parser is told of it.
fn argument<'a>(alloc: Global, parameter: &Parameter) -> Arg<'a>
    ensures { (result.global ≡ false) × (rule_of result ≡ rule_for parameter.now) }
{
    match parameter {
        Parameter::Word(name) => Arg::new(alloc, name).required(true),
        Parameter::File(name) => named(alloc, name),
        Parameter::Number(option) => named(alloc, option.name),
    }
}

/// An option `--name` with one value, as the parser is told of it.
fn named<'a>(alloc: Global, name: &'static str) -> Arg<'a>
    ensures { (result.global ≡ false) × (rule_of result ≡ option_rule name.now) }
{
    Arg::new(alloc, name).long(name)
}

/// The subcommand that was found, with its values.
fn command_found<'a>(matches: &ArgMatches<'a>) -> Option<Command<'a>>
    ensures { option_map meaning result ≡ command_of (subcommand_rows_of matches.now) }
{
    match matches.subcommand() {
        Some((name, found)) if name == "run" => run_of(found),
        Some((name, found)) if name == "drive" => drive_of(found),
        Some((name, found)) if name == "self" => generated_of(found),
        _ => None,
    }
}

/// The values of `run`.
fn run_of<'a>(found: &ArgMatches<'a>) -> Option<Command<'a>>
    ensures { option_map meaning result ≡ run_with (guest_of (rows_of (found_of found.now))) (how_of (rows_of (found_of found.now))) }
{
    let guest = guest_of(found)?;
    let how = how_of(found)?;
    Some(Command::Run(guest, how))
}

/// The values of `drive`.
fn drive_of<'a>(found: &ArgMatches<'a>) -> Option<Command<'a>>
    ensures { option_map meaning result ≡ drive_with (guest_of (rows_of (found_of found.now))) (first_of (codes "SCRIPT") (rows_of (found_of found.now))) }
{
    let guest = guest_of(found)?;
    let script = text_of(found, "SCRIPT")?;
    Some(Command::Drive(guest, script))
}

/// The values of `self`.
fn generated_of<'a>(found: &ArgMatches<'a>) -> Option<Command<'a>>
    ensures { option_map meaning result ≡ generated_with (option_and_then number_of (first_of (codes "SEED") (rows_of (found_of found.now)))) (workers_of (rows_of (found_of found.now))) }
{
    let seed = number_of(text_of(found, "SEED")?)?;
    let workers = workers_of(found)?;
    Some(Command::Generated(GeneratedWords { seed, workers }))
}

/// What is said of a guest.
fn guest_of<'a>(found: &ArgMatches<'a>) -> Option<GuestWords<'a>>
    ensures { result ≡ guest_of (rows_of (found_of found.now)) }
{
    let image = text_of(found, "IMAGE")?;
    let disk = text_of(found, "disk");
    let input = text_of(found, "input");
    let pages = value_of(found, &RAM_OPTION)?;
    let limit = value_of(found, &LIMIT_OPTION)?;
    let clones = value_of(found, &CLONES_OPTION)?;
    Some(GuestWords {
        image,
        disk,
        input,
        pages,
        limit: u64::from(limit),
        clones,
    })
}

/// What is said of how a family is run.
fn how_of(found: &ArgMatches<'_>) -> Option<RunWords>
    ensures { result ≡ how_of (rows_of (found_of found.now)) }
{
    let seed = value_of(found, &WIRE_OPTION)?;
    let ahead = value_of(found, &AHEAD_OPTION)?;
    let workers = workers_of(found)?;
    let slice = value_of(found, &SLICE_OPTION)?;
    Some(RunWords {
        seed,
        ahead,
        workers,
        slice,
    })
}

/// How many workers are asked for.
fn workers_of(found: &ArgMatches<'_>) -> Option<u32>
    ensures value { result ≡ workers_of (rows_of (found_of found.now)) }
    ensures least { IfSome result (λ n. WORKERS.least ≤ n) }
    ensures most { IfSome result (λ n. n ≤ WORKERS.most) }
{
    value_of(found, &WORKERS_OPTION)
}

/// The value of an option: a number within its limits, or the default where the option is not given.
fn value_of(found: &ArgMatches<'_>, option: &NumberOption) -> Option<u32>
    requires least { option.now.limits.least ≤ option.now.limits.default }
    requires most { option.now.limits.default ≤ option.now.limits.most }
    ensures value { result ≡ value_of option.now.limits (first_of option.now.name.now (rows_of (found_of found.now))) }
    ensures least { IfSome result (λ n. option.now.limits.least ≤ n) }
    ensures most { IfSome result (λ n. n ≤ option.now.limits.most) }
{
    let Limits {
        least,
        most,
        default,
    } = option.limits;
    match text_of(found, option.name) {
        None => Some(default),
        Some(text) => match number_of(text) {
            Some(n) if least <= n && n <= most => Some(n),
            _ => None,
        },
    }
}

/// The text that was given for an argument.
fn text_of<'a>(found: &ArgMatches<'a>, id: &str) -> Option<&'a str>
    ensures { option_map (λ text. text.now) result ≡ first_of id.now (rows_of (found_of found.now)) }
{
    found.get_str(id)
}

fn number_of(text: &str) -> Option<u32>
    ensures { result ≡ number_of text.now }
{
    text.parse().ok()
}
