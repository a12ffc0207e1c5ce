//! Scripts: texts in form, and others, each with the line and the kind by which it is refused.

use crate::equal::{are_equal, succeeds};
use drive_script::{MAX_SCRIPT, Script, ScriptError, ScriptLine, read_script};
use std::alloc::{AllocError, Global};
use std::process::Abort;

/// A script is read, or refused.
fn read(rt: &impl Abort, alloc: Global, text: &[u8]) -> Result<Script, ScriptError> {
    assert!(rt; text.len() <= MAX_SCRIPT);
    read_script(alloc, text)
}

/// A script in form.
pub(crate) fn in_form(rt: &impl Abort, alloc: Global, text: &[u8]) -> Script {
    succeeds(rt, read(rt, alloc, text))
}

/// The lines of a script, one after another.
fn said(rt: &impl Abort, alloc: Global, script: &Script) -> String {
    let mut text = String::new(alloc);
    for line in script.lines() {
        let said = succeeds(rt, said_of(alloc, line));
        succeeds(rt, text.push_str(&said));
    }
    text
}

fn said_of(alloc: Global, line: &ScriptLine) -> Result<String, AllocError> {
    match line {
        ScriptLine::Step { name, most } => format!(in alloc; "step {name} {most}\n"),
        ScriptLine::Ask { name } => format!(in alloc; "ask {name}\n"),
        ScriptLine::Push { name, page } => format!(in alloc; "push {name} {page}\n"),
        ScriptLine::Give { name, place } => format!(in alloc; "give {name} {place}\n"),
        ScriptLine::Peek { name, address } => format!(in alloc; "peek {name} {address:08x}\n"),
        ScriptLine::Regs { name } => format!(in alloc; "regs {name}\n"),
    }
}

/// Scripts, and what their lines say.
static IN_FORM: [(&[u8], &str); 9] = [
    (b"", ""),
    (b"\n\n\n", ""),
    (b"step 0 0", "step 0 0\n"),
    (b"step 0 1000000000\n", "step 0 1000000000\n"),
    (b"peek 0.1.1 80001aBC", "peek 0.1.1 80001abc\n"),
    (
        b"peek 0 FFFFFFFF\npeek 0 00000000",
        "peek 0 ffffffff\npeek 0 00000000\n",
    ),
    (
        b"ask 0.1.1\npush 0.1.1 4294967295\ngive 0.1.2 0",
        "ask 0.1.1\npush 0.1.1 4294967295\ngive 0.1.2 0\n",
    ),
    (b"regs 0.1.2.30.4294967295\n", "regs 0.1.2.30.4294967295\n"),
    (b"\nregs 0\n\nstep 0.10.9 12\n", "regs 0\nstep 0.10.9 12\n"),
];

#[test]
fn scripts_in_form(rt: HostRuntime) {
    for (text, lines) in IN_FORM.iter() {
        says(&rt, rt.alloc(), text, lines);
    }
}

fn says(rt: &impl Abort, alloc: Global, text: &[u8], lines: &str) {
    let script = in_form(rt, alloc, text);
    let said = said(rt, alloc, &script);
    are_equal(rt, &said.as_str(), &lines);
}

/// Texts that are no scripts, the first line that is not in form, and the kind of what is found there: 1 an unknown
/// word, 2 a wrong number of fields, 3 a bad name, 4 a bad number, 5 a bad address.
static REFUSED: [(&[u8], u32, u32); 61] = [
    (b"jump 0", 1, 1),
    (b"jump", 1, 1),
    (b" step 0 1", 1, 1),
    (b"STEP 0 1", 1, 1),
    (b"steps 0 1", 1, 1),
    (b" ", 1, 1),
    (b"\xff", 1, 1),
    (b"step", 1, 2),
    (b"step 0", 1, 2),
    (b"step 0 1 2", 1, 2),
    (b"step 0 1 ", 1, 2),
    (b"step  0 1", 1, 2),
    (b"peek 0", 1, 2),
    (b"peek 0 80000000 0", 1, 2),
    (b"regs", 1, 2),
    (b"ask", 1, 2),
    (b"ask 0 0", 1, 2),
    (b"push 0", 1, 2),
    (b"regs 0 0", 1, 2),
    (b"step 00 1", 1, 3),
    (b"step 1 1", 1, 3),
    (b"step  1", 1, 3),
    (b"step 0. 1", 1, 3),
    (b"step 0.1 1", 1, 3),
    (b"step 0.1.1.1 1", 1, 3),
    (b"step 0.1.1. 1", 1, 3),
    (b"step 0.0.1 1", 1, 3),
    (b"step 0.1.0 1", 1, 3),
    (b"step 0.01.1 1", 1, 3),
    (b"step 0.1.4294967296 1", 1, 3),
    (b"step 0.+1.1 1", 1, 3),
    (b"step 0.1.x 1", 1, 3),
    (b"peek 0.1 80000000", 1, 3),
    (b"regs x", 1, 3),
    (b"regs ", 1, 3),
    (b"regs 0\r", 1, 3),
    (b"step 0 01", 1, 4),
    (b"step 0 ", 1, 4),
    (b"step 0 -1", 1, 4),
    (b"step 0 +1", 1, 4),
    (b"step 0 1k", 1, 4),
    (b"step 0 1000000001", 1, 4),
    (b"step 0 4294967296", 1, 4),
    (b"step 0 99999999999999999999999999999999", 1, 4),
    (b"push 0 4294967296", 1, 4),
    (b"give 0 00", 1, 4),
    (b"give 0.1 00", 1, 3),
    (b"peek 0 8000", 1, 5),
    (b"peek 0 8000000", 1, 5),
    (b"peek 0 800000000", 1, 5),
    (b"peek 0 8000000g", 1, 5),
    (b"peek 0 0x800000", 1, 5),
    (b"peek 0 +8000000", 1, 5),
    (b"step 0 1\nregs 0\njump 0\n", 3, 1),
    (b"\n\njump 0", 3, 1),
    (b"regs 0\n\n\nstep 0\njump", 4, 2),
    (b"regs 0.1\njump", 1, 3),
    (b"jump 00 01", 1, 1),
    (b"step 00", 1, 2),
    (b"step 00 01", 1, 3),
    (b"peek 00 8000", 1, 3),
];

#[test]
fn texts_that_are_no_scripts(rt: HostRuntime) {
    for (text, line, kind) in REFUSED.iter() {
        is_no_script(&rt, rt.alloc(), text, *line, *kind);
    }
}

/// A text is refused so.
fn is_no_script(rt: &impl Abort, alloc: Global, text: &[u8], line: u32, kind: u32) {
    let refused = read(rt, alloc, text).err();
    let want = Some(ScriptError::Refused { line, kind });
    are_equal(rt, &(text, refused), &(text, want));
}

#[test]
fn the_longest_script(rt: HostRuntime) {
    let text = longest(&rt, rt.alloc());
    is_no_script(&rt, rt.alloc(), &text, 1_048_571, 1);
}

/// A script of the greatest length, whose last line alone is not in form.
fn longest(rt: &impl Abort, alloc: Global) -> Vec<u8> {
    let mut text = succeeds(rt, vec![in alloc; b'\n'; 1_048_570]);
    succeeds(rt, text.extend_from_slice(b"jump 0"));
    text
}
