//! The reports of families.

ghost use Rattle.std.specs.Prelude.{◌≤◌};

use std::alloc::{AllocError, Global};

pub static TWO_CHILDREN: &[u8] =
    b"machine 0 exit 41 steps 21 out 0\n\nmachine 0.1.1 exit 41 steps 16 out 0\n\nmachine 0.1.2 exit 42 steps 16 out 0\n\n";

pub static JOIN_BYTES: &[u8] =
    b"machine 0 exit 268444343 steps 21 out 0\n\nmachine 0.1.1 exit 41 steps 18 out 0 handed b7220010\n\nmachine 0.1.2 exit 42 steps 18 out 0 handed b7220010\n\n";

pub static KILL_THEN_JOIN: &[u8] =
    b"machine 0 exit 4294967295 steps 21 out 0\n\nticket 0.1 killed 2\n";

pub static GRANDCHILD: &[u8] =
    b"machine 0 exit 17 steps 26 out 0\n\nmachine 0.1.1 exit 17 steps 35 out 0\n\nmachine 0.1.1.1.1 exit 17 steps 29 out 0\n\n";

/// The line of a machine that put out nothing.
pub fn line_of(alloc: Global, name: &str, value: u32, steps: u32) -> Result<String, AllocError> {
    format!(in alloc; "machine {name} exit {value} steps {steps} out 0\n\n")
}

/// A thousand children.
pub fn thousand_children(alloc: Global) -> Result<String, AllocError> {
    let mut text = line_of(alloc, "0", 1000, 18)?;
    for child in 1..=1000u32 {
        let name = format!(in alloc; "0.1.{child}")?;
        text.push_str(&line_of(alloc, &name, child, 15)?)?;
    }
    Ok(text)
}

/// A chain of so many forks. Each machine but the last makes 13 steps more than its parent.
pub fn long_chain(alloc: Global, forks: u32) -> Result<String, AllocError>
    requires { forks ≤ 4096 }
{
    let mut name = String::from_str(alloc, "0")?;
    let mut text = line_of(alloc, &name, forks, 23)?;
    for fork in 1..=forks {
        name.push_str(".1.1")?;
        let steps = if fork < forks { 23 } else { 6 } + 13 * fork;
        text.push_str(&line_of(alloc, &name, forks - fork, steps)?)?;
    }
    Ok(text)
}
