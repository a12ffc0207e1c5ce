//! The names of machines in a script.

ghost use Rattle.std.specs.Prelude.{◌≡◌, length, IfOk, Some, option_map};
ghost use Rattle.machine_names.specs.Name.{name_text};
ghost use Rattle.drive_script.specs.Script.{name_of};

use crate::fields::{DOT, cut, fork_of};
use machine_names::{Branch, Name};
use std::alloc::{AllocError, Global};
use std::marker::Model;
use std::{fmt, str};

/// The name of a machine, in text: `0`, and then `.t.k` for each fork on the way to it. It may have more forks
/// than any machine, and is not put together before a machine is looked for.
#[derive(Drop)]
pub struct NameText {
    text: String,
    /// How many forks it has.
    depth: usize,
}

impl Model for NameText {
    ghost use Rattle.std.specs.Prelude.{string_bytes};
    ghost use Rattle.forest_tree.specs.Tree.{Path};
    ghost use Rattle.drive_script.specs.NameTexts.{IsNameText, path_of};

    ghost Value = { Path };

    ghost view = { λ n. path_of (string_bytes n.text) };

    ghost invariant = { λ n. IsNameText (string_bytes n.text) n.depth };
}

impl NameText {
    /// The name that a text is, if it is one. It takes time in proportion to the text.
    pub(crate) fn read(alloc: Global, text: &[u8]) -> Result<Option<NameText>, AllocError>
        ensures { IfOk result (λ name. name ≡ name_of text.now) }
    {
        let Some(depth) = depth_of(text) else {
            return Ok(None);
        };
        // Digits and points are text.
        let Ok(text) = str::from_utf8(text) else {
            unreachable!();
        };
        Ok(Some(NameText {
            text: String::from_str(alloc, text)?,
            depth,
        }))
    }

    /// How many forks it has.
    pub fn depth(&self) -> usize
        ensures { result ≡ length self.now }
    {
        self.depth
    }

    /// The name put together.
    pub(crate) fn name(&self, alloc: Global) -> Result<Name, AllocError>
        ensures { IfOk result (λ name. name ≡ self.now) }
    {
        let mut branches = Vec::with_capacity(alloc, self.depth)?;
        let (_, mut forks) = cut(self.text.as_bytes(), DOT);
        'forks: while let Some(text) = forks {
            let Some((ticket, child, rest)) = fork_of(text) else {
                unreachable!();
            };
            branches.push(Branch::new(ticket, child))?;
            forks = rest;
        }
        Name::from_branches(alloc, branches)
    }
}

impl fmt::Display for NameText {
    ghost output = { λ name. Some (name_text name) };

    fn fmt<W: fmt::Write>(&self, f: &mut fmt::Formatter<W>) -> fmt::Result {
        f.write_str(self.text.as_str())
    }
}

/// How many forks the name has that a text is, if it is one.
fn depth_of(text: &[u8]) -> Option<usize>
    ensures { result ≡ option_map length (name_of text.now) }
{
    let (root, mut forks) = cut(text, DOT);
    if root != b"0".as_slice() {
        return None;
    }
    let mut depth = 0usize;
    'forks: while let Some(text) = forks {
        let (_, _, rest) = fork_of(text)?;
        depth += 1;
        forks = rest;
    }
    Some(depth)
}
