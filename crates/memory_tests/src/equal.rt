//! The comparison of what is found with what is wanted, and the value of what succeeds. They are proved here for all
//! types, so a test pays for a call alone, and has one end.

ghost use Rattle.std.specs.Prelude.{◌≡◌, Ok};

use std::fmt::Debug;
use std::process::Abort;

pub fn are_equal<T: PartialEq + Debug>(rt: &impl Abort, found: &T, want: &T) {
    assert_eq!(rt; *found, *want);
}

/// What a call gave that is to succeed.
pub fn succeeds<T, E: Debug>(rt: &impl Abort, found: Result<T, E>) -> T
    ensures { found ≡ Ok result }
{
    found.expect(rt, "it is to succeed")
}
