//! How a call of `snow` ended.

ghost use Rattle.std.specs.Prelude.{◌≡◌};

/// How a call of `snow` ended. `first` and `second` are 0 where the code gives them no meaning.
#[derive(Clone, Copy, Debug, PartialEq)]
pub struct Status {
    /// 0 done, 1 a file could not be read, 2 the words have no meaning, 3 the image is refused, 4 the
    /// disk or the input is refused, 5 the text could not be written whole, 6 want of memory, 7 a
    /// wire gave no reply for too long, 8 the script is refused.
    pub code: u8,
    /// Of code 1 which load failed: 1 the image, 2 the disk, 3 the input, 4 the script; of codes 3 and 4
    /// the number of the refusal; of code 8 the line that is refused, or 0 where the script is too long.
    pub first: u32,
    /// Of code 8 the kind of what is refused.
    pub second: u32,
}

impl Status {
    /// The words have no meaning.
    pub const USAGE: Status = Status {
        code: 2,
        first: 0,
        second: 0,
    };

    /// Want of memory.
    pub const OUT_OF_MEMORY: Status = Status {
        code: 6,
        first: 0,
        second: 0,
    };

    /// This code, with what it tells first.
    pub fn new(code: u8, first: u32) -> Status
        ensures { result ≡ record { code = code; first = first; second = 0 } }
    {
        Status {
            code,
            first,
            second: 0,
        }
    }

    /// The script is refused.
    pub fn of_script(line: u32, kind: u32) -> Status
        ensures { result ≡ record { code = 8; first = line; second = kind } }
    {
        Status {
            code: 8,
            first: line,
            second: kind,
        }
    }
}
