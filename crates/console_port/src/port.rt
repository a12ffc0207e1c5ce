ghost use Rattle.std.specs.Prelude.{◌≡◌, ◌≤◌, ◌<◌, ◌↔◌, [], length, Some, None, IsErr, IfOk, OnOk, OnErr, IsErrOf, IsSomeAnd};
ghost use Rattle.console_port.specs.Console.{console_load, console_store, data_load, has_input, is_latched};

use crate::Input;
use crate::registers::{
    CONSOLE_DATA, CONSOLE_LINE_CONTROL, CONSOLE_LINE_STATUS, CONSOLE_SIZE, DATA_READY,
    DIVISOR_LATCH, TRANSMITTER_IDLE,
};
use port_error::{Fault, PortError};
use std::alloc::{AllocError, Global};
use std::marker::Model;

/// The most bytes of input.
pub const MAX_INPUT: usize = 65_536;

/// The registers of a console that a clone of a machine starts with.
#[derive(Clone, Copy, Debug, PartialEq, Eq)]
pub struct ConsoleFields {
    /// How many bytes of the input have been read.
    pub place: u32,
    pub line_control: u8,
}

/// The console: a list of bytes that come in, with a place in it, and a list of bytes that go out.
#[derive(Drop)]
pub struct ConsolePort {
    input: Input,
    place: u32,
    output: Vec<u8>,
    line_control: u8,
}

impl Model for ConsolePort {
    ghost use Rattle.console_port.specs.Console.{ConsoleRegisters, IsConsole};

    ghost Value = { ConsoleRegisters };

    ghost view = { λ p. record { input = p.input; place = p.place; output = p.output.items; line_control = p.line_control } };

    ghost invariant = { λ p. IsConsole (record { input = p.input; place = p.place; output = p.output.items; line_control = p.line_control }) };
}

impl ConsolePort {
    /// A console with this input, of which nothing has been read, and no output.
    pub fn new(alloc: Global, input: &[u8]) -> Result<ConsolePort, AllocError>
        requires { length input.now ≤ MAX_INPUT }
        ensures { IfOk result (λ port. port ≡ record { input = input.now; place = 0; output = []; line_control = 0 }) }
    {
        let fields = ConsoleFields {
            place: 0,
            line_control: 0,
        };
        let input = Input::new(alloc, Vec::from_slice(alloc, input)?)?;
        Ok(ConsolePort::of_fields(alloc, fields, input))
    }

    /// A console with these registers and this input, and no output.
    pub fn of_fields(alloc: Global, fields: ConsoleFields, input: Input) -> ConsolePort
        requires { fields.place ≤ MAX_INPUT }
        ensures { result ≡ record { input = input; place = fields.place; output = []; line_control = fields.line_control } }
    {
        ConsolePort {
            place: fields.place,
            output: Vec::new(alloc),
            line_control: fields.line_control,
            input,
        }
    }

    /// The registers that a clone of the machine starts with.
    pub fn fields(&self) -> ConsoleFields
        ensures value { result ≡ record { place = self.now.place; line_control = self.now.line_control } }
        ensures place_fits { result.place ≤ MAX_INPUT }
    {
        ConsoleFields {
            place: self.place,
            line_control: self.line_control,
        }
    }

    /// The whole input, read or not.
    pub fn input(&self) -> &[u8]
        ensures value { result.now ≡ self.now.input }
        ensures fits { length result.now ≤ MAX_INPUT }
    {
        self.input.bytes()
    }

    /// The same, shared. It costs one handle.
    pub fn share_input(&self) -> Result<Input, AllocError>
        ensures { IfOk result (λ input. input ≡ self.now.input) }
    {
        self.input.share()
    }

    /// What has been put out.
    pub fn output(&self) -> &[u8]
        ensures { result.now ≡ self.now.output }
    {
        &self.output
    }

    /// The same, of a console that is needed no more.
    pub fn into_output(self) -> Vec<u8>
        ensures { result.items ≡ self.output }
    {
        let ConsolePort {
            input: _,
            place: _,
            output,
            line_control: _,
        } = self;
        output
    }

    /// Loads `width` bytes.
    pub fn load(&mut self, offset: u32, width: u32) -> Result<u32, Fault>
        ensures ok { IfOk result (λ value. console_load self.old offset width ≡ Some (record { console = self.new; value = value })) }
        ensures fault { IsErr result ↔ (console_load self.old offset width ≡ None) }
        ensures err { OnErr result (self.new ≡ self.old) }
    {
        if offset >= CONSOLE_SIZE || width != 1 {
            return Err(Fault);
        }
        Ok(match offset {
            CONSOLE_DATA => u32::from(self.read_byte()),
            CONSOLE_LINE_CONTROL => u32::from(self.line_control),
            CONSOLE_LINE_STATUS if self.has_input() => TRANSMITTER_IDLE | DATA_READY,
            CONSOLE_LINE_STATUS => TRANSMITTER_IDLE,
            _ => 0,
        })
    }

    /// Stores the low `width` bytes of `word`.
    pub fn store(&mut self, offset: u32, width: u32, word: u32) -> Result<(), PortError>
        ensures ok { OnOk result (console_store self.old offset width word ≡ Some self.new) }
        ensures fault { IsErrOf result PortError.Fault ↔ (console_store self.old offset width word ≡ None) }
        ensures err { OnErr result (self.new ≡ self.old) }
        // Memory is wanted where a byte goes to the output.
        ensures memory { IsErrOf result PortError.Memory
            → IsSomeAnd (console_store self.old offset width word) (λ c. length self.old.output < length c.output) }
    {
        if offset >= CONSOLE_SIZE || width != 1 {
            return Err(PortError::Fault);
        }
        let byte = (word % 256) as u8;
        match offset {
            CONSOLE_DATA if !self.is_latched() => self.output.push(byte)?,
            CONSOLE_LINE_CONTROL => self.line_control = byte,
            _ => {}
        }
        Ok(())
    }

    /// The next byte of the input, or 0 where none is left or the divisor latch is in its place.
    fn read_byte(&mut self) -> u8
        ensures { data_load self.old ≡ record { console = self.new; value = result } }
    {
        if self.is_latched() || !self.has_input() {
            return 0;
        }
        let place = self.place as usize;
        let byte = self.input()[place];
        self.place += 1;
        byte
    }

    fn has_input(&self) -> bool
        ensures { result ≡ has_input self.now }
    {
        (self.place as usize) < self.input().len()
    }

    #[tactic(auto, using(std::proofs::lemmas::Nat::Bits::and_pow))]
    fn is_latched(&self) -> bool
        ensures { result ≡ is_latched self.now }
    {
        self.line_control & DIVISOR_LATCH != 0
    }
}
