ghost use Rattle.std.specs.Prelude.{◌≡◌, Some, None, IfOk, OnOk, OnErr};
ghost use Rattle.timer_port.specs.Timer.{at_start, timer_load, timer_store, is_due, writes_mtime, timer_counted};

use crate::registers::{Half, MTIME_HIGH, MTIME_LOW, TimerRegisters};
use port_error::Fault;
use std::marker::Model;

/// The timer of a machine (RISC-V Privileged ISA 20211203, section 3.2.1). Its registers lie at
/// offsets from 0x02004000, and each half of them is accessed as a word.
#[derive(Clone, Copy)]
pub struct TimerPort {
    registers: TimerRegisters,
}

impl Model for TimerPort {
    ghost use Rattle.timer_port.specs.declared.registers.TimerRegisters.{TimerRegisters};

    ghost Value = { TimerRegisters };

    ghost view = { λ p. p.registers };

    ghost inverse = { λ v. record { registers = v } };
}

impl TimerPort {
    /// The timer of a machine that starts: time is 0, and it is due at the last time of all.
    pub fn new() -> TimerPort
        ensures { result ≡ at_start }
    {
        TimerPort {
            registers: TimerRegisters {
                mtime: 0,
                mtimecmp: u64::MAX,
            },
        }
    }

    /// What the registers hold.
    pub fn fields(&self) -> TimerRegisters
        ensures { result ≡ self.now }
    {
        self.registers
    }

    /// The timer whose registers hold this.
    pub fn of_fields(fields: TimerRegisters) -> TimerPort
        ensures { result ≡ fields }
    {
        TimerPort { registers: fields }
    }

    #[inline]
    pub fn mtime(&self) -> u64
        ensures { result ≡ self.now.mtime }
    {
        self.registers.mtime
    }

    #[inline]
    pub fn mtimecmp(&self) -> u64
        ensures { result ≡ self.now.mtimecmp }
    {
        self.registers.mtimecmp
    }

    /// Loads `width` bytes. `Fault` exactly where the port has no such access.
    #[inline]
    #[tactic(auto, unfolding(crate::specs::Timer::timer_load))]
    pub fn load(&self, offset: u32, width: u32) -> Result<u32, Fault>
        ensures ok { IfOk result (λ word. timer_load self.now offset width ≡ Some word) }
        ensures fault { OnErr result (timer_load self.now offset width ≡ None) }
    {
        match Half::of_access(offset, width) {
            Some(half) => Ok(self.registers.reading(half)),
            None => Err(Fault),
        }
    }

    /// Stores the low `width` bytes of `word`. `Fault`, with nothing changed, exactly where the port
    /// has no such access.
    #[inline]
    #[tactic(auto, unfolding(crate::specs::Timer::timer_store))]
    pub fn store(&mut self, offset: u32, width: u32, word: u32) -> Result<(), Fault>
        ensures ok { OnOk result (timer_store self.old offset width word ≡ Some self.new) }
        ensures fault { OnErr result (timer_store self.old offset width word ≡ None) }
        ensures unchanged { OnErr result (self.new ≡ self.old) }
    {
        match Half::of_access(offset, width) {
            Some(half) => {
                self.registers.put(half, word);
                Ok(())
            }
            None => Err(Fault),
        }
    }

    /// Whether the timer asks for an interrupt.
    #[inline]
    pub fn is_due(&self) -> bool
        ensures { result ≡ is_due self.now }
    {
        self.registers.mtime >= self.registers.mtimecmp
    }

    /// Whether a store at this offset writes a half of mtime.
    #[inline]
    pub fn writes_mtime(offset: u32) -> bool
        ensures { result ≡ writes_mtime offset }
    {
        offset == MTIME_LOW || offset == MTIME_HIGH
    }

    /// Counts a step, which wrote a half of mtime or did not.
    #[inline]
    pub fn count(&mut self, wrote_mtime: bool)
        ensures { self.new ≡ timer_counted self.old wrote_mtime }
    {
        if !wrote_mtime {
            self.registers.mtime = self.registers.mtime.wrapping_add(1);
        }
    }
}
