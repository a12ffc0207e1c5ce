//! That the fields of a descriptor fit their types, which is known of each where it is read.

ghost use Rattle.std.specs.Prelude.{◌≡◌, ◌<◌, ◌^◌, length, IfSome};
ghost use Rattle.vm_descriptor.specs.Descriptor.{IsInRange};
ghost use Rattle.vm_descriptor.specs.Described.{AreWords, Fits};

use crate::descriptor::Descriptor;
use block_port::BlockFields;
use console_port::ConsoleFields;
use guest_pmp::PmpRegisters;
use rv_traps::CsrRegisters;
use timer_port::TimerRegisters;

impl Descriptor {
    /// Each field of a descriptor in range fits its type.
    pub(crate) fn fits(&self)
        requires { IsInRange self.now }
        ensures { Fits self.now }
    {
        self.numbers_fit();
        self.counts_fit();
        registers_fit(&self.registers);
        csrs_fit(&self.csrs);
        entries_fit(&self.csrs.pmp);
        counters_fit(&self.csrs);
        timer_fits(&self.timer);
        reservation_fits(self.reservation);
        console_fits(&self.console);
        block_fits(&self.block);
        self.arguments_fit();
    }

    fn numbers_fit(&self)
        ensures image { self.now.image < 2 ^ 32 }
        ensures pages { self.now.pages < 2 ^ 32 }
        ensures clone_id { self.now.clone_id < 2 ^ 32 }
        ensures share { self.now.share < 2 ^ 32 }
        ensures pc { self.now.pc < 2 ^ 32 }
    {
        let _image = self.image;
        let _pages = self.pages;
        let _clone_id = self.clone_id;
        let _share = self.share;
        let _pc = self.pc;
    }

    fn counts_fit(&self)
        ensures steps { self.now.steps < 2 ^ 64 }
        ensures limit { self.now.limit < 2 ^ 64 }
    {
        let _steps = self.steps;
        let _limit = self.limit;
    }

    fn arguments_fit(&self)
        ensures argument_0 { self.now.argument_0 < 2 ^ 32 }
        ensures argument_1 { self.now.argument_1 < 2 ^ 32 }
        ensures join_select { self.now.join_select < 2 ^ 32 }
        ensures granted { self.now.granted < 2 ^ 32 }
    {
        let _argument_0 = self.argument_0;
        let _argument_1 = self.argument_1;
        let _join_select = self.join_select;
        let _granted = self.granted;
    }
}

fn registers_fit(registers: &[u32; 31])
    ensures words { AreWords registers.now }
    ensures each { length registers.now ≡ 31 }
{
    let _ = registers[0];
}

fn csrs_fit(csrs: &CsrRegisters)
    ensures mstatus { csrs.now.mstatus < 2 ^ 32 }
    ensures mie { csrs.now.mie < 2 ^ 32 }
    ensures mtvec { csrs.now.mtvec < 2 ^ 32 }
    ensures mscratch { csrs.now.mscratch < 2 ^ 32 }
    ensures mepc { csrs.now.mepc < 2 ^ 32 }
    ensures mcause { csrs.now.mcause < 2 ^ 32 }
    ensures mtval { csrs.now.mtval < 2 ^ 32 }
{
    let _mstatus = csrs.mstatus;
    let _mie = csrs.mie;
    let _mtvec = csrs.mtvec;
    let _mscratch = csrs.mscratch;
    let _mepc = csrs.mepc;
    let _mcause = csrs.mcause;
    let _mtval = csrs.mtval;
}

fn entries_fit(pmp: &PmpRegisters)
    ensures configurations { length pmp.now.configurations ≡ 8 }
    ensures addresses { length pmp.now.addresses ≡ 8 }
    ensures words { AreWords pmp.now.addresses }
{
    let _ = pmp.configurations[0];
    let _ = pmp.addresses[0];
}

fn counters_fit(csrs: &CsrRegisters)
    ensures mcycle { csrs.now.mcycle < 2 ^ 64 }
    ensures minstret { csrs.now.minstret < 2 ^ 64 }
{
    let _mcycle = csrs.mcycle;
    let _minstret = csrs.minstret;
}

fn timer_fits(timer: &TimerRegisters)
    ensures mtime { timer.now.mtime < 2 ^ 64 }
    ensures mtimecmp { timer.now.mtimecmp < 2 ^ 64 }
{
    let _mtime = timer.mtime;
    let _mtimecmp = timer.mtimecmp;
}

fn reservation_fits(reservation: Option<u32>)
    ensures { IfSome reservation (λ address. address < 2 ^ 32) }
{
    let _ = reservation;
}

fn console_fits(console: &ConsoleFields)
    ensures place { console.now.place < 2 ^ 32 }
    ensures line_control { console.now.line_control < 2 ^ 8 }
{
    let _place = console.place;
    let _line_control = console.line_control;
}

fn block_fits(block: &BlockFields)
    ensures sector { block.now.sector < 2 ^ 32 }
    ensures buffer { length block.now.buffer ≡ 512 }
{
    let _sector = block.sector;
    let _buffer = block.buffer[0];
}
