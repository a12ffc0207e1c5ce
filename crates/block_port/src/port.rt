ghost use Rattle.std.specs.Prelude.{◌≡◌, ℕ, ◌+◌, ◌-◌, ◌*◌, ◌<◌, ◌≤◌, ◌↔◌, true, false, List, Some, None, IsErr, IfOk, OnOk, OnErr, IsErrOf, IfSome, IsNone, IsTrue};
ghost use Rattle.cow_disk.specs.declared.disk.TheConstants.{PAGE_SECTORS};
ghost use Rattle.cow_disk.specs.Disk.{sector_count};
ghost use Rattle.cow_disk.specs.Paged.{disk_over, here_pages, is_page_here, page_of_sector, Arrives, IsPageBelow};
ghost use Rattle.block_port.specs.Block.{IsTouchedHere, WritesSector, block_load, block_over, block_store, commanded, is_in_buffer, is_sector_command, parts_at_start, touched_page};

use crate::registers::{
    BLOCK_BUFFER, BLOCK_COMMAND, BLOCK_COUNT, BLOCK_SECTOR, BLOCK_STATUS, READ_COMMAND,
    WRITE_COMMAND,
};
use crate::status::Status;
use cow_disk::{Arrived, Disk, PAGE_SECTORS, ReadError, SECTOR_SIZE, WriteError};
use flat_memory::{read_word, write_bytes};
use page_frames::PAGE_SIZE;
use port_error::{Fault, PortError};
use std::alloc::AllocError;
use std::marker::Model;

/// The registers of a block port that a clone of a machine starts with.
#[derive(Clone, Copy, Debug, PartialEq, Eq)]
pub struct BlockFields {
    pub sector: u32,
    pub status: Status,
    pub buffer: [u8; SECTOR_SIZE],
}

/// The block port, with its disk. Contracts see the disk's pages, and say of the registers what they are
/// over each disk below.
#[derive(Drop)]
pub struct BlockPort {
    sector: u32,
    status: Status,
    // At a place of its own, so that a machine is moved without it.
    buffer: Box<[u8; SECTOR_SIZE]>,
    disk: Disk,
}

impl Model for BlockPort {
    ghost use Rattle.block_port.specs.Block.{BlockParts};

    ghost Value = { BlockParts };

    ghost view = { λ p. record { sector = p.sector; status = p.status; buffer = p.buffer.value; disk = p.disk } };
}

impl BlockPort {
    /// Makes a port over this disk, with all registers 0. It takes no memory: the place of the buffer is handed in, and what
    /// stands there is overwritten.
    #[tactic(auto, unfolding(flat_memory::specs::Flat::zeros))]
    pub fn new(mut buffer: Box<[u8; SECTOR_SIZE]>, disk: Disk) -> BlockPort
        ensures { result ≡ parts_at_start disk }
    {
        *buffer = [0; SECTOR_SIZE];
        BlockPort {
            sector: 0,
            status: Status::Done,
            buffer,
            disk,
        }
    }

    /// Makes a port with these registers over this disk. It takes no memory: the place of the buffer is handed in, and what
    /// stands there is overwritten.
    pub fn of_fields(
        fields: &BlockFields,
        mut buffer: Box<[u8; SECTOR_SIZE]>,
        disk: Disk,
    ) -> BlockPort
        ensures { result ≡ record { sector = fields.now.sector; status = fields.now.status; buffer = fields.now.buffer; disk = disk } }
    {
        *buffer = fields.buffer;
        BlockPort {
            sector: fields.sector,
            status: fields.status,
            buffer,
            disk,
        }
    }

    /// The registers that a clone of the machine starts with.
    pub fn fields(&self) -> BlockFields
        ensures { result ≡ record { sector = self.now.sector; status = self.now.status; buffer = self.now.buffer } }
    {
        BlockFields {
            sector: self.sector,
            status: self.status,
            buffer: *self.buffer,
        }
    }

    pub fn disk(&self) -> &Disk
        ensures { result.now ≡ self.now.disk }
    {
        &self.disk
    }

    /// Whether a page of the disk is here.
    pub fn is_here(&self, page: u32) -> bool
        requires { PAGE_SECTORS * page < self.now.disk.sectors }
        ensures { result ≡ is_page_here self.now.disk page }
    {
        self.disk.is_here(page)
    }

    /// A page of the disk that was sent. The registers stay as they are.
    pub fn arrive(&mut self, page: u32, bytes: &[u8; PAGE_SIZE]) -> Result<Arrived, AllocError>
        requires { PAGE_SECTORS * page < self.old.disk.sectors }
        ensures ok { IfOk result (Arrives self.old.disk page bytes.now self.new.disk) }
        ensures registers { self.new ≡ record self.old { disk = self.new.disk } }
        // A page of the disk below changes nothing that is read.
        ensures reads { (below : List ℕ) → IsPageBelow self.old.disk page bytes.now below → block_over self.new below ≡ block_over self.old below }
        ensures err { OnErr result (self.new ≡ self.old) }
    {
        self.disk.arrive(page, bytes)
    }

    /// The page of the disk that a store touches: that of the sector which a command reads or writes.
    pub fn touched(&self, offset: u32, width: u32, word: u32) -> Option<u32>
        ensures value { (below : List ℕ) → result ≡ touched_page (block_over self.now below) offset width word }
        ensures there { IfSome result (λ page. PAGE_SECTORS * page < self.now.disk.sectors) }
        // So a store can be made where no page is touched, or that page is here.
        ensures none { IsNone result → IsTouchedHere self.now offset width word }
        ensures here { IfSome result (λ page. IsTrue (is_page_here self.now.disk page) → IsTouchedHere self.now offset width word) }
    {
        if is_sector_command(offset, width, word) && self.sector < self.disk.sectors() {
            Some(self.sector / PAGE_SECTORS)
        } else {
            None
        }
    }

    /// Loads a word. A load changes nothing here.
    pub fn load(&mut self, offset: u32, width: u32) -> Result<u32, Fault>
        ensures ok { IfOk result (λ word. (below : List ℕ) → block_load (block_over self.old below) offset width ≡ Some word) }
        ensures fault { (below : List ℕ) → (IsErr result ↔ (block_load (block_over self.old below) offset width ≡ None)) }
        ensures unchanged { self.new ≡ self.old }
    {
        match (offset, width) {
            (BLOCK_SECTOR, 4) => Ok(self.sector),
            (BLOCK_STATUS, 4) => Ok(self.status.word()),
            (BLOCK_COUNT, 4) => Ok(self.disk.sectors()),
            (_, 4) => match buffer_place(offset) {
                Some(at) => Ok(read_word(&*self.buffer, at)),
                None => Err(Fault),
            },
            _ => Err(Fault),
        }
    }

    /// Stores a word. The page that it touches is to be here.
    pub fn store(&mut self, offset: u32, width: u32, word: u32) -> Result<(), PortError>
        requires { IsTouchedHere self.old offset width word }
        ensures ok { OnOk result ((below : List ℕ) → block_store (block_over self.old below) offset width word ≡ Some (block_over self.new below)) }
        ensures fault { (below : List ℕ) → (IsErrOf result PortError.Fault ↔ (block_store (block_over self.old below) offset width word ≡ None)) }
        ensures pages { here_pages self.new.disk ≡ here_pages self.old.disk }
        ensures sectors { self.new.disk.sectors ≡ self.old.disk.sectors }
        ensures err { OnErr result (self.new ≡ self.old) }
        // Memory is wanted where a sector is written.
        ensures memory { IsErrOf result PortError.Memory → (below : List ℕ) → WritesSector (block_over self.old below) offset width word }
    {
        match (offset, width) {
            (BLOCK_SECTOR, 4) => self.sector = word,
            (BLOCK_COMMAND, 4) => self.command(word)?,
            (_, 4) => match buffer_place(offset) {
                Some(at) => write_bytes(&mut *self.buffer, at, &word.to_le_bytes()),
                None => return Err(PortError::Fault),
            },
            _ => return Err(PortError::Fault),
        }
        Ok(())
    }

    /// Runs a command. The page of the sector that it reads or writes is to be here.
    fn command(&mut self, command: u32) -> Result<(), AllocError>
        requires { IsTouchedHere self.old BLOCK_COMMAND 4 command }
        ensures ok { OnOk result ((below : List ℕ) → block_over self.new below ≡ commanded (block_over self.old below) command) }
        ensures pages { here_pages self.new.disk ≡ here_pages self.old.disk }
        ensures sectors { self.new.disk.sectors ≡ self.old.disk.sectors }
        ensures err { OnErr result (self.new ≡ self.old) }
        ensures memory { OnErr result ((command ≡ WRITE_COMMAND) × ((below : List ℕ) → self.old.sector < sector_count (disk_over self.old.disk below))) }
    {
        self.status = match command {
            READ_COMMAND => self.read(),
            WRITE_COMMAND => self.write()?,
            _ if self.sector >= self.disk.sectors() => Status::BadSector,
            _ => Status::UnknownCommand,
        };
        Ok(())
    }

    /// Reads the sector into the buffer, if there is such a sector.
    fn read(&mut self) -> Status
        requires { self.old.sector < self.old.disk.sectors → IsTrue (is_page_here self.old.disk (page_of_sector self.old.sector)) }
        ensures value { (below : List ℕ) → record (block_over self.new below) { status = result } ≡ commanded (block_over self.old below) READ_COMMAND }
        ensures disk { self.new.disk ≡ self.old.disk }
    {
        match self.disk.read_sector(self.sector, &mut *self.buffer) {
            Ok(()) => Status::Done,
            Err(ReadError::BadSector) => Status::BadSector,
            Err(ReadError::Absent(_)) => unreachable!(),
        }
    }

    /// Writes the buffer to the sector, if there is such a sector.
    fn write(&mut self) -> Result<Status, AllocError>
        requires { self.old.sector < self.old.disk.sectors → IsTrue (is_page_here self.old.disk (page_of_sector self.old.sector)) }
        ensures ok { IfOk result (λ status. (below : List ℕ) → record (block_over self.new below) { status = status } ≡ commanded (block_over self.old below) WRITE_COMMAND) }
        ensures pages { here_pages self.new.disk ≡ here_pages self.old.disk }
        ensures sectors { self.new.disk.sectors ≡ self.old.disk.sectors }
        ensures err { OnErr result (self.new ≡ self.old) }
        ensures memory { OnErr result ((below : List ℕ) → self.old.sector < sector_count (disk_over self.old.disk below)) }
    {
        match self.disk.write_sector(self.sector, &*self.buffer) {
            Ok(()) => Ok(Status::Done),
            Err(WriteError::BadSector) => Ok(Status::BadSector),
            Err(WriteError::Absent(_)) => unreachable!(),
            Err(WriteError::Memory) => Err(AllocError),
        }
    }
}

/// Whether a store is a command that reads or writes a sector.
fn is_sector_command(offset: u32, width: u32, word: u32) -> bool
    ensures { result ≡ is_sector_command offset width word }
{
    (word == READ_COMMAND || word == WRITE_COMMAND) && (offset == BLOCK_COMMAND && width == 4)
}

/// The place in the buffer of the word at an offset, if a word of the buffer is there.
fn buffer_place(offset: u32) -> Option<usize>
    ensures inside { IfSome result (λ at. (is_in_buffer offset ≡ true) × (at ≡ offset - BLOCK_BUFFER) × (at + 4 ≤ SECTOR_SIZE)) }
    ensures outside { IsNone result ↔ (is_in_buffer offset ≡ false) }
{
    let at = offset.checked_sub(BLOCK_BUFFER)? as usize;
    if at < SECTOR_SIZE && at % 4 == 0 {
        Some(at)
    } else {
        None
    }
}
