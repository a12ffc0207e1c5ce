//! What the versions of the format have of their own, and where the fields stand in all of them.

ghost use Rattle.std.specs.Prelude.{◌≡◌, ◌≤◌, IfSome, length};
ghost use Rattle.std.specs.Option.{option_copied};
ghost use Rattle.vm_descriptor.specs.Versions.{IsVersion, version_of};

/// What a version of the format has of its own.
pub struct Version {
    /// The first four bytes.
    pub mark: [u8; 4],
    /// The bytes of the fields, behind which the map stands.
    pub fields: usize,
    /// Whether the fields end with the entries of memory protection.
    pub has_entries: bool,
    /// Whether the map has either of two forms, and a byte before it tells which.
    pub has_forms: bool,
    /// The least pages of RAM that it can tell of.
    pub least_pages: u32,
    /// The most pages of RAM that it can tell of.
    pub most_pages: u32,
}

/// The first version. The bound on its pages is its own, whatever RAM a machine may have.
pub const VERSION_1: Version = Version {
    mark: [b'S', b'F', b'D', b'1'],
    fields: HEADER_SIZE,
    has_entries: false,
    has_forms: false,
    least_pages: 16,
    most_pages: 1024,
};

/// The second version.
pub const VERSION_2: Version = Version {
    mark: [b'S', b'F', b'D', b'2'],
    fields: HEADER_SIZE,
    has_entries: false,
    has_forms: true,
    least_pages: 16,
    most_pages: 16_384,
};

/// The newest version, which is the one that is written.
pub const VERSION_3: Version = Version {
    mark: [b'S', b'F', b'D', b'3'],
    fields: HEADER_SIZE + ENTRIES_SIZE,
    has_entries: true,
    has_forms: true,
    least_pages: 16,
    most_pages: 16_384,
};

/// All versions, the newest first.
static VERSIONS: [Version; 3] = [VERSION_3, VERSION_2, VERSION_1];

/// The version whose mark bytes begin with, if there is one.
pub fn version_of(bytes: &[u8]) -> Option<&'static Version>
    requires { 4 ≤ length bytes.now }
    ensures version { option_copied result ≡ version_of bytes.now }
    ensures known { IfSome result (λ version. IsVersion version.now) }
{
    let mark = bytes.split_at(4).0;
    for version in &VERSIONS {
        if mark == version.mark.as_slice() {
            return Some(version);
        }
    }
    None
}

/// Where the image number, the pages, the number of the clone, its share and pc begin.
pub const IDENTITY: usize = 4;

/// Where the pages stand.
pub const PAGES: usize = 8;

/// Where the number of the clone stands.
pub const CLONE_ID: usize = 12;

/// Where x1 to x31 begin.
pub const REGISTERS: usize = 24;

/// Where the control and status registers but the counters begin.
pub const CSRS: usize = 148;

/// Where the two counters begin.
pub const COUNTERS: usize = 176;

/// Where the timer's registers, the steps and the limit begin.
pub const TIMES: usize = 192;

/// Where the reservation and what the ports hold begin.
pub const PORTS: usize = 224;

/// Where the buffer of the block port begins.
pub const BUFFER: usize = 264;

/// The bytes of the fields that all versions have.
pub const HEADER_SIZE: usize = 776;

/// Where the addresses of the entries of memory protection begin. Their bytes stand before them.
pub const ADDRESSES: usize = 784;

/// The bytes of the entries of memory protection.
pub const ENTRIES_SIZE: usize = 40;
