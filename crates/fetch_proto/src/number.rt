ghost use Rattle.std.specs.Prelude.{◌≡◌, ◌+◌, ◌≤◌, ◌<◌};
ghost use Rattle.fetch_proto.specs.Number.{page_number, page_place};

/// The number of the first page of a disk. Those of RAM have the numbers below, from 0 on.
pub const FIRST_DISK_PAGE: u32 = 0x8000_0000;

/// The number of a page, by its place in an image that has so many pages of RAM. Their places come first, and then those
/// of the pages of its disk.
#[tactic(auto, unfolding(crate::specs::Number::page_number))]
pub fn page_number(ram_pages: u32, place: u32) -> u32
    requires { place < ram_pages + FIRST_DISK_PAGE }
    ensures { result ≡ page_number ram_pages place }
{
    if place < ram_pages {
        place
    } else {
        FIRST_DISK_PAGE + (place - ram_pages)
    }
}

/// The place of the page with a number, in an image that has so many pages of RAM and so many of its disk; `None` exactly
/// where it has no such page.
#[tactic(auto, unfolding(crate::specs::Number::page_place))]
pub fn page_place(ram_pages: u32, disk_pages: u32, number: u32) -> Option<u32>
    requires { ram_pages + disk_pages ≤ u32.MAX }
    ensures { result ≡ page_place ram_pages disk_pages number }
{
    if number < ram_pages {
        Some(number)
    } else if number >= FIRST_DISK_PAGE && number - FIRST_DISK_PAGE < disk_pages {
        Some(ram_pages + (number - FIRST_DISK_PAGE))
    } else {
        None
    }
}
