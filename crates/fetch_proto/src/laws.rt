//! Laws of the definitions, each the contract of a function that does nothing.

ghost use Rattle.std.specs.Prelude.{◌≡◌, ℕ, ◌+◌, ◌<◌, ◌≤◌, Some};
ghost use Rattle.fetch_proto.specs.Number.{page_number, page_place};

use crate::number::FIRST_DISK_PAGE;

/// The numbers of the pages of an image are those of its places, and no other numbers.
pub fn numbers_are_places()
    ensures read_back { (ram disk place : ℕ) → ram ≤ FIRST_DISK_PAGE → place < ram + disk → page_place ram disk (page_number ram place) ≡ Some place }
    ensures there { (ram disk number place : ℕ) → page_place ram disk number ≡ Some place → place < ram + disk }
    ensures numbered { (ram disk number place : ℕ) → page_place ram disk number ≡ Some place → page_number ram place ≡ number }
{}
