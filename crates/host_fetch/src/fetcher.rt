//! Who fetches pages.

ghost use Rattle.std.specs.Prelude.{◌≤◌};
ghost use Rattle.host_fetch.specs.declared.fetch_page.TheConstants.{MAX_AHEAD};

use crate::fetch_page::MAX_AHEAD;
use image_depot::Depot;
use page_claims::Claims;
use std::alloc::Global;

/// Fetches pages of a depot.
#[derive(Drop)]
pub struct Fetcher<'a> {
    /// Who has the pages.
    pub depot: &'a Depot,
    /// The claims of its pages: who asks for one claims it.
    pub claims: &'a Claims,
    /// The most pages that it asks for beside a wanted one.
    pub ahead: u32,
    /// Where a reply that waits is kept, and a page that has come.
    pub alloc: Global,
    ghost few: { ahead ≤ MAX_AHEAD },
}
