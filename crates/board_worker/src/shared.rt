//! What workers share.

ghost use Rattle.std.specs.Prelude.{◌≡◌, ◌≤◌};
ghost use Rattle.host_fetch.specs.declared.fetch_page.TheConstants.{MAX_AHEAD};
ghost use Rattle.fork_board.specs.Follows.{depot_of};

use crate::lookout::Lookout;
use fork_board::Board;
use host_fetch::MAX_AHEAD;
use image_depot::Depot;
use page_claims::Claims;
use std::alloc::Global;

/// How workers run machines.
#[derive(Drop)]
pub struct Settings<G> {
    /// What a worker calls at points of its way.
    pub gate: G,
    /// How many steps it runs a machine before it first looks up; more than 1,000 are 1,000.
    pub slice: u32,
    /// The most pages that it asks for beside a wanted one.
    pub ahead: u32,
    ghost few: { ahead ≤ MAX_AHEAD },
}

/// Where workers run machines: a board, the depot of its images, and the claims of their pages.
#[derive(Drop)]
pub struct Site<'a> {
    /// The board, whose machines they take.
    pub board: &'a Board,
    /// Who has the images of the board's clones.
    pub depot: &'a Depot,
    /// Who has asked for which of their pages first.
    pub claims: &'a Claims,
    ghost of_board: { depot_of board.now.opening ≡ depot.now },
}

/// What all workers of a board share.
#[derive(Drop)]
pub struct Shared<'a, G> {
    /// The board, whose machines they take.
    pub board: &'a Board,
    /// Who has asked for which pages first.
    pub claims: &'a Claims,
    /// Who has the images of the board's clones.
    pub depot: &'a Depot,
    /// How they run machines.
    pub settings: &'a Settings<G>,
    /// Which of them sleep.
    pub lookout: Lookout,
    /// Where each takes its memory from.
    pub alloc: Global,
    ghost of_board: { depot_of board.now.opening ≡ depot.now },
}
