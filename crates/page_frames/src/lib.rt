//! Pages of memory that are shared until they are written, and the entries of page tables.
#![tactic(auto)]

mod entry;
pub mod laws;
mod page;
mod table;

pub use entry::{Entry, PageTable};
pub use page::{PAGE_SIZE, Page};
pub use table::{write_own_page, write_page};
