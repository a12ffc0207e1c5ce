//! Scripts: which texts are scripts and the lines that they are, and what a script makes of a forest of
//! machines and writes of it.
#![tactic(auto)]

mod answer;
mod driver;
mod error;
mod fields;
pub mod laws;
mod line;
mod name;
mod replies;
mod script;
mod turn;

pub use driver::drive;
pub use error::ScriptError;
pub use line::{MAX_PAGE, MAX_PLACE, MAX_STEPS, ScriptLine};
pub use name::NameText;
pub use script::{MAX_SCRIPT, Script, read_script};
