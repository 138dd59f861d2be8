// The register file, and the line pattern's state (document 01, Entry layout and Pixels).

#![tactic(auto)]

mod dashes;
mod file;
mod states;

pub use dashes::{Pattern, advance};
pub use file::Registers;
pub use states::state_ok;
