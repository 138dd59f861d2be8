// The two editions of a list file, and the way from each to the other (document 02, R-4). A board is not known here.

#![tactic(auto)]

mod conversions;
mod groups;
mod judging;
mod outcomes;
mod writing;

pub use conversions::{pack, unpack};
pub use outcomes::{FileRefusal, FileStatus, Filed};
