// Many steps at once, by contract so many of the plain steps of `commands`: pixels of one command (visits.rt), of a fill with a tile
// (hatched.rt), and pixels and entries of one display list (list_runs.rt).

#![tactic(auto)]

mod hatched;
mod list_runs;
mod visits;

pub use hatched::{Burst, hatch};
pub use list_runs::{ListRun, run_list};
