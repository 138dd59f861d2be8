// Binary PGM pictures (Netpbm P5) with greatest grey 255: writing one and reading one (document 02, R-9). A board is not known
// here.

#![tactic(auto)]

mod headers;
mod reading;
mod sizes;
mod writing;

pub use reading::{ReadError, read_picture};
pub use writing::{WriteError, write_picture};
