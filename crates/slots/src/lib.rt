// The slots of a board: its sizes, the lists in them, and what post, store, window write, export and import answer by them (document 01, What
// the engine has, and What the host hears). Registers and drawing are not known here.

#![tactic(auto)]

mod calls;
mod picturing;
mod record;

pub use calls::{held, none_held, post_status, put_fitting, store_into, within, write_into};
pub use picturing::{export_into, import_into};
pub use record::{Active, Sizes, Slot};
