// A display list in list memory: its span, the first entry of it that is illegal, the places that it holds, and where a run
// stands in it (document 01, What the engine has, and Steps). Slots and drawing are not known here.

#![tactic(auto)]

mod cursors;
mod spans;

pub use cursors::{Cursor, Next};
pub use spans::{Span, first_illegal};
