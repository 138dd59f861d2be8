// The entries of a display list: their layout, the fields of their data, and which are legal (document 01, Entry layout).

#![tactic(auto)]

mod decoding;
mod fields;
mod legality;

pub use decoding::{Entry, entry_at, word_at};
pub use fields::{
    Command, Opcode, PatternControl, TRIGGER, command_of, is_trigger, pattern_control_of,
    pattern_length,
};
pub use legality::{legal_at, legal_cmd, legal_data, legal_entry, legal_pctrl};
