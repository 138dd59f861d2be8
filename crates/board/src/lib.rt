// The board record and the host's calls (document 01, What the engine has, What the host hears, and Steps).

#![tactic(auto)]

mod answer;
mod bare;
mod calls;
mod feeding;
mod picturing;
mod record;
mod runs;
mod steps;

pub use answer::{Answer, ExportAnswer, FeedAnswer};
pub use bare::{Bare, BareAnswer};
pub use record::Board;
pub use runs::HatchAnswer;
