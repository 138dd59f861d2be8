// The board record, and whether it is well formed.
ghost use Rattle.std.specs.Prelude.{◌≡◌};
ghost use Rattle.slots.specs.Calls.{Tested};
ghost use Rattle.board.specs.Record.{order_ok, well_formed};

use answers::Refusal;
use commands::Engine;
use slots::{Active, Sizes, Slot};
use tiles::Fill;

#[derive(Clone, Copy)]
pub struct Board {
    pub sizes: Sizes,
    pub active: Active,
    pub pending: Slot,
    pub engine: Engine,
    pub fill: Fill,
}

impl Board {
    fn order_ok(self) -> bool
        ensures { result ≡ order_ok self }
    {
        self.active.taken | (!self.pending.taken & !self.engine.under_way)
    }

    // Whether the record is well formed: its parts, and what they are to one another.
    pub fn well_formed(self) -> bool
        ensures { result ≡ well_formed self }
    {
        let z = self.sizes;
        let e = self.engine;
        z.in_limits()
            & e.well_formed(z.extent)
            & e.fill_ok(z.extent, self.fill)
            & self.active.well_formed(z.entries, e.under_way)
            & self.pending.well_formed(z.entries)
            & self.order_ok()
    }

    // The first test of each call but make.
    pub(crate) fn checked(self) -> Result<(), Refusal>
        ensures { Tested (well_formed self) Refusal.Malformed result }
    {
        if self.well_formed() {
            Ok(())
        } else {
            Err(Refusal::Malformed)
        }
    }
}
