// The end of a list, and the record after steps of its active list.
ghost use Rattle.std.specs.Prelude.{◌≡◌};
ghost use Rattle.board.specs.Steps.{with_steps, settled_of};

use crate::record::Board;
use commands::Engine;
use lists::{Cursor, Span};
use slots::{Active, Slot};
use tiles::Fill;

impl Board {
    // Once its last step is done a list leaves, and the pending list becomes active.
    pub(crate) fn settled(self) -> Board
        ensures { result ≡ settled_of self }
    {
        if !self.active.cursor.ended(self.engine.under_way) {
            return self;
        }
        Board {
            active: Active::on(self.pending),
            pending: Slot {
                taken: false,
                span: Span { start: 0, count: 0 },
            },
            ..self
        }
    }

    // With the list, the engine and the fill that steps of the active list leave.
    pub(crate) fn moved(self, cursor: Cursor, engine: Engine, fill: Fill) -> Board
        ensures { result ≡ settled_of (with_steps self cursor engine fill) }
    {
        let b = Board {
            active: Active {
                cursor,
                ..self.active
            },
            engine,
            fill,
            ..self
        };
        b.settled()
    }
}
