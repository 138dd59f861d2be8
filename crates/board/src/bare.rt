// A board record without a tile, and a run of it: what most calls begin and end with. Nothing of a tile is copied here.
ghost use Rattle.std.specs.Prelude.{◌≡◌, true, List, ℕ, ◌-◌, ◌≤◌};
ghost use Rattle.commands.specs.Hatching.{fill_taken};
ghost use Rattle.board.specs.Record.{well_formed};
ghost use Rattle.board.specs.Steps.{with_steps, settled_of};
ghost use Rattle.board.specs.Runs.{added, run_call};
ghost use Rattle.board.specs.Bare.{tiled_board, tiled, Accepts, Accepted, Leaps, BareRan};

use crate::record::Board;
use answers::{Part, Refusal};
use commands::Engine;
use leaps::run_list;
use lists::{Cursor, Span};
use slots::{Active, Sizes, Slot};
use std::ops::ControlFlow;

// A record with no tile held. Where a fill with a tile is under way, its tile is the one that stands in the buffers.
// Kept: four fields that Board has too. A Board of a Bare and a fill would rename what theorems of specs/ read (b.active in StaysBusy).
#[derive(Clone, Copy)]
pub struct Bare {
    pub sizes: Sizes,
    pub active: Active,
    pub pending: Slot,
    pub engine: Engine,
}

// What a run of one answers. It goes on before a fill with a tile whose last pixel the budget does not reach: the rest of the budget
// is then not spent.
#[derive(Clone, Copy)]
pub struct BareAnswer {
    pub part: Part,
    pub bare: Bare,
}

// Steps of the active list: the record after them, and whether an illegal entry ended them within the budget.
// Kept: `broken` beside the steps, which are taken in both cases.
#[derive(Clone, Copy)]
pub struct Leap {
    pub bare: Bare,
    pub steps: u64,
    pub broken: bool,
}

impl Bare {
    // Kept: beside Board's, whose definition (`well_formed`) tests the fill among these parts.
    fn well_formed(self) -> bool
        ensures { (d v : List ℕ) → result ≡ well_formed (tiled_board self d v) }
    {
        let z = self.sizes;
        let e = self.engine;
        z.in_limits()
            & e.well_formed(z.extent)
            & self.active.well_formed(z.entries, e.under_way)
            & self.pending.well_formed(z.entries)
            & (self.active.taken | (!self.pending.taken & !e.under_way))
    }

    // With the list and the engine that steps of the active list leave. Once its last step is done a list leaves, and the pending
    // list becomes active.
    // Kept: beside Board's, which keeps the fill that the steps leave; here it is the one that stands in the buffers.
    fn moved(self, cursor: Cursor, engine: Engine) -> Bare
        ensures { (d v : List ℕ) → tiled_board result d v ≡ settled_of (with_steps (tiled_board self d v) cursor engine (fill_taken self.sizes.extent engine d v)) }
    {
        if cursor.ended(engine.under_way) {
            return Bare {
                active: Active::on(self.pending),
                pending: Slot {
                    taken: false,
                    span: Span { start: 0, count: 0 },
                },
                engine,
                ..self
            };
        }
        Bare {
            active: Active {
                cursor,
                ..self.active
            },
            engine,
            ..self
        }
    }

    // As many steps of the active list as the budget allows.
    fn leap(self, list: &[u8], budget: u64, display: &mut [u8], virt: &mut [u8]) -> Leap
        requires { Accepted list.now (tiled self display.old virt.old) × (self.active.taken ≡ true) × (1 ≤ budget) }
        ensures { Leaps list.now (tiled self display.old virt.old) budget result (tiled result.bare display.new virt.new) }
    {
        let r = run_list(
            self.engine,
            self.sizes.extent,
            self.active.cursor,
            budget,
            list,
            display,
            virt,
        );
        Leap {
            bare: self.moved(r.cursor, r.engine),
            steps: r.steps,
            broken: r.broken,
        }
    }

    // As many steps as the budget allows after those that are done, list by list.
    pub(crate) fn run_steps(
        self,
        done: u64,
        budget: u64,
        list: &[u8],
        display: &mut [u8],
        virt: &mut [u8],
    ) -> BareAnswer
        requires { Accepted list.now (tiled self display.old virt.old) × (done ≤ budget) }
        ensures { BareRan budget list.now (added done (run_call (budget - done) list.now (tiled self display.old virt.old))) self result display.new virt.new }
    {
        let mut b = self;
        let mut k: u64 = done;
        // Kept: no plainer as a `for`, since a turn adds the steps of a list to k.
        while (k < budget) & b.active.taken {
            let r = b.leap(list, budget - k, display, virt);
            b = r.bare;
            k += r.steps;
            if r.broken {
                return BareAnswer {
                    part: ControlFlow::Break(Err(Refusal::IllegalFetch(k))),
                    bare: b,
                };
            }
            if b.engine.hatches() {
                return BareAnswer {
                    part: ControlFlow::Continue(k),
                    bare: b,
                };
            }
        }
        BareAnswer {
            part: ControlFlow::Break(Ok(k)),
            bare: b,
        }
    }

    // Why a run with lent memories of these lengths is refused, if it is.
    // Kept: beside Board's, for its `well_formed` is another.
    fn accepts(self, list: usize, display: usize, virt: usize) -> Result<(), Refusal>
        ensures { (d v : List ℕ) → Accepts list display virt (tiled_board self d v) result }
    {
        if !self.well_formed() {
            return Err(Refusal::Malformed);
        }
        if !self.sizes.lent_ok(list, display, virt) {
            return Err(Refusal::WrongSize);
        }
        Ok(())
    }

    // A run, with a budget of steps. The lists are read from list memory; both buffers are drawn on.
    pub fn run(self, budget: u64, list: &[u8], display: &mut [u8], virt: &mut [u8]) -> BareAnswer
        ensures { BareRan budget list.now (run_call budget list.now (tiled self display.old virt.old)) self result display.new virt.new }
    {
        match self.accepts(list.len(), display.len(), virt.len()) {
            Ok(()) => self.run_steps(0, budget, list, display, virt),
            Err(refusal) => BareAnswer {
                part: ControlFlow::Break(Err(refusal)),
                bare: self,
            },
        }
    }

    // The record with the tile that stands in the buffers, where a fill with one is under way.
    pub fn held(self, display: &[u8], virt: &[u8]) -> Board
        ensures { result ≡ tiled_board self display.now virt.now }
    {
        Board {
            sizes: self.sizes,
            active: self.active,
            pending: self.pending,
            engine: self.engine,
            fill: self.engine.fill_taken(self.sizes.extent, display, virt),
        }
    }
}
