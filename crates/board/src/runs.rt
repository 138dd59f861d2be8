// A run of steps: a fill with a tile that is held, the steps with none held, and a fill with a tile that the budget cuts.
ghost use Rattle.std.specs.Prelude.{◌≡◌};
ghost use Rattle.board.specs.Steps.{machine};
ghost use Rattle.board.specs.Runs.{outcome, run_call};
ghost use Rattle.board.specs.Bare.{bare_of, Accepts, part_by, HatchRan};

use crate::answer::Answer;
use crate::bare::Bare;
use crate::record::Board;
use answers::{Heard, Part, Refusal};
use std::ops::ControlFlow;

// What the steps of a held fill answer.
#[derive(Clone, Copy)]
pub struct HatchAnswer {
    pub part: Part,
    pub board: Board,
}

// The run ends with the steps of a fill where it is under way still, for want of budget, and else goes on.
fn part_by(under_way: bool, steps: u64) -> Part
    ensures { result ≡ part_by under_way steps }
{
    if under_way {
        ControlFlow::Break(Ok(steps))
    } else {
        ControlFlow::Continue(steps)
    }
}

impl Board {
    // Why a run with lent memories of these lengths is refused, if it is.
    fn accepts(self, list: usize, display: usize, virt: usize) -> Result<(), Refusal>
        ensures { Accepts list display virt self result }
    {
        self.checked()?;
        if !self.sizes.lent_ok(list, display, virt) {
            return Err(Refusal::WrongSize);
        }
        Ok(())
    }

    // The steps of a fill with a tile that is held, as many as the budget allows; none where none is held.
    pub fn hatch(self, budget: u64, list: &[u8], display: &mut [u8], virt: &mut [u8]) -> HatchAnswer
        ensures { HatchRan budget list.now (machine self display.old virt.old) result display.new virt.new }
    {
        match self.accepts(list.len(), display.len(), virt.len()) {
            Ok(()) => (),
            Err(refusal) => {
                return HatchAnswer {
                    part: ControlFlow::Break(Err(refusal)),
                    board: self,
                };
            }
        }
        if !self.engine.hatches() {
            return HatchAnswer {
                part: ControlFlow::Continue(0),
                board: self,
            };
        }
        let b = leaps::hatch(
            self.engine,
            self.sizes.extent,
            self.fill,
            budget,
            display,
            virt,
        );
        let g = b.engine;
        HatchAnswer {
            part: part_by(g.hatches(), b.steps),
            board: self.moved(self.active.cursor, g, g.fill_after(self.fill)),
        }
    }

    // The record without its tile.
    fn bare(self) -> Bare
        ensures { result ≡ bare_of self }
    {
        Bare {
            sizes: self.sizes,
            active: self.active,
            pending: self.pending,
            engine: self.engine,
        }
    }

    // A run, with a budget of steps. The lists are read from list memory; both buffers are drawn on.
    pub fn run(self, budget: u64, list: &[u8], display: &mut [u8], virt: &mut [u8]) -> Answer
        ensures { outcome result display.new virt.new ≡ run_call budget list.now (machine self display.old virt.old) }
    {
        let h = self.hatch(budget, list, display, virt);
        let done = match h.part {
            ControlFlow::Break(status) => {
                return Answer {
                    status,
                    board: h.board,
                };
            }
            ControlFlow::Continue(steps) => steps,
        };
        let r = h.board.bare().run_steps(done, budget, list, display, virt);
        let b = r.bare.held(display, virt);
        let k = match r.part {
            ControlFlow::Break(status) => return Answer { status, board: b },
            ControlFlow::Continue(steps) => steps,
        };
        let last = b.hatch(budget - k, list, display, virt);
        Answer {
            status: Ok(k + last.part.steps()),
            board: last.board,
        }
    }
}
