// Fills with a tile (document 02, R-7), and pixels one by one.
ghost use Rattle.std.specs.Prelude.{◌≡◌, true, ◌*◌, ◌<◌, min, length};
ghost use Rattle.commands.specs.Visits.{count_of};
ghost use Rattle.commands.specs.Hatching.{fill_after};
ghost use Rattle.commands.specs.Steps.{scene, visits_of};
ghost use Rattle.leaps.specs.Leaps.{can_leap, goes_by_tile, Visited, rest_in, left_in};
ghost use Rattle.leaps.specs.ListRuns.{BurstDone, HatchDone};

use crate::visits::{Visits, stretch, tiling, visit_each};
use blits::draw_tiled;
use commands::Engine;
use entries::command_of;
use geometry::Extent;
use tiles::Fill;

// The pixels of a buffer of that extent.
pub(crate) fn area(extent: Extent) -> usize
    ensures { result ≡ extent.width * extent.height }
{
    (extent.width as usize) * (extent.height as usize)
}

// The engine after a number of steps.
#[derive(Clone, Copy)]
pub struct Burst {
    pub engine: Engine,
    pub steps: u64,
}

// An engine on buffers of an extent, with how many pixels its command visits.
#[derive(Clone, Copy)]
pub struct Counted {
    pub engine: Engine,
    pub extent: Extent,
    pub count: usize,
    ghost counted: { count ≡ count_of extent engine },
}

impl Counted {
    fn new(engine: Engine, extent: Extent) -> Counted
        ensures { (result.engine ≡ engine) × (result.extent ≡ extent) }
    {
        Counted {
            engine,
            extent,
            count: engine.count(extent),
        }
    }

    // How many are left.
    fn rest(self) -> usize
        ensures { result ≡ rest_in self.extent self.engine }
    {
        self.count.saturating_sub(self.engine.visited as usize)
    }

    // The same; one where the count says that none is.
    fn left(self) -> usize
        ensures { result ≡ left_in self.extent self.engine }
    {
        self.rest().max(1)
    }

    // Whether n pixels, no more than are left, can be visited at once on these buffers.
    #[tactic(auto, unfolding(crate::specs::Leaps::can_leap))]
    fn can_leap(self, n: usize, display: usize, virt: usize) -> bool
        ensures { result ≡ can_leap self.extent self.engine n display virt }
    {
        let area = area(self.extent);
        let e = self.engine;
        e.under_way & (0 < n) & (n <= self.rest()) & (display == area) & (virt == area)
    }

    // n pixels of a fill with a tile, row by row.
    fn visit_rows(self, fill: Fill, n: usize, display: &mut [u8], virt: &mut [u8]) -> Engine
        requires { goes_by_tile self.extent self.engine n (length display.old) (length virt.old) ≡ true }
        ensures { scene result (fill_after result fill) display.new virt.new ≡ visits_of n self.extent (scene self.engine fill display.old virt.old) }
    {
        let mut e = self.engine;
        if fill.whole {
            let t = tiling(e, self.extent);
            let r = stretch(e, t.window, self.count, n);
            if command_of(e.registers.cmd).to_virtual {
                draw_tiled(t, fill.tile, r.from, r.len(), virt);
            } else {
                draw_tiled(t, fill.tile, r.from, r.len(), display);
            }
        }
        Visits::some(e.pattern, n, self.rest()).leave(&mut e);
        e
    }

    // n pixels, of a fill with a tile row by row where that goes.
    #[tactic(auto, unfolding(crate::specs::Leaps::goes_by_tile))]
    fn visit(self, fill: Fill, n: usize, display: &mut [u8], virt: &mut [u8]) -> Engine
        ensures { Visited n self.extent (scene self.engine fill display.old virt.old) result display.new virt.new }
    {
        let c = command_of(self.engine.registers.cmd);
        let leaps = self.can_leap(n, display.len(), virt.len());
        if leaps & c.is_blit() & c.apat & !c.solid {
            return self.visit_rows(fill, n, display, virt);
        }
        visit_each(self.engine, self.extent, fill, n, display, virt)
    }

    // As many as the budget allows; one where the count says that none is left.
    fn visit_within(self, fill: Fill, budget: u64, display: &mut [u8], virt: &mut [u8]) -> Burst
        ensures steps { result.steps ≡ min budget (left_in self.extent self.engine) }
        ensures visited { Visited result.steps self.extent (scene self.engine fill display.old virt.old) result.engine display.new virt.new }
    {
        let n = (budget as usize).min(self.left());
        Burst {
            engine: self.visit(fill, n, display, virt),
            steps: n as u64,
        }
    }
}

// Pixels of the command under way, as many as the budget allows, and at least one; of a fill with a tile all or none.
pub(crate) fn visit_up_to(
    e: Engine,
    extent: Extent,
    budget: u64,
    display: &mut [u8],
    virt: &mut [u8],
) -> Burst
    requires { (e.under_way ≡ true) × (0 < budget) }
    ensures { BurstDone budget extent e display.old virt.old result display.new virt.new }
{
    let c = Counted::new(e, extent);
    if e.hatches() & ((budget as usize) < c.left()) {
        return Burst {
            engine: e,
            steps: 0,
        };
    }
    c.visit_within(e.fill_taken(extent, display, virt), budget, display, virt)
}

// The pixels of a fill with a tile that is under way, as many as the budget allows; none where no such fill is.
pub fn hatch(
    e: Engine,
    extent: Extent,
    fill: Fill,
    budget: u64,
    display: &mut [u8],
    virt: &mut [u8],
) -> Burst
    ensures { HatchDone budget extent (scene e fill display.old virt.old) result.steps result.engine display.new virt.new }
{
    if !e.hatches() | (budget == 0) {
        return Burst {
            engine: e,
            steps: 0,
        };
    }
    Counted::new(e, extent).visit_within(fill, budget, display, virt)
}
