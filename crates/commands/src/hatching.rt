// The tile of a fill: taken at the trigger, kept until the last pixel, and judged in a record.
ghost use Rattle.std.specs.Prelude.{◌≡◌};
ghost use Rattle.commands.specs.Hatching.{hatches, fill_taken, fill_after};
ghost use Rattle.commands.specs.Record.{fill_ok};

use crate::Engine;
use entries::command_of;
use geometry::Extent;
use tiles::{Fill, is_none, no_fill, tile_at, whole_at};

impl Engine {
    // Whether a fill with a tile is under way.
    pub fn hatches(self) -> bool
        ensures { result ≡ hatches self }
    {
        let g = self.registers;
        let c = command_of(g.cmd);
        let blit = c.is_blit();
        self.under_way & (blit & c.apat)
    }

    // What an entry takes, which left this engine: the tile at XY0 in the source buffer, for a fill with one.
    pub fn fill_taken(self, extent: Extent, display: &[u8], virt: &[u8]) -> Fill
        ensures { result ≡ fill_taken extent self display.now virt.now }
    {
        let g = self.registers;
        let c = command_of(g.cmd);
        if !self.hatches() {
            return no_fill();
        }
        let source = if c.from_virtual { virt } else { display };
        tile_at(source, extent, g.xy0)
    }

    // What is held after a visit, which left this engine.
    pub fn fill_after(self, fill: Fill) -> Fill
        ensures { result ≡ fill_after self fill }
    {
        if self.under_way { fill } else { no_fill() }
    }

    // Whether a record may hold this fill beside this engine.
    pub fn fill_ok(self, extent: Extent, fill: Fill) -> bool
        ensures { result ≡ fill_ok extent self fill }
    {
        let g = self.registers;
        if self.hatches() & whole_at(extent, g.xy0) {
            return fill.whole;
        }
        is_none(fill)
    }
}
