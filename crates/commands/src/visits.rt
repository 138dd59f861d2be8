// What the command in CMD visits.
ghost use Rattle.std.specs.Prelude.{◌≡◌, cond};
ghost use Rattle.commands.specs.declared.Engine.{Engine};
ghost use Rattle.commands.specs.Entering.{numbered};
ghost use Rattle.commands.specs.Visits.{line_start, window_in, count_of, cell_at, position_of, target_from};

use crate::Engine;
use entries::command_of;
use geometry::{
    Cell, Extent, Point, Window, blit_cell, cell_visit, line_count, line_visit, place_of, rect_of,
    visible_count, visible_index, window_of,
};

// Where a line starts: a polyline at the last point.
fn start_of(polyline: bool, last: u32, xy0: u32) -> u32
    ensures { result ≡ cond polyline last xy0 }
{
    if polyline { last } else { xy0 }
}

// How many pixels a command visits, by all the numbers that decide it. They come one by one: an engine handed over would be
// copied, and its copy would wait for the register that was written last.
pub(crate) fn count_by(
    width: u32,
    height: u32,
    cmd: u32,
    last: u32,
    xy0: u32,
    xy1: u32,
    xy2: u32,
    xy3: u32,
    clptl: u32,
    clpbr: u32,
) -> usize
    ensures { (e : Engine) → result ≡ count_of (record { width = width; height = height }) (numbered e cmd last xy0 xy1 xy2 xy3 clptl clpbr) }
{
    let c = command_of(cmd);
    if c.is_blit() {
        let extent = Extent { width, height };
        return visible_count(xy1, xy2, xy3, window_of(extent, c.clip, clptl, clpbr));
    }
    if c.is_line() {
        let start = start_of(c.is_polyline(), last, xy0);
        return line_count(start, xy1, c.nlst);
    }
    0
}

impl Engine {
    // Where the line in CMD starts.
    pub fn line_start(self) -> u32
        ensures { result ≡ line_start self }
    {
        let g = self.registers;
        let c = command_of(g.cmd);
        start_of(c.is_polyline(), self.last, g.xy0)
    }

    // The part of a buffer that clip and buffer let through.
    pub fn window(self, extent: Extent) -> Window
        ensures { result ≡ window_in extent self.registers }
    {
        let g = self.registers;
        let c = command_of(g.cmd);
        window_of(extent, c.clip, g.clptl, g.clpbr)
    }

    // How many pixels the command in CMD visits.
    pub fn count(self, extent: Extent) -> usize
        ensures { result ≡ count_of extent self }
    {
        let g = self.registers;
        count_by(
            extent.width,
            extent.height,
            g.cmd,
            self.last,
            g.xy0,
            g.xy1,
            g.xy2,
            g.xy3,
            g.clptl,
            g.clpbr,
        )
    }

    // The cell of its visit k, if it is a blit.
    pub(crate) fn cell(self, extent: Extent, k: usize) -> Option<Cell>
        ensures { result ≡ cell_at extent self k }
    {
        let g = self.registers;
        let c = command_of(g.cmd);
        if !c.is_blit() {
            return None;
        }
        let i = visible_index(g.xy1, g.xy2, g.xy3, self.window(extent), k);
        blit_cell(g.xy2, i)
    }

    // Where its visit k lies, which is at a cell if it is a blit.
    #[tactic(auto, unfolding(crate::specs::Visits::position_of))]
    fn position(self, k: usize, cell: Option<Cell>) -> Option<Point>
        ensures { result ≡ position_of self k cell }
    {
        let g = self.registers;
        let c = command_of(g.cmd);
        if c.is_blit() {
            return cell_visit(g.xy1, g.xy3, cell);
        }
        if c.is_line() {
            return line_visit(self.line_start(), g.xy1, c.nlst, k);
        }
        None
    }

    // The place of visit k in its buffer, where buffer and clip let it through.
    pub(crate) fn target(self, extent: Extent, k: usize, cell: Option<Cell>) -> Option<usize>
        ensures { result ≡ target_from extent self k cell }
    {
        let g = self.registers;
        let c = command_of(g.cmd);
        let p = self.position(k, cell)?;
        if c.clip & !rect_of(g.clptl, g.clpbr).contains(p) {
            return None;
        }
        place_of(extent, p)
    }
}
