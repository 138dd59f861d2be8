// The part of a blit that a window lets through: some of its columns in some of its rows (document 02, R-6).
ghost use Rattle.std.specs.Prelude.{◌≡◌, ◌<◌};
ghost use Rattle.geometry.specs.Coordinates.{point_of};
ghost use Rattle.geometry.specs.Blit.{width_of};
ghost use Rattle.geometry.specs.Visible.{length_of, visible_range, visible_part, shows_whole, visible_count, index_in, visible_index, IndexFits};

use crate::{Window, blit_count, point_of};

// Columns or rows by their numbers, counted from the corner: `from` to the one before `past`.
#[derive(Clone, Copy)]
pub struct Range {
    pub from: usize,
    pub past: usize,
}

impl Range {
    pub fn len(self) -> usize
        ensures { result ≡ length_of self }
    {
        self.past.saturating_sub(self.from)
    }
}

// The columns and the rows of a rectangle's part.
#[derive(Clone, Copy)]
pub struct Part {
    pub columns: Range,
    pub rows: Range,
}

impl Part {
    // The number of its cell k among all cells of a blit.
    fn index(self, size: u32, k: usize) -> usize
        requires { IndexFits (width_of size) self.rows.from self.columns.from (length_of self.columns) k }
        ensures { result ≡ index_in size self k }
    {
        let columns = self.columns.len();
        let row = self.rows.from + k / columns;
        let column = self.columns.from + k % columns;
        (size / 65536) as usize * row + column
    }
}

// Those of n columns or rows from c, on or back, that lie at low to before high.
#[tactic(auto, unfolding(crate::specs::Visible::visible_range))]
fn visible_range(back: bool, c: usize, low: usize, high: usize, n: usize) -> Range
    requires { c < 131072 }
    ensures { result ≡ visible_range back c low high n }
{
    if back {
        return Range {
            from: (c + 1).saturating_sub(high),
            past: n.min((c + 1).saturating_sub(low)),
        };
    }
    Range {
        from: low.saturating_sub(c),
        past: n.min(high.saturating_sub(c)),
    }
}

// The visible part of a blit that starts at a corner of the destination rectangle.
#[tactic(auto, unfolding(crate::specs::Coordinates::point_of))]
fn visible_part(corner: u32, size: u32, direction: u32, window: Window) -> Part
    ensures { result ≡ visible_part (point_of corner) size direction window }
{
    let c = point_of(corner);
    let width = (size / 65536) as usize;
    let height = (size % 65536) as usize;
    let back = direction / 2 % 2 == 1;
    let up = direction % 2 == 1;
    Part {
        columns: visible_range(back, c.x, window.left, window.right, width),
        rows: visible_range(up, c.y, window.top, window.bottom, height),
    }
}

// Whether a blit down and to the right of its corner shows whole, as most do.
#[tactic(auto, unfolding(crate::specs::Coordinates::point_of))]
fn shows_whole(corner: u32, size: u32, direction: u32, window: Window) -> bool
    ensures { result ≡ shows_whole (point_of corner) size direction window }
{
    let c = point_of(corner);
    let width = (size / 65536) as usize;
    let height = (size % 65536) as usize;
    (direction == 0)
        & (window.left <= c.x)
        & (c.x + width <= window.right)
        & (window.top <= c.y)
        & (c.y + height <= window.bottom)
}

// How many pixels of a blit are visible.
// Kept: a struct of corner, size and direction would be no plainer; each caller has them as XY1, XY2 and XY3, in one line.
pub fn visible_count(corner: u32, size: u32, direction: u32, window: Window) -> usize
    ensures { result ≡ visible_count (point_of corner) size direction window }
{
    if shows_whole(corner, size, direction, window) {
        return blit_count(size);
    }
    let part = visible_part(corner, size, direction, window);
    part.columns.len() * part.rows.len()
}

// Which of all visits of a blit its visible visit k is, or their count where there is no such visit.
#[tactic(auto, unfolding(crate::specs::Visible::visible_index))]
pub fn visible_index(corner: u32, size: u32, direction: u32, window: Window, k: usize) -> usize
    ensures { result ≡ visible_index (point_of corner) size direction window k }
{
    if visible_count(corner, size, direction, window) <= k {
        return blit_count(size);
    }
    let part = visible_part(corner, size, direction, window);
    part.index(size, k)
}
