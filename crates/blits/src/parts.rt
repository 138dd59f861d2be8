// Parts of a blit: its visits in some columns of some rows.
ghost use Rattle.std.specs.Prelude.{◌≡◌, Bool, true, ◌||◌, List, ℕ, ◌+◌, ◌-◌, ◌<◌, leb, min, length};
ghost use Rattle.geometry.specs.Blit.{blit_count};
ghost use Rattle.lemmas.specs.Turns.{in_turn};
ghost use Rattle.blits.specs.Blits.{visited, Fitting, AtOnce};
ghost use Rattle.blits.specs.Ranges.{Shown};
ghost use Rattle.blits.specs.declared.Blit.{Blit};
ghost use Rattle.blits.specs.declared.Paint.TheVariants.{Solid};
ghost use Rattle.blits.specs.Rows.{blit_box, BoxShown};

use crate::Blit;
use crate::places::{place_at, source_width};
use crate::ranges::cut;
use crate::row_loops::{Rows, fill_rows, paint_rows};
use geometry::Part;
use raster::Pen;

// What draws some columns of some rows of a blit.
pub(crate) trait DrawPart {
    // The blit, and the buffer that is not drawn on.
    ghost blit: { Self → Blit };

    ghost other: { Self → List ℕ };

    fn draw(self, part: Part, buffer: &mut [u8])
        requires { BoxShown (blit self) part.columns part.rows (length (other self)) (length buffer.old) }
        ensures { buffer.new ≡ blit_box (blit self) part.columns part.rows (other self) buffer.old };
}

pub(crate) fn is_empty(part: Part) -> bool
    ensures { result ≡ (leb part.columns.past part.columns.from || leb part.rows.past part.rows.from) }
{
    (part.columns.past <= part.columns.from) | (part.rows.past <= part.rows.from)
}

// By whatever paint.
#[derive(Clone, Copy)]
pub struct Painted<'a> {
    pub blit: Blit,
    pub other: &'a [u8],
}

impl DrawPart for Painted<'_> {
    ghost blit = { λ d. d.blit };

    ghost other = { λ d. d.other.now };

    #[inline(always)]
    fn draw(self, part: Part, buffer: &mut [u8]) {
        if is_empty(part) {
            return;
        }
        let b = self.blit;
        let width = b.width as usize;
        let stride = source_width(b.paint, b.width);
        let rows = Rows {
            up: b.direction % 2 == 1,
            width,
            stride,
            at: place_at(b.to, width, b.direction, part.columns, part.rows.from),
            from: place_at(b.from, stride, b.direction, part.columns, part.rows.from),
            n: part.columns.len(),
            count: part.rows.len(),
        };
        paint_rows(b.paint, b.direction / 2 % 2 == 1, rows, buffer, self.other);
    }
}

// With the one pen that it is painted with.
#[derive(Clone, Copy)]
pub struct Filled<'a> {
    pub painted: Painted<'a>,
    pub pen: Pen,
    pub ghost solid: { painted.blit.paint ≡ Solid pen },
}

impl DrawPart for Filled<'_> {
    ghost blit = { λ d. d.painted.blit };

    ghost other = { λ d. d.painted.other.now };

    #[inline(always)]
    fn draw(self, part: Part, buffer: &mut [u8]) {
        if is_empty(part) {
            return;
        }
        let b = self.painted.blit;
        let width = b.width as usize;
        let rows = Rows {
            up: b.direction % 2 == 1,
            width,
            stride: 0,
            at: place_at(b.to, width, b.direction, part.columns, part.rows.from),
            from: 0,
            n: part.columns.len(),
            count: part.rows.len(),
        };
        fill_rows(rows, buffer, self.pen);
    }
}

// A whole blit.
pub(crate) fn draw_whole<D: DrawPart>(d: D, shown: Part, size: u32, buffer: &mut [u8])
    requires what { Shown (D.blit d) shown size }
    requires fits { (0 < blit_count size) × Fitting (D.blit d) 0 (blit_count size) (length (D.other d)) (length buffer.old) }
    ensures { buffer.new ≡ in_turn (visited (D.blit d) (D.other d)) (blit_count size) buffer.old }
{
    let columns = cut(shown.columns, 0, (size / 65536) as usize);
    let rows = cut(shown.rows, 0, (size % 65536) as usize);
    d.draw(Part { columns, rows }, buffer);
}

// In how many rows the next m visits of a row are drawn at once, of `left` visits: in whole rows, or in one.
fn rows_at_once(across: usize, m: usize, left: usize) -> usize
    requires { 0 < across }
    ensures { (column : ℕ) → column < across → m ≡ min left (across - column) → AtOnce across column m left result }
{
    if m < across {
        return 1;
    }
    left / across
}

// n visits from visit `first` on: what is left of a row, whole rows, and the start of a row.
pub(crate) fn draw_visits<D: DrawPart + Copy>(
    d: D,
    shown: Part,
    size: u32,
    first: usize,
    n: usize,
    buffer: &mut [u8],
)
    requires what { Shown (D.blit d) shown size }
    requires fits { (0 < n) × Fitting (D.blit d) first n (length (D.other d)) (length buffer.old) }
    ensures { buffer.new ≡ in_turn (λ i. visited (D.blit d) (D.other d) (first + i)) n buffer.old }
{
    let across = (size / 65536) as usize;
    let mut row = first / across;
    let mut column = first % across;
    let mut k: usize = 0;
    // Kept: no plainer as a `for`, since a turn adds the visits of its part to k, and its rows to row.
    while first + k < first + n {
        let m = (n - k).min(across - column);
        let down = rows_at_once(across, m, n - k);
        let columns = cut(shown.columns, column, m);
        let rows = cut(shown.rows, row, down);
        d.draw(Part { columns, rows }, buffer);
        k += m * down;
        row += down;
        column = 0;
    }
}
