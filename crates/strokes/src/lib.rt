// Many pixels of a line at once, by an error term and additions.

#![tactic(auto)]

ghost use Rattle.std.specs.Prelude.{◌≡◌};
ghost use Rattle.geometry.specs.Coordinates.{point_of};
ghost use Rattle.strokes.specs.Phases.{back_pen};
ghost use Rattle.strokes.specs.Strokes.{window_fits, stroke_fits, stroke_of, dashed, dashes_of};

mod bresenham;
mod lines;
mod masks;
mod phases;
mod ranges;
mod tracers;

use crate::bresenham::{dash_visible, draw_visible};
use crate::lines::Line;
use entries::PatternControl;
use geometry::{ORIGIN, Window};
use raster::Pen;
use registers::Pattern;

// What a dashed line draws with: LPAT, a pen for each of its bits, unless 0 bits draw nothing, and PCTRL's length and scale.
#[derive(Clone, Copy)]
pub struct Dashes {
    pub lpat: u32,
    pub fore: Pen,
    pub back: Option<Pen>,
    pub control: PatternControl,
}

impl Dashes {
    // The pen of a 0 bit: where it draws nothing, one that leaves a byte as it is.
    fn back_pen(self) -> Pen
        ensures { result ≡ back_pen self }
    {
        self.back.unwrap_or(Pen { keep: 255, flip: 0 })
    }
}

// Whether a window lies in a buffer of `long` bytes, in rows of `width` pixels.
fn window_fits(width: u32, w: Window, long: usize) -> bool
    ensures { result ≡ window_fits width w long }
{
    if ORIGIN + 65536 < w.bottom {
        return false;
    }
    let rows = w.bottom.saturating_sub(ORIGIN);
    (ORIGIN <= w.left)
        & (w.right <= ORIGIN + width as usize)
        & (ORIGIN <= w.top)
        & (w.bottom <= ORIGIN + 65536)
        & (rows * (width as usize) <= long)
}

// Whether the window lies in the buffer, and n pixels from `first` on on a line.
fn stroke_fits(width: u32, w: Window, line: Line, first: usize, n: usize, long: usize) -> bool
    ensures { result ≡ stroke_fits width w line.from line.to first n long }
{
    let most = line.steps + 1;
    window_fits(width, w, long) & (n <= most) & (first <= most.saturating_sub(n))
}

// n pixels of the line from `from` to `to`, its pixel `first` and those after it, on a buffer of rows of `width` pixels.
pub fn draw_line(
    buffer: &mut [u8],
    width: u32,
    window: Window,
    pen: Pen,
    from: u32,
    to: u32,
    first: usize,
    n: usize,
)
    ensures { buffer.new ≡ stroke_of width window pen (point_of from) (point_of to) first n buffer.old }
{
    let Some(line) = Line::between(from, to) else {
        return;
    };
    if !stroke_fits(width, window, line, first, n, buffer.len()) {
        return;
    }
    let Some(visible) = line.visible(window, first, n) else {
        return;
    };
    let tracer = line.tracer_at(visible.from);
    draw_visible(buffer, width, pen, tracer, visible.len());
}

// The same in dashes, from a pattern state to the one after them. Where pixels are hidden the pattern moves in one go.
pub fn draw_dashes(
    buffer: &mut [u8],
    width: u32,
    window: Window,
    dashes: Dashes,
    start: Pattern,
    from: u32,
    to: u32,
    first: usize,
    n: usize,
) -> Pattern
    ensures { dashed buffer.new result ≡ dashes_of width window dashes (point_of from) (point_of to) first n (dashed buffer.old start) }
{
    let Some(line) = Line::between(from, to) else {
        return start;
    };
    if !stroke_fits(width, window, line, first, n, buffer.len()) {
        return start;
    }
    let control = dashes.control;
    let Some(visible) = line.visible(window, first, n) else {
        return start.after(control, n as u32);
    };
    let entering = start.after(control, (visible.from - first) as u32);
    let tracer = line.tracer_at(visible.from);
    let leaving = dash_visible(buffer, width, dashes, entering, tracer, visible.len());
    leaving.after(control, (first + n - visible.past) as u32)
}
