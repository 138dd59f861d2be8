// Many pixels of a blit at once, row by row (document 01, Pixels): which of them are visible (ranges.rt), in parts of columns and rows
// (parts.rt), where these lie (places.rt), and the loop over rows (row_loops.rt). Where the source is bits: its rows (bit_loops.rt), one
// of them (bits.rt), and the pixels of one byte (eights.rt). Where it is a tile: tiled.rt.

#![tactic(auto)]

mod bit_loops;
mod bits;
mod eights;
mod parts;
mod places;
mod ranges;
mod row_loops;
mod tiled;

ghost use Rattle.std.specs.Prelude.{◌≡◌, ◌-◌};
ghost use Rattle.blits.specs.Blits.{window_inside, blit_fits, blitted};

use crate::parts::{Filled, Painted, draw_visits, draw_whole};
use crate::ranges::{visible_of, window_ranges};
use geometry::{ORIGIN, Window, blit_count};
use raster::Pen;
use rows::Mix;
use stipples::Stipple;
pub use tiled::{Tiling, draw_tiled};

// What a blit is painted from: a pen, bytes or bits of the other buffer, or those of the buffer that is drawn on.
#[derive(Clone, Copy)]
pub enum Paint {
    Solid(Pen),
    Copied(Mix),
    Moved(Mix),
    Stippled(Stipple),
    StippledWithin(Stipple),
}

// A blit from corner to corner, by register words, on buffers of width x height pixels. What it is painted with comes first: so
// it is stored a while before it is read.
#[derive(Clone, Copy)]
pub struct Blit {
    pub paint: Paint,
    pub width: u32,
    pub height: u32,
    pub window: Window,
    pub from: u32,
    pub to: u32,
    pub size: u32,
    // Kept: XY3's word, here and below, as the other registers' words: `draw_blit` draws by every word (`blitted`).
    pub direction: u32,
}

// Whether both buffers have the blit's size, with the window inside, and the blit so many visits.
fn blit_fits(b: Blit, first: usize, n: usize, other: usize, own: usize) -> bool
    ensures { result ≡ blit_fits b first n other own }
{
    let w = b.window;
    let area = (b.width as usize) * (b.height as usize);
    let count = blit_count(b.size);
    (own == area)
        & (other == area)
        & window_inside(b.width, b.height, w)
        & ((n <= count) & (first <= count.saturating_sub(n)))
}

fn window_inside(width: u32, height: u32, w: Window) -> bool
    ensures { result ≡ window_inside width height w }
{
    (ORIGIN <= w.left)
        & (w.right <= ORIGIN + width as usize)
        & (ORIGIN <= w.top)
        & (w.bottom <= ORIGIN + height as usize)
}

// n visits of a blit from visit `first` on, on `buffer`; `other` is the buffer that is not drawn on. A whole blit with one pen is most
// common, and needs no source: so it is chosen first.
pub fn draw_blit(b: Blit, first: usize, n: usize, buffer: &mut [u8], other: &[u8])
    ensures { buffer.new ≡ blitted b first n other.now buffer.old }
{
    if !blit_fits(b, first, n, other.len(), buffer.len()) {
        return;
    }
    if n == 0 {
        return;
    }
    let painted = Painted { blit: b, other };
    if n == blit_count(b.size) {
        if let Paint::Solid(pen) = b.paint {
            let shown = window_ranges(b.window, b.to, b.direction);
            draw_whole(Filled { painted, pen }, shown, b.size, buffer);
            return;
        }
        draw_whole(painted, visible_of(b), b.size, buffer);
        return;
    }
    draw_visits(painted, visible_of(b), b.size, first, n, buffer);
}
