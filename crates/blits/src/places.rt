// Where the rows of a blit begin in a buffer.
ghost use Rattle.std.specs.Prelude.{◌≡◌, ◌+◌, ◌-◌, ◌*◌, ◌≤◌, ◌<◌};
ghost use Rattle.geometry.specs.Coordinates.{origin};
ghost use Rattle.geometry.specs.Blit.{away};
ghost use Rattle.blits.specs.Blits.{source_pixels};
ghost use Rattle.blits.specs.Places.{left_edge, place_at};

use crate::Paint;
use geometry::{ORIGIN, Range, point_of};

// k from c, on or back; back no further than 0.
pub(crate) fn along(back: bool, c: usize, k: usize) -> usize
    requires { c + k < 18446744073709551616 }
    ensures { result ≡ away back c k }
{
    if back { c.saturating_sub(k) } else { c + k }
}

// The left edge of some columns, where there is one.
pub(crate) fn left_edge(back: bool, x: usize, across: Range) -> usize
    requires { (65536 ≤ x) × (x < 131072) × (across.from < across.past) × (across.past ≤ 65536) }
    ensures { result ≡ left_edge back x across.from across.past }
{
    if back {
        x - (across.past - 1)
    } else {
        x + across.from
    }
}

// The place of a pixel in a buffer of rows of `width` pixels.
fn place_in(width: usize, x: usize, y: usize) -> usize
    requires { (width < 34359738368) × (x < 262144) × (y < 262144) }
    ensures { result ≡ (y - origin) * width + (x - origin) }
{
    y.saturating_sub(ORIGIN) * width + x.saturating_sub(ORIGIN)
}

// Where some columns of a row begin, in a blit that starts at a corner.
pub(crate) fn place_at(
    corner: u32,
    width: usize,
    direction: u32,
    across: Range,
    row: usize,
) -> usize
    requires { (width < 34359738368) × (across.from < across.past) × (across.past ≤ 65536) × (row < 65536) }
    ensures { result ≡ place_at corner width direction across.from across.past row }
{
    let c = point_of(corner);
    let x = left_edge(direction / 2 % 2 == 1, c.x, across);
    let y = along(direction % 2 == 1, c.y, row);
    place_in(width, x, y)
}

// The source pixels in a row of `width` bytes: eight in each byte of bits.
pub(crate) fn source_width(paint: Paint, width: u32) -> usize
    ensures { result ≡ source_pixels paint width }
{
    match paint {
        Paint::Solid(_) => width as usize,
        Paint::Copied(_) => width as usize,
        Paint::Moved(_) => width as usize,
        Paint::Stippled(_) => 8 * (width as usize),
        Paint::StippledWithin(_) => 8 * (width as usize),
    }
}
