// A tile out of a buffer.
ghost use Rattle.std.specs.Prelude.{◌≡◌, ℕ, ◌+◌, ◌*◌, ◌≤◌, ◌<◌, length, get_or};
ghost use Rattle.tiles.specs.Tiles.{no_row, row_of, tile_of, whole_at, fill_of};

use crate::{Fill, Row, Tile, no_fill};
use geometry::{Extent, ORIGIN, point_of};

// A row that the buffer has: sixteen bytes, so one load and one store.
fn row_within(buffer: &[u8], at: usize) -> Row
    requires { at + 16 ≤ length buffer.now }
    ensures { result ≡ row_of buffer.now at }
{
    let mut pixels = [0; 16];
    pixels.copy_from_slice(&buffer[at..at + 16]);
    Row { pixels }
}

// A row of which the buffer may lack some; a byte past its end is 0.
fn row_at(buffer: &[u8], at: usize) -> Row
    ensures { result ≡ row_of buffer.now at }
{
    let rest = &buffer[at.min(buffer.len())..];
    let n = rest.len().min(16);
    let mut pixels = [0; 16];
    pixels[..n].copy_from_slice(&rest[..n]);
    Row { pixels }
}

// The tile of these rows.
fn tile_by<F: Fn(usize) -> Row>(row: F) -> Tile
    requires { (j : ℕ) → j < 8 → F.pre row j }
    ensures long { length result.rows ≡ 8 }
    ensures each { (j : ℕ) → j < 8 → F.post row j (get_or result.rows j no_row) }
{
    let mut rows = [Row { pixels: [0; 16] }; 8];
    for (j, taken) in rows.iter_mut().enumerate() {
        *taken = row(j);
    }
    Tile { rows }
}

// The tile whose upper left pixel is at `at`, in a buffer whose rows are `width` pixels. Where the buffer has all eight rows,
// no row is tested.
fn take_tile(buffer: &[u8], width: usize, at: usize) -> Tile
    requires { (width < 4294967296) × (at < 4611686018427387904) }
    ensures { result ≡ tile_of buffer.now width at }
{
    if at + 7 * width + 16 <= buffer.len() {
        return tile_by(|j| row_within(buffer, at + j * width));
    }
    tile_by(|j| row_at(buffer, at + j * width))
}

// Whether the tile with this upper left corner, a register's word, lies wholly inside a buffer.
pub fn whole_at(extent: Extent, corner: u32) -> bool
    ensures { result ≡ whole_at extent corner }
{
    let p = point_of(corner);
    (ORIGIN <= p.x)
        & (ORIGIN <= p.y)
        & (p.x + 16 <= ORIGIN + extent.width as usize)
        & (p.y + 8 <= ORIGIN + extent.height as usize)
}

// What a fill takes at its trigger: the tile with this upper left corner, where it is whole.
pub fn tile_at(buffer: &[u8], extent: Extent, corner: u32) -> Fill
    ensures { result ≡ fill_of extent corner buffer.now }
{
    if !whole_at(extent, corner) {
        return no_fill();
    }
    let p = point_of(corner);
    let width = extent.width as usize;
    let at = (p.y - ORIGIN) * width + (p.x - ORIGIN);
    Fill {
        whole: true,
        tile: take_tile(buffer, width, at),
    }
}
