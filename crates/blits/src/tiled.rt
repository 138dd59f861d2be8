// Blits from a tile (document 02, R-7): copies from a buffer that the tile covers, each pixel from its own place.
ghost use Rattle.std.specs.Prelude.{◌≡◌, Bool, true, List, ℕ, ◌+◌, ◌-◌, ◌≤◌, ◌<◌, length};
ghost use Rattle.rows.specs.Rows.{mixed, unkeyed, tiled};
ghost use Rattle.tiles.specs.Tiles.{doubled_of};
ghost use Rattle.blits.specs.Blits.{window_inside, blitted};
ghost use Rattle.blits.specs.Ranges.{visible_of};
ghost use Rattle.blits.specs.Tiled.{copy_of, plane_of, wide_pixel, Doubled};

use crate::parts::{DrawPart, draw_visits, draw_whole, is_empty};
use crate::places::{along, left_edge, place_at};
use crate::ranges::window_ranges;
use crate::row_loops::{DrawRow, Rows, draw_rows};
use crate::{Blit, Paint, blit_fits};
use geometry::{Part, Window, blit_count, point_of};
use raster::Selectors;
use rows::{Mix, tile_row};
use tiles::{Tile, put_twice};

// A blit from a tile to a corner, by register words, on a buffer of width x height pixels.
#[derive(Clone, Copy)]
pub struct Tiling {
    pub selectors: Selectors,
    pub width: u32,
    pub height: u32,
    pub window: Window,
    pub to: u32,
    pub size: u32,
    // Kept: XY3's word, as in Blit.
    pub direction: u32,
}

// The copy that draws the same.
fn copy_of(t: Tiling) -> Blit
    ensures { result ≡ copy_of t }
{
    let selectors = t.selectors;
    let window = t.window;
    let mix = Mix {
        selectors,
        key: None,
    };
    Blit {
        paint: Paint::Copied(mix),
        width: t.width,
        height: t.height,
        window,
        from: t.to,
        to: t.to,
        size: t.size,
        direction: t.direction,
    }
}

// Pixels of a tile, from column x of it on; the source is its row. `wide` has the tile's rows, each twice.
#[derive(Clone, Copy)]
struct TileRow<'a> {
    wide: &'a [u8; 256],
    x: usize,
    selectors: Selectors,
}

impl DrawRow for TileRow<'_> {
    ghost fits = { λ row own at y n. (at + n ≤ own) × Doubled row.wide.now };

    ghost drawn = { λ row at y n l. tiled (mixed (unkeyed row.selectors)) n l at (λ i. wide_pixel row.wide.now y (row.x + i)) };

    fn draw(self, buffer: &mut [u8], at: usize, from: usize, n: usize) {
        let wide = self.wide;
        tile_row(buffer, at, n, wide, self.x, from, self.selectors);
    }
}

// A blit from a tile, with the tile's rows, each twice: an array, so that no row asks how long they are.
#[derive(Clone, Copy)]
pub struct Tiled<'a> {
    pub tiling: Tiling,
    pub tile: &'a Tile,
    pub wide: &'a [u8; 256],
    pub ghost twice: { wide.now ≡ doubled_of tile.now },
}

impl DrawPart for Tiled<'_> {
    ghost blit = { λ d. copy_of d.tiling };

    ghost other = { λ d. plane_of d.tiling.width d.tiling.height d.tile.now };

    fn draw(self, part: Part, buffer: &mut [u8]) {
        if is_empty(part) {
            return;
        }
        let t = self.tiling;
        let corner = point_of(t.to);
        let x = left_edge(t.direction / 2 % 2 == 1, corner.x, part.columns);
        let rows = Rows {
            up: t.direction % 2 == 1,
            width: t.width as usize,
            stride: 1,
            at: place_at(
                t.to,
                t.width as usize,
                t.direction,
                part.columns,
                part.rows.from,
            ),
            from: along(t.direction % 2 == 1, corner.y, part.rows.from),
            n: part.columns.len(),
            count: part.rows.len(),
        };
        let row = TileRow {
            wide: self.wide,
            x,
            selectors: t.selectors,
        };
        draw_rows(row, rows, buffer);
    }
}

// The visible columns and rows, by the window alone: a pixel of the window is in the buffer.
fn shown_of(t: Tiling) -> Part
    requires { window_inside t.width t.height t.window ≡ true }
    ensures { result ≡ visible_of (copy_of t) }
{
    window_ranges(t.window, t.to, t.direction)
}

// n visits of a blit from a tile, from visit `first` on.
pub fn draw_tiled(t: Tiling, tile: Tile, first: usize, n: usize, buffer: &mut [u8])
    ensures { buffer.new ≡ blitted (copy_of t) first n (plane_of t.width t.height tile) buffer.old }
{
    if !blit_fits(copy_of(t), first, n, buffer.len(), buffer.len()) {
        return;
    }
    if n == 0 {
        return;
    }
    let mut wide: [u8; 256] = [0; 256];
    put_twice(tile, &mut wide);
    let tiled = Tiled {
        tiling: t,
        tile: &tile,
        wide: &wide,
    };
    let shown = shown_of(t);
    if n == blit_count(t.size) {
        draw_whole(tiled, shown, t.size, buffer);
        return;
    }
    draw_visits(tiled, shown, t.size, first, n, buffer);
}
