// The fill of a board record as words of 32 bits (document 02, R-7): whether a tile is held, and its pixels, four a word.
ghost use Rattle.std.specs.Prelude.{◌≡◌, ◌++◌, ◌<◌, take, drop, replicate};
ghost use Rattle.pramolyt.specs.FillImage.{fill_at, tile_blank_in, tile_word, row_in, tile_in, fill_in, fill_words};

use crate::image::{FILL, TILE, WORDS};
use tiles::{Fill, Row, Tile, no_fill};

// Whether every word of the tile is 0; all are tested, with no early end.
pub(crate) fn tile_blank_in(w: [u32; WORDS]) -> bool
    ensures { result ≡ tile_blank_in w }
{
    let mut blank = true;
    for i in 0..32 {
        blank &= w[TILE + i] == 0;
    }
    blank
}

// A row's pixels: the bytes of its four words, from the least significant on.
fn row_in(w: [u32; WORDS], j: usize) -> Row
    requires { j < 8 }
    ensures { result ≡ row_in w j }
{
    let mut pixels = [0; 16];
    for (i, pixel) in pixels.iter_mut().enumerate() {
        *pixel = w[TILE + 4 * j + i / 4].to_le_bytes()[i % 4];
    }
    Row { pixels }
}

fn tile_in(w: [u32; WORDS]) -> Tile
    ensures { result ≡ tile_in w }
{
    let mut rows = [Row { pixels: [0; 16] }; 8];
    for (j, row) in rows.iter_mut().enumerate() {
        *row = row_in(w, j);
    }
    Tile { rows }
}

// The fill of an image.
pub(crate) fn fill_in(w: [u32; WORDS]) -> Fill
    ensures { result ≡ fill_in w }
{
    if w[FILL] == 1 {
        return Fill {
            whole: true,
            tile: tile_in(w),
        };
    }
    no_fill()
}

// Word i of a tile's words.
fn tile_word(tile: Tile, i: usize) -> u32
    requires { i < 32 }
    ensures { result ≡ tile_word tile i }
{
    let p = tile.rows[i / 4].pixels;
    let m = 4 * (i % 4);
    u32::from_le_bytes([p[m], p[m + 1], p[m + 2], p[m + 3]])
}

// An image with a fill's words, which were zeros.
pub(crate) fn put_fill(mut w: [u32; WORDS], f: Fill) -> [u32; WORDS]
    requires { drop fill_at w ≡ replicate 33 0 }
    ensures { result ≡ take fill_at w ++ fill_words f }
{
    if !f.whole {
        return w;
    }
    w[FILL] = 1;
    for i in 0..32 {
        w[TILE + i] = tile_word(f.tile, i);
    }
    w
}
