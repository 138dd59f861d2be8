// Tiles of eight rows of sixteen pixels (document 02, R-7): taken from a buffer, kept by value while a fill runs, and made
// ready for the rows of the fill.

#![tactic(auto)]

mod taking;

ghost use Rattle.std.specs.Prelude.{◌≡◌};
ghost use Rattle.tiles.specs.Tiles.{pixel_of, twice_in, no_fill, row_blank, tile_blank, is_none};

pub use taking::{tile_at, whole_at};

#[derive(Clone, Copy)]
pub struct Row {
    pub pixels: [u8; 16],
}

#[derive(Clone, Copy)]
pub struct Tile {
    pub rows: [Row; 8],
}

// What a fill draws with: whether its tile was whole, and if so the tile; else zeros.
// Kept: what may not change (`is_none`): a record may come with the flag clear and bytes that are not zero, and is malformed
// then; an Option of a tile could not hold it.
#[derive(Clone, Copy)]
pub struct Fill {
    pub whole: bool,
    pub tile: Tile,
}

// Of a fill whose tile was not whole, and where there is no fill.
pub fn no_fill() -> Fill
    ensures { result ≡ no_fill }
{
    let blank = Row { pixels: [0; 16] };
    let tile = Tile { rows: [blank; 8] };
    Fill { whole: false, tile }
}

// The tile's pixel at column x and row y of the destination.
pub fn pixel(tile: Tile, x: usize, y: usize) -> u8
    ensures { result ≡ pixel_of tile x y }
{
    let i = x % 16;
    let j = y % 8;
    let row = tile.rows[j];
    row.pixels[i]
}

// Each row twice, in 256 bytes: sixteen from byte 32 y + x on are row y from column x on, and round.
pub fn put_twice(tile: Tile, bytes: &mut [u8])
    ensures { bytes.new ≡ twice_in tile bytes.old }
{
    if bytes.len() != 256 {
        return;
    }
    for (j, row) in tile.rows.iter().enumerate() {
        let at = 32 * j;
        bytes[at..at + 16].copy_from_slice(&row.pixels);
        bytes[at + 16..at + 32].copy_from_slice(&row.pixels);
    }
}

fn row_blank(row: Row) -> bool
    ensures { result ≡ row_blank row }
{
    row.pixels == [0; 16]
}

// All rows are tested, with no early end.
// Kept: tried and slower; `iter().all(..)`, or `==` derived for a tile, ends early, and takes twice as long where all is blank.
fn tile_blank(tile: Tile) -> bool
    ensures { result ≡ tile_blank tile }
{
    let mut blank = true;
    for row in &tile.rows {
        blank &= row_blank(*row);
    }
    blank
}

// Whether no tile is held: the flag and all bytes zero.
pub fn is_none(fill: Fill) -> bool
    ensures { result ≡ is_none fill }
{
    !fill.whole & tile_blank(fill.tile)
}
