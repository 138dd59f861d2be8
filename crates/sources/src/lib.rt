// The source of a pixel (document 01, Pixels): what a visit draws, or nothing, from the registers, the line pattern, the
// tile of a fill and the buffers as they stand. Where the pixel lies is not known here, but for the cell of a blit.

#![tactic(auto)]

ghost use Rattle.std.specs.Prelude.{◌≡◌, get_or};
ghost use Rattle.sources.specs.Sources.{by_bit, copied_of, stippled_of, read_of, tiled_of, dash_of, source_of};

use entries::Command;
use geometry::{Cell, Extent, ORIGIN, Point, cell_visit, place_of};
use registers::{Pattern, Registers};
use tiles::{Fill, pixel};

// A buffer's byte, 0 past its end.
fn byte_at(buffer: &[u8], at: usize) -> u32
    ensures { result ≡ get_or buffer.now at 0 }
{
    buffer.get(at).copied().unwrap_or(0) as u32
}

// A cell of a blit that copies from a buffer.
// Kept: a struct of c, g, extent and cell would be no plainer; it is made for one call, and each definition takes the four.
#[tactic(auto, unfolding(crate::specs::Sources::copied_of))]
fn copied(
    c: Command,
    g: Registers,
    extent: Extent,
    cell: Option<Cell>,
    buffer: &[u8],
) -> Option<u32>
    ensures { result ≡ copied_of c g extent cell buffer.now }
{
    let p = cell_visit(g.xy0, g.xy3, cell)?;
    let at = place_of(extent, p)?;
    let value = byte_at(buffer, at);
    if c.key & (value == g.key) {
        return None;
    }
    Some(value)
}

// What a bit draws, of a stipple or of a line's pattern.
fn by_bit(c: Command, g: Registers, one: bool) -> Option<u32>
    ensures { result ≡ by_bit c g one }
{
    if one {
        return Some(g.fore);
    }
    if c.trnsp {
        return None;
    }
    Some(g.back)
}

// A cell of a blit that reads bits of a buffer.
#[tactic(auto, using(crate::proofs::Reading::stippled_outside), unfolding(crate::specs::Sources::stippled_of))]
fn stippled(
    c: Command,
    g: Registers,
    extent: Extent,
    cell: Option<Cell>,
    buffer: &[u8],
) -> Option<u32>
    ensures { result ≡ stippled_of c g extent cell buffer.now }
{
    let p = cell_visit(g.xy0, g.xy3, cell)?;
    let x = p.x.checked_sub(ORIGIN)?;
    let byte = Point {
        x: ORIGIN + x / 8,
        y: p.y,
    };
    let at = place_of(extent, byte)?;
    let value = byte_at(buffer, at);
    by_bit(c, g, (value >> (7 - x % 8)) % 2 == 1)
}

// A cell of a blit that reads a buffer.
fn read(c: Command, g: Registers, extent: Extent, cell: Option<Cell>, buffer: &[u8]) -> Option<u32>
    ensures { result ≡ read_of c g extent cell buffer.now }
{
    if c.stpl {
        return stippled(c, g, extent, cell, buffer);
    }
    copied(c, g, extent, cell, buffer)
}

// A cell of a blit that draws a tile, by the x and y of its pixel in the destination buffer.
#[tactic(auto, unfolding(crate::specs::Sources::tiled_of))]
fn tiled(g: Registers, fill: Fill, cell: Option<Cell>) -> Option<u32>
    ensures { result ≡ tiled_of g fill cell }
{
    let p = cell_visit(g.xy1, g.xy3, cell)?;
    if !fill.whole {
        return None;
    }
    let x = p.x.saturating_sub(ORIGIN);
    let y = p.y.saturating_sub(ORIGIN);
    let value = pixel(fill.tile, x, y);
    Some(value as u32)
}

// A line's pixel without SOLID.
#[tactic(auto, unfolding(crate::specs::Sources::dash_of))]
fn dash(c: Command, g: Registers, p: Pattern) -> Option<u32>
    ensures { result ≡ dash_of c g p }
{
    by_bit(c, g, p.bit(g.lpat))
}

// The source of a visit of the command c: at a cell of a blit, or at a line's pixel.
#[tactic(auto, unfolding(crate::specs::Sources::source_of))]
pub fn source_of(
    c: Command,
    g: Registers,
    p: Pattern,
    extent: Extent,
    fill: Fill,
    cell: Option<Cell>,
    display: &[u8],
    virt: &[u8],
) -> Option<u32>
    ensures { result ≡ source_of c g p extent fill cell display.now virt.now }
{
    if c.solid {
        return Some(g.fore);
    }
    if !c.is_blit() {
        return dash(c, g, p);
    }
    if c.apat {
        return tiled(g, fill, cell);
    }
    let buffer = if c.from_virtual { virt } else { display };
    read(c, g, extent, cell, buffer)
}
