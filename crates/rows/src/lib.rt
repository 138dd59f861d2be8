// Rows of pixels at once: of one source byte, copied from another buffer, copied within one buffer, and of a tile (tiled.rt);
// byte by byte (by_bytes.rt), in blocks (by_blocks.rt), or as bytes that nothing is mixed with (unmixed.rt). How a new byte is made
// is a type parameter of them (inks.rt).
// Kept: no plainer. A row is a buffer, a place and a length: two rows of one buffer, which may overlap, cannot be lent as slices.

#![tactic(auto)]

mod by_blocks;
mod by_bytes;
mod inks;
mod tiled;
mod unmixed;

ghost use Rattle.std.specs.Prelude.{◌≡◌, ◌&&◌, true, ℕ, ◌+◌, ◌≤◌, leb};
ghost use Rattle.rows.specs.declared.Mix.{Mix};
ghost use Rattle.rows.specs.Rows.{mixed, unkeyed, covered, filled, shifted, Plain, Fits, Twice};
ghost use Rattle.rows.specs.Rows.{filled_row, copied_row, moved_row, moved_back_row, shifted_row, tiled_row};

use crate::by_blocks::{draw_long, draw_short, ends, mix_ends, mix_long, move_long};
use crate::by_bytes::{draw_bytes, mix_bytes, move_bytes, reads_first};
use crate::inks::{Covering, InTurn};
use crate::tiled::mix_tile;
use crate::unmixed::{copy_plain, fill_plain, move_plain};
use raster::{Pen, Selectors};

// How a source byte is mixed with an old byte: raster code and plane mask as selectors, and KEY, if it is set: a source byte that
// draws nothing.
#[derive(Clone, Copy)]
pub struct Mix {
    pub selectors: Selectors,
    pub key: Option<u8>,
}

// True only where every new byte is the source byte.
pub fn is_plain(mix: Mix) -> bool
    ensures { result ≡ true → Plain (mixed mix) }
{
    let q = mix.selectors;
    mix.key.is_none() & (q.both == 0) & (q.old == 0) & (q.source == 255) & (q.none == 0)
}

// Whether n bytes from `at` on end within `len`.
fn fits(len: usize, at: usize, n: usize) -> bool
    ensures { result ≡ leb (at + n) len }
{
    if n <= len {
        return at <= len - n;
    }
    false
}

// The same for two rows, of two buffers or of one.
fn both_fit(len: usize, at: usize, source_len: usize, from: usize, n: usize) -> bool
    ensures { result ≡ (leb (at + n) len && leb (from + n) source_len) }
{
    fits(len, at, n) & fits(source_len, from, n)
}

// A row that fits, with one pen.
#[inline(always)]
fn fill_pixels(buffer: &mut [u8], at: usize, n: usize, pen: Pen)
    requires { Fits buffer.old at n }
    ensures { buffer.new ≡ filled pen n buffer.old at }
{
    if (pen.keep == 0) & (8 <= n) {
        fill_plain(buffer, at, n, pen.flip);
        return;
    }
    if n < 32 {
        draw_bytes(buffer, at, n, pen);
        return;
    }
    draw_long(buffer, at, n, pen);
}

// A row that fits, within one buffer.
fn move_pixels<const BACK: bool>(buffer: &mut [u8], at: usize, from: usize, n: usize, mix: Mix)
    requires { Fits buffer.old at n × Fits buffer.old from n }
    ensures { buffer.new ≡ shifted BACK (mixed mix) n buffer.old at from }
{
    let ink = InTurn { mix };
    if n < 32 {
        move_bytes::<InTurn, BACK>(buffer, at, from, n, ink);
        return;
    }
    if reads_first(BACK, at, from, 32) {
        move_long::<BACK>(buffer, at, from, n, mix);
        return;
    }
    move_bytes::<InTurn, BACK>(buffer, at, from, n, ink);
}

// n pixels from `at` on, drawn with one pen.
#[tactic(auto, unfolding(crate::specs::Rows::filled_row))]
#[inline(always)]
pub fn fill_row(buffer: &mut [u8], at: usize, n: usize, pen: Pen)
    ensures { buffer.new ≡ filled_row pen n buffer.old at }
{
    if !fits(buffer.len(), at, n) {
        return;
    }
    fill_pixels(buffer, at, n, pen);
}

// The same for loops over narrow rows: what is done for 8 to 16 pixels is short enough to be compiled into the loop.
#[tactic(auto, unfolding(crate::specs::Rows::filled_row))]
pub fn fill_narrow(buffer: &mut [u8], at: usize, n: usize, pen: Pen)
    ensures { buffer.new ≡ filled_row pen n buffer.old at }
{
    if (n < 8) | (16 < n) {
        fill_row(buffer, at, n, pen);
        return;
    }
    if !fits(buffer.len(), at, n) {
        return;
    }
    draw_short(buffer, at, n, pen);
}

// n pixels from `at` on, from the pixels of another buffer from `from` on.
#[tactic(auto, unfolding(crate::specs::Rows::copied_row))]
pub fn copy_row(buffer: &mut [u8], at: usize, source: &[u8], from: usize, n: usize, mix: Mix)
    ensures { buffer.new ≡ copied_row mix n buffer.old at source.now from }
{
    if !both_fit(buffer.len(), at, source.len(), from, n) {
        return;
    }
    mix_bytes(buffer, at, source, from, n, mix);
}

// The same where every new byte is the source byte, and where there are 8 to 16 pixels, or 32 and more. Each for a loop of its own: one
// over rows of every kind keeps what all kinds need.
pub fn copy_plain_row(buffer: &mut [u8], at: usize, source: &[u8], from: usize, n: usize)
    ensures { (mix : Mix) → Plain (mixed mix) → buffer.new ≡ copied_row mix n buffer.old at source.now from }
{
    if !both_fit(buffer.len(), at, source.len(), from, n) {
        return;
    }
    copy_plain(buffer, at, source, from, n);
}

#[tactic(auto, unfolding(crate::specs::Rows::copied_row))]
pub fn copy_short_row(buffer: &mut [u8], at: usize, source: &[u8], from: usize, n: usize, mix: Mix)
    ensures { 8 ≤ n → n ≤ 16 → buffer.new ≡ copied_row mix n buffer.old at source.now from }
{
    if (16 < n) | (n < 8) {
        return;
    }
    if !both_fit(buffer.len(), at, source.len(), from, n) {
        return;
    }
    let pixels = ends(source, from, n);
    mix_ends(buffer, at, pixels, n, mix);
}

#[tactic(auto, unfolding(crate::specs::Rows::copied_row))]
pub fn copy_long_row(buffer: &mut [u8], at: usize, source: &[u8], from: usize, n: usize, mix: Mix)
    ensures { 32 ≤ n → buffer.new ≡ copied_row mix n buffer.old at source.now from }
{
    if n < 32 {
        return;
    }
    if !both_fit(buffer.len(), at, source.len(), from, n) {
        return;
    }
    mix_long(buffer, at, source, from, n, mix);
}

// The same within one buffer, from left to right.
#[tactic(auto, unfolding(crate::specs::Rows::moved_row))]
pub fn move_row(buffer: &mut [u8], at: usize, from: usize, n: usize, mix: Mix)
    ensures { buffer.new ≡ moved_row mix n buffer.old at from }
{
    if !both_fit(buffer.len(), at, buffer.len(), from, n) {
        return;
    }
    move_pixels::<false>(buffer, at, from, n, mix);
}

// The same within one buffer, from right to left; `at` and `from` are past the right ends.
#[tactic(auto, unfolding(crate::specs::Rows::moved_back_row))]
pub fn move_row_back(buffer: &mut [u8], at: usize, from: usize, n: usize, mix: Mix)
    ensures { buffer.new ≡ moved_back_row mix n buffer.old at from }
{
    if !((n <= at) & (n <= from) & (at <= buffer.len()) & (from <= buffer.len())) {
        return;
    }
    move_pixels::<true>(buffer, at - n, from - n, n, mix);
}

// The same in either direction, from left ends: where every new byte is the source byte, and where there are 8 to 16 pixels.
pub fn move_plain_row(back: bool, buffer: &mut [u8], at: usize, from: usize, n: usize)
    ensures { (mix : Mix) → Plain (mixed mix) → buffer.new ≡ shifted_row back mix n buffer.old at from }
{
    if !both_fit(buffer.len(), at, buffer.len(), from, n) {
        return;
    }
    if back {
        move_plain::<true>(buffer, at, from, n);
        return;
    }
    move_plain::<false>(buffer, at, from, n);
}

#[tactic(auto, unfolding(crate::specs::Rows::shifted_row))]
pub fn move_short_row(back: bool, buffer: &mut [u8], at: usize, from: usize, n: usize, mix: Mix)
    ensures { 8 ≤ n → n ≤ 16 → buffer.new ≡ shifted_row back mix n buffer.old at from }
{
    if (16 < n) | (n < 8) {
        return;
    }
    if !both_fit(buffer.len(), at, buffer.len(), from, n) {
        return;
    }
    if reads_first(back, at, from, n) {
        let pixels = ends(buffer, from, n);
        mix_ends(buffer, at, pixels, n, mix);
        return;
    }
    let ink = InTurn { mix };
    if back {
        move_bytes::<InTurn, true>(buffer, at, from, n, ink);
        return;
    }
    move_bytes::<InTurn, false>(buffer, at, from, n, ink);
}

// True only where the old byte does not count.
fn covers(q: Selectors) -> bool
    ensures { result ≡ true → (s d : ℕ) → covered q s d ≡ mixed (unkeyed q) s d }
{
    (q.both == 0) & (q.old == 0)
}

// n pixels of a tile from `at` on, from column x of row y on; `wide` has the tile's rows, each twice.
#[tactic(auto, unfolding(crate::specs::Rows::tiled_row))]
pub fn tile_row(
    buffer: &mut [u8],
    at: usize,
    n: usize,
    wide: &[u8],
    x: usize,
    y: usize,
    selectors: Selectors,
)
    ensures { (pixel : ℕ → ℕ) → Twice pixel wide.now y → buffer.new ≡ tiled_row selectors n buffer.old at (λ k. pixel (x + k)) }
{
    if !(fits(buffer.len(), at, n) & (wide.len() == 256)) {
        return;
    }
    let row = 32 * (y % 8);
    let from = row + x % 16;
    let last = row + (x % 16 + n % 16) % 16;
    if covers(selectors) {
        let ink = Covering { selectors };
        mix_tile(buffer, at, n, wide, from, last, ink);
        return;
    }
    let mix = Mix {
        selectors,
        key: None,
    };
    mix_tile(buffer, at, n, wide, from, last, mix);
}
