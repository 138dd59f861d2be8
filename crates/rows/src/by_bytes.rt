// Rows one byte after the other.
ghost use Rattle.std.specs.Prelude.{◌≡◌, true, false, cond, ℕ, ◌+◌};
ghost use Rattle.lemmas.specs.Sweeps.{sweep};
ghost use Rattle.rows.specs.Rows.{filled, copied, shifted, Fits, Clear};

use crate::inks::{Ink, Unmixed};
use raster::Pen;

// Each byte becomes x.
// Kept: tried and slower. `fill` stores the last byte by itself, and rows of 32 to 256 pixels take a fifth to two fifths longer.
pub(crate) fn fill_bytes(buffer: &mut [u8], at: usize, n: usize, x: u8)
    requires { Fits buffer.old at n }
    ensures { buffer.new ≡ sweep (λ k. at + k) (λ k m. x) n buffer.old }
{
    for k in 0..n {
        buffer[at + k] = x;
    }
}

// Each byte is drawn with the pen.
pub(crate) fn draw_bytes(buffer: &mut [u8], at: usize, n: usize, pen: Pen)
    requires { Fits buffer.old at n }
    ensures { buffer.new ≡ filled pen n buffer.old at }
{
    for k in 0..n {
        buffer[at + k] = pen.draw(buffer[at + k]);
    }
}

// New bytes of the source bytes and the old ones.
pub(crate) fn mix_bytes<I: Ink>(
    buffer: &mut [u8],
    at: usize,
    source: &[u8],
    from: usize,
    n: usize,
    ink: I,
)
    requires { Fits buffer.old at n × Fits source.now from n }
    ensures { buffer.new ≡ copied (I.byte ink) n buffer.old at source.now from }
{
    for k in 0..n {
        buffer[at + k] = ink.byte(source[from + k], buffer[at + k]);
    }
}

// The source bytes as they are.
// Kept: tried and slower. `copy_from_slice` makes a number of 8 bytes, which a loop after it takes apart: rows of 8 to 16 pixels that
// are drawn take over three times as long.
pub(crate) fn copy_bytes(buffer: &mut [u8], at: usize, source: &[u8], from: usize, n: usize)
    requires { Fits buffer.old at n × Fits source.now from n }
    ensures { buffer.new ≡ copied (λ s d. s) n buffer.old at source.now from }
{
    mix_bytes(buffer, at, source, from, n, Unmixed);
}

// True only where n pixels may be read before the first of them is written.
fn is_clear(at: usize, from: usize, n: usize) -> bool
    ensures { result ≡ true → Clear false at from n }
{
    if at <= from {
        return true;
    }
    n <= at - from
}

// The same in either direction: then the row is a copy.
pub(crate) fn reads_first(back: bool, at: usize, from: usize, n: usize) -> bool
    ensures { result ≡ true → Clear back at from n }
{
    if back {
        return is_clear(from, at, n);
    }
    is_clear(at, from, n)
}

// What a row takes from right to left, and from left to right.
pub(crate) fn by_side<const BACK: bool>(to_left: usize, to_right: usize) -> usize
    ensures { result ≡ cond BACK to_left to_right }
{
    if BACK { to_left } else { to_right }
}

// Within one buffer, where a byte may be read that was written before.
pub(crate) fn move_bytes<I: Ink, const BACK: bool>(
    buffer: &mut [u8],
    at: usize,
    from: usize,
    n: usize,
    ink: I,
)
    requires { Fits buffer.old at n × Fits buffer.old from n }
    ensures { buffer.new ≡ shifted BACK (I.byte ink) n buffer.old at from }
{
    for k in 0..n {
        let i = by_side::<BACK>(n - 1 - k, k);
        buffer[at + i] = ink.byte(buffer[from + i], buffer[at + i]);
    }
}
