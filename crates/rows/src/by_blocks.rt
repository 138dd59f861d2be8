// Rows by blocks of pixels, and by the last pixels drawn aside.
ghost use Rattle.std.specs.Prelude.{◌≡◌, List, ℕ, ◌+◌, ◌%◌, ◌≤◌};
ghost use Rattle.rows.specs.Rows.{mixed, filled, copied, shifted, Fits, Clear, Ends};

use crate::Mix;
use crate::by_bytes::{by_side, copy_bytes, draw_bytes, mix_bytes, move_bytes, reads_first};
use crate::inks::{InTurn, Ink};
use raster::Pen;

// 32 pixels, all read before the first of them is written.
fn block(buffer: &mut [u8], at: usize, from: usize, mix: Mix)
    requires { Fits buffer.old at 32 × Fits buffer.old from 32 }
    ensures { buffer.new ≡ copied (mixed mix) 32 buffer.old at buffer.old from }
{
    let mut pixels: [u8; 32] = [0; 32];
    copy_bytes(&mut pixels, 0, buffer, from, 32);
    mix_bytes(buffer, at, &pixels, 0, 32, mix);
}

// Whole blocks, n pixels of them in all.
fn blocks<const BACK: bool>(buffer: &mut [u8], at: usize, from: usize, n: usize, mix: Mix)
    requires { (n % 32 ≡ 0) × Fits buffer.old at n × Fits buffer.old from n × Clear BACK at from 32 }
    ensures { buffer.new ≡ shifted BACK (mixed mix) n buffer.old at from }
{
    for b in 0..n / 32 {
        let i = by_side::<BACK>(n - 32 * b - 32, 32 * b);
        block(buffer, at + i, from + i, mix);
    }
}

// The first k pixels of a row, and its last B. The last ones are drawn aside, on the old ones, before the first, and stored after
// them: what the first left out is drawn then, and what they drew is drawn again as it was.
#[inline(always)]
fn draw_by<const B: usize>(buffer: &mut [u8], at: usize, n: usize, k: usize, pen: Pen)
    requires { (B ≤ n) × (n ≤ k + B) × (k ≤ n) × Fits buffer.old at n }
    ensures { buffer.new ≡ filled pen n buffer.old at }
{
    let z = n - B;
    let mut last: [u8; B] = [0; B];
    copy_bytes(&mut last, 0, buffer, at + z, B);
    draw_bytes(&mut last, 0, B, pen);
    draw_bytes(buffer, at, k, pen);
    copy_bytes(buffer, at + z, &last, 0, B);
}

// Rows of 32 pixels or more in whole blocks, and the last 32.
#[inline(always)]
pub(crate) fn draw_long(buffer: &mut [u8], at: usize, n: usize, pen: Pen)
    requires { (32 ≤ n) × Fits buffer.old at n }
    ensures { buffer.new ≡ filled pen n buffer.old at }
{
    draw_by::<32>(buffer, at, n, n / 32 * 32, pen);
}

// The same for 8 to 16 pixels: the first 8, and the last 8.
pub(crate) fn draw_short(buffer: &mut [u8], at: usize, n: usize, pen: Pen)
    requires { (8 ≤ n) × (n ≤ 16) × Fits buffer.old at n }
    ensures { buffer.new ≡ filled pen n buffer.old at }
{
    draw_by::<8>(buffer, at, n, 8, pen);
}

// The first 8 pixels of a row and its last 8, side by side.
#[inline(always)]
pub(crate) fn ends(source: &[u8], from: usize, n: usize) -> [u8; 16]
    requires { (8 ≤ n) × Fits source.now from n }
    ensures { Ends source.now from n result }
{
    let z = n - 8;
    let mut pixels: [u8; 16] = [0; 16];
    copy_bytes(&mut pixels, 0, source, from, 8);
    copy_bytes(&mut pixels, 8, source, from + z, 8);
    pixels
}

// 8 to 16 pixels from the ends of a row: the first 8 and the last 8 side by side, all read before any is written.
#[inline(always)]
pub(crate) fn mix_ends<I: Ink>(buffer: &mut [u8], at: usize, pixels: [u8; 16], n: usize, ink: I)
    requires { (8 ≤ n) × (n ≤ 16) × Fits buffer.old at n }
    ensures { (source : List ℕ) (from : ℕ) → Ends source from n pixels → buffer.new ≡ copied (I.byte ink) n buffer.old at source from }
{
    let z = n - 8;
    let mut new = ends(buffer, at, n);
    mix_bytes(&mut new, 0, &pixels, 0, 16, ink);
    copy_bytes(buffer, at, &new, 0, 8);
    copy_bytes(buffer, at + z, &new, 8, 8);
}

// Long rows from another buffer.
pub(crate) fn mix_long(buffer: &mut [u8], at: usize, source: &[u8], from: usize, n: usize, mix: Mix)
    requires { (32 ≤ n) × Fits buffer.old at n × Fits source.now from n }
    ensures { buffer.new ≡ copied (mixed mix) n buffer.old at source.now from }
{
    let z = n - 32;
    let mut last: [u8; 32] = [0; 32];
    copy_bytes(&mut last, 0, buffer, at + z, 32);
    mix_bytes(&mut last, 0, source, from + z, 32, mix);
    mix_bytes(buffer, at, source, from, (n - 1) / 32 * 32, mix);
    copy_bytes(buffer, at + z, &last, 0, 32);
}

// Within one buffer the pixels that were drawn aside are stored only where no visit reads what another wrote; else those that the
// blocks leave follow one by one.
pub(crate) fn move_long<const BACK: bool>(
    buffer: &mut [u8],
    at: usize,
    from: usize,
    n: usize,
    mix: Mix,
)
    requires { (32 ≤ n) × Fits buffer.old at n × Fits buffer.old from n × Clear BACK at from 32 }
    ensures { buffer.new ≡ shifted BACK (mixed mix) n buffer.old at from }
{
    let k = (n - 1) / 32 * 32;
    let first = by_side::<BACK>(n - k, 0);
    let rest = by_side::<BACK>(0, k);
    let z = by_side::<BACK>(0, n - 32);
    let mut last: [u8; 32] = [0; 32];
    copy_bytes(&mut last, 0, buffer, at + z, 32);
    mix_bytes(&mut last, 0, buffer, from + z, 32, mix);
    blocks::<BACK>(buffer, at + first, from + first, k, mix);
    if reads_first(BACK, at, from, n) {
        copy_bytes(buffer, at + z, &last, 0, 32);
        return;
    }
    let ink = InTurn { mix };
    move_bytes::<InTurn, BACK>(buffer, at + rest, from + rest, n - k, ink);
}
