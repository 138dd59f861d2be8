// Rows of a tile, sixteen pixels again and again. The lengths 8 and 16 are written out: as arguments they would make loops of what is
// one operation. The source bytes are kept first: a store in between could be one of theirs, as far as the compiler sees.
ghost use Rattle.std.specs.Prelude.{◌≡◌, ℕ, ◌%◌, ◌<◌, get_or};
ghost use Rattle.rows.specs.Rows.{tiled, Fits, Periodic};

use crate::by_blocks::{ends, mix_ends};
use crate::by_bytes::{copy_bytes, mix_bytes};
use crate::inks::Ink;

// Blocks of 32 pixels, n of them in all, each sixteen bytes twice.
// Kept: tried and slower. With `for b in 0..n / 32` mixed rows of 17 to 63 pixels take a third longer.
fn mix_blocks<I: Ink>(buffer: &mut [u8], at: usize, n: usize, pixels: [u8; 16], ink: I)
    requires { (n % 32 ≡ 0) × Fits buffer.old at n }
    ensures { buffer.new ≡ tiled (I.byte ink) n buffer.old at (λ k. get_or pixels (k % 16) 0) }
{
    let mut k: usize = 0;
    while k < n {
        mix_bytes(buffer, at + k, &pixels, 0, 16, ink);
        mix_bytes(buffer, at + k + 16, &pixels, 0, 16, ink);
        k += 32;
    }
}

// More than 16 pixels: blocks, sixteen pixels where more than sixteen are left, and the last sixteen, whose bytes are at `last`. They
// are drawn aside before the others, since the old pixels may count.
fn mix_long<I: Ink>(
    buffer: &mut [u8],
    at: usize,
    n: usize,
    source: &[u8],
    from: usize,
    last: usize,
    ink: I,
)
    requires { (16 < n) × Fits buffer.old at n × Fits source.now from 16 × Fits source.now last 16 }
    ensures { (pixel : ℕ → ℕ) → Periodic pixel n source.now from last → buffer.new ≡ tiled (I.byte ink) n buffer.old at pixel }
{
    let z = n - 16;
    let done = n / 32 * 32;
    let mut pixels: [u8; 16] = [0; 16];
    let mut tail: [u8; 16] = [0; 16];
    let mut aside: [u8; 16] = [0; 16];
    copy_bytes(&mut pixels, 0, source, from, 16);
    copy_bytes(&mut tail, 0, source, last, 16);
    copy_bytes(&mut aside, 0, buffer, at + z, 16);
    mix_bytes(&mut aside, 0, &tail, 0, 16, ink);
    mix_blocks(buffer, at, done, pixels, ink);
    if done < z {
        mix_bytes(buffer, at + done, &pixels, 0, 16, ink);
    }
    copy_bytes(buffer, at + z, &aside, 0, 16);
}

// A row, by its length.
pub(crate) fn mix_tile<I: Ink>(
    buffer: &mut [u8],
    at: usize,
    n: usize,
    source: &[u8],
    from: usize,
    last: usize,
    ink: I,
)
    requires { Fits buffer.old at n × Fits source.now from 16 × Fits source.now last 16 }
    ensures { (pixel : ℕ → ℕ) → Periodic pixel n source.now from last → buffer.new ≡ tiled (I.byte ink) n buffer.old at pixel }
{
    if n < 8 {
        mix_bytes(buffer, at, source, from, n, ink);
        return;
    }
    if n <= 16 {
        let pixels = ends(source, from, n);
        mix_ends(buffer, at, pixels, n, ink);
        return;
    }
    mix_long(buffer, at, n, source, from, last, ink);
}
