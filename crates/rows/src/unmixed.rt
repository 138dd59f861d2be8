// Rows of one byte, and rows of the source bytes as they are: at once where that is the same.
ghost use Rattle.std.specs.Prelude.{◌≡◌, ◌+◌, ◌≤◌};
ghost use Rattle.lemmas.specs.Sweeps.{sweep};
ghost use Rattle.rows.specs.Rows.{copied, shifted, Fits};

use crate::by_blocks::{ends, mix_ends};
use crate::by_bytes::{fill_bytes, move_bytes, reads_first};
use crate::inks::Unmixed;

// b to 2b bytes become x: the first b, and the last b.
fn fill_twice(buffer: &mut [u8], at: usize, n: usize, b: usize, x: u8)
    requires { (b ≤ n) × (n ≤ b + b) × Fits buffer.old at n }
    ensures { buffer.new ≡ sweep (λ k. at + k) (λ k m. x) n buffer.old }
{
    fill_bytes(buffer, at, b, x);
    fill_bytes(buffer, at + (n - b), b, x);
}

// The same for 8 bytes or more: with a fixed length a fill is one store, with another a call of memset.
pub(crate) fn fill_plain(buffer: &mut [u8], at: usize, n: usize, x: u8)
    requires { (8 ≤ n) × Fits buffer.old at n }
    ensures { buffer.new ≡ sweep (λ k. at + k) (λ k m. x) n buffer.old }
{
    if n < 16 {
        fill_twice(buffer, at, n, 8, x);
        return;
    }
    if n < 32 {
        fill_twice(buffer, at, n, 16, x);
        return;
    }
    fill_bytes(buffer, at, n, x);
}

// The source bytes as they are, by a call of memmove.
fn copy_at_once(buffer: &mut [u8], at: usize, source: &[u8], from: usize, n: usize)
    requires { Fits buffer.old at n × Fits source.now from n }
    ensures { buffer.new ≡ copied (λ s d. s) n buffer.old at source.now from }
{
    buffer[at..at + n].copy_from_slice(&source[from..from + n]);
}

// Rows of the source bytes as they are, at once where that is the same.
pub(crate) fn copy_plain(buffer: &mut [u8], at: usize, source: &[u8], from: usize, n: usize)
    requires { Fits buffer.old at n × Fits source.now from n }
    ensures { buffer.new ≡ copied (λ s d. s) n buffer.old at source.now from }
{
    if (8 <= n) & (n <= 16) {
        let pixels = ends(source, from, n);
        mix_ends(buffer, at, pixels, n, Unmixed);
        return;
    }
    copy_at_once(buffer, at, source, from, n);
}

// At most 4096 pixels, all read before the first of them is written: the compiler makes one memmove of the two copies.
// Kept: tried and slower. `copy_within` moves byte by byte, and rows take a third to two and a half times longer.
fn move_at_once(buffer: &mut [u8], at: usize, from: usize, n: usize)
    requires { (n ≤ 4096) × Fits buffer.old at n × Fits buffer.old from n }
    ensures { buffer.new ≡ copied (λ s d. s) n buffer.old at buffer.old from }
{
    let mut pixels: [u8; 4096] = [0; 4096];
    copy_at_once(&mut pixels, 0, buffer, from, n);
    copy_at_once(buffer, at, &pixels, 0, n);
}

// Byte by byte within one buffer. It is no part of a loop over rows: there the compiler asks whether two rows overlap, and here, how far
// apart they are, so that it takes 32 bytes at once of rows that overlap too.
#[inline(never)]
fn move_in_turn<const BACK: bool>(buffer: &mut [u8], at: usize, from: usize, n: usize)
    requires { Fits buffer.old at n × Fits buffer.old from n }
    ensures { buffer.new ≡ shifted BACK (λ s d. s) n buffer.old at from }
{
    move_bytes::<Unmixed, BACK>(buffer, at, from, n, Unmixed);
}

// Within one buffer, at once where all pixels may be read before the first is written; else byte by byte.
pub(crate) fn move_plain<const BACK: bool>(buffer: &mut [u8], at: usize, from: usize, n: usize)
    requires { Fits buffer.old at n × Fits buffer.old from n }
    ensures { buffer.new ≡ shifted BACK (λ s d. s) n buffer.old at from }
{
    let clear = reads_first(BACK, at, from, n);
    if clear & (8 <= n) & (n <= 16) {
        let pixels = ends(buffer, from, n);
        mix_ends(buffer, at, pixels, n, Unmixed);
        return;
    }
    if clear & (n <= 4096) {
        move_at_once(buffer, at, from, n);
        return;
    }
    move_in_turn::<BACK>(buffer, at, from, n);
}
