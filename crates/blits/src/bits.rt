// One row of pixels from bits: eight pixels at a time, or one by one (document 02, R-2).
ghost use Rattle.std.specs.Prelude.{◌≡◌, true, List, ◌⊎◌, ℕ, ◌+◌, ◌*◌, ◌/◌, ◌<◌, ◌≤◌, length};
ghost use Rattle.stipples.specs.Stipples.{bit_in, bit_at};
ghost use Rattle.blits.specs.Bits.{expanded, expanded_within, expanded_back, BitsFit, Plain, RowBits, Apart};

use crate::eights::{Inked, bits_at, draw_bits};
use stipples::Stipple;

// Whose bits are read.
pub(crate) trait Bits {
    // The bytes that they lie in, by those of the buffer that is drawn on, and how many.
    ghost bytes: { Self → List ℕ → List ℕ };

    ghost size: { Self → ℕ → ℕ };

    fn read(self, buffer: &[u8], byte: usize, first: usize, m: usize) -> u8
        requires { (0 < m) × (m ≤ 8) × BitsFit byte first m (size self (length buffer.now)) }
        ensures { (j : ℕ) → j < m → bit_in j result ≡ bit_at (bytes self buffer.now) (8 * byte + first + j) };
}

// Those of another buffer.
#[derive(Clone, Copy)]
pub(crate) struct Other<'a>(pub &'a [u8]);

impl Bits for Other<'_> {
    ghost bytes = { λ x l. x.0.now };

    ghost size = { λ x own. length x.0.now };

    fn read(self, _buffer: &[u8], byte: usize, first: usize, m: usize) -> u8 {
        bits_at(self.0, byte, first, m)
    }
}

// Those of the buffer that is drawn on.
#[derive(Clone, Copy)]
pub(crate) struct Own;

impl Bits for Own {
    ghost bytes = { λ x l. l };

    ghost size = { λ x own. own };

    fn read(self, buffer: &[u8], byte: usize, first: usize, m: usize) -> u8 {
        bits_at(buffer, byte, first, m)
    }
}

// n pixels by bits from bit `first` of a byte on; PLAIN only where no old byte counts: each has a loop of its own, with nothing to choose
// in it.
pub(crate) fn expand<B: Bits + Copy, const PLAIN: bool>(
    buffer: &mut [u8],
    at: usize,
    bits: B,
    byte: usize,
    first: usize,
    n: usize,
    ink: Inked,
)
    requires fit { (at + n ≤ length buffer.old) × RowBits (B.bytes bits) at byte first n (B.size bits (length buffer.old)) }
    requires plain { PLAIN ≡ true → Plain ink.inks }
    ensures { buffer.new ≡ expanded ink.stipple n buffer.old at (B.bytes bits buffer.old) (8 * byte + first) }
{
    for k in 0..n / 8 {
        let eight = bits.read(buffer, byte + k, first, 8);
        ink.draw_eight::<PLAIN>(buffer, at + 8 * k, eight);
    }
    let rest = n % 8;
    if 0 < rest {
        let some = bits.read(buffer, byte + n / 8, first, rest);
        ink.draw_some(buffer, at + (n - rest), some, rest);
    }
}

// The same for 8 or 16 pixels, the width of most glyphs.
pub(crate) fn expand_narrow<B: Bits + Copy>(
    buffer: &mut [u8],
    at: usize,
    bits: B,
    byte: usize,
    first: usize,
    n: usize,
    ink: Inked,
)
    requires { ((n ≡ 8) ⊎ (n ≡ 16)) × (at + n ≤ length buffer.old) × RowBits (B.bytes bits) at byte first n (B.size bits (length buffer.old)) }
    ensures { buffer.new ≡ expanded ink.stipple n buffer.old at (B.bytes bits buffer.old) (8 * byte + first) }
{
    let left = bits.read(buffer, byte, first, 8);
    ink.draw_glyph_byte(buffer, at, left);
    if n == 16 {
        let right = bits.read(buffer, byte + 1, first, 8);
        ink.draw_glyph_byte(buffer, at + 8, right);
    }
}

// True only where no pixel of a row is a byte that its bits lie in.
pub(crate) fn is_apart(at: usize, byte: usize, n: usize) -> bool
    ensures { result ≡ true → Apart at byte n }
{
    if at <= byte {
        return n <= byte - at;
    }
    n / 8 + 2 <= at - byte
}

// A bit by its byte, and its place in that byte from the most significant on.
#[derive(Clone, Copy)]
pub struct BitPlace {
    pub byte: usize,
    pub bit: usize,
    pub ghost in_byte: { bit < 8 },
}

impl BitPlace {
    fn next(self) -> BitPlace
        requires { self.byte + 1 < 18446744073709551616 }
        ensures { 8 * result.byte + result.bit ≡ 8 * self.byte + self.bit + 1 }
    {
        if self.bit == 7 {
            return BitPlace {
                byte: self.byte + 1,
                bit: 0,
            };
        }
        BitPlace {
            byte: self.byte,
            bit: self.bit + 1,
        }
    }

    fn previous(self) -> BitPlace
        requires { 0 < 8 * self.byte + self.bit }
        ensures { 8 * result.byte + result.bit + 1 ≡ 8 * self.byte + self.bit }
    {
        if self.bit == 0 {
            return BitPlace {
                byte: self.byte - 1,
                bit: 7,
            };
        }
        BitPlace {
            byte: self.byte,
            bit: self.bit - 1,
        }
    }

    // The bit n further on.
    fn after(self, n: usize) -> BitPlace
        requires { (8 * self.byte + self.bit + n) / 8 < 18446744073709551616 }
        ensures { 8 * result.byte + result.bit ≡ 8 * self.byte + self.bit + n }
    {
        let rest = self.bit + n % 8;
        BitPlace {
            byte: self.byte + n / 8 + rest / 8,
            bit: rest % 8,
        }
    }
}

// n pixels one by one, each by its bit as it stands then; from left to right, and back.
// Kept: two functions, no plainer as one: the one draws and goes to the next bit, the other goes to the bit before and draws.
pub(crate) fn expand_each(buffer: &mut [u8], at: usize, from: BitPlace, n: usize, s: Stipple)
    requires { (at + n ≤ length buffer.old) × BitsFit from.byte from.bit n (length buffer.old) }
    ensures { buffer.new ≡ expanded_within s n buffer.old at (8 * from.byte + from.bit) }
{
    let mut p = from;
    for k in 0..n {
        draw_bits(buffer, at + k, bits_at(buffer, p.byte, p.bit, 1), 1, s);
        p = p.next();
    }
}

pub(crate) fn expand_back(buffer: &mut [u8], at: usize, from: BitPlace, n: usize, s: Stipple)
    requires { (at + n ≤ length buffer.old) × BitsFit from.byte from.bit n (length buffer.old) }
    ensures { buffer.new ≡ expanded_back s n buffer.old at (8 * from.byte + from.bit) }
{
    let mut p = from.after(n);
    for k in 0..n {
        p = p.previous();
        draw_bits(
            buffer,
            at + n - (k + 1),
            bits_at(buffer, p.byte, p.bit, 1),
            1,
            s,
        );
    }
}
