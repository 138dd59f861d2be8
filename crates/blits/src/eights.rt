// At most eight pixels by the bits of one byte: one by one, and all in a word (document 02, R-2).
ghost use Rattle.std.specs.Prelude.{◌≡◌, true, cond, ℕ, ◌+◌, ◌-◌, ◌*◌, ◌<◌, ◌≤◌, ltb, length, get_or};
ghost use Rattle.lemmas.specs.Sweeps.{sweep};
ghost use Rattle.stipples.specs.Stipples.{bit_in, bit_at};
ghost use Rattle.stipples.specs.Words.{byte_in, inks_of};
ghost use Rattle.blits.specs.Bits.{Plain, by_byte, BitsFit};

use stipples::{Inks, Stipple};

// Eight bits from bit `first` of two bytes on.
fn joined(high: u8, low: u8, first: usize) -> u8
    requires { first < 8 }
    ensures { (j : ℕ) → j < 8 → bit_in j result ≡ cond (ltb (first + j) 8) (bit_in (first + j) high) (bit_in (first + j - 8) low) }
{
    (((high as u32 * 256 + low as u32) >> (8 - first)) % 256) as u8
}

// m bits of a buffer, from bit `first` of a byte on, as the first bits of one byte.
pub(crate) fn bits_at(source: &[u8], byte: usize, first: usize, m: usize) -> u8
    requires { (0 < m) × (m ≤ 8) × BitsFit byte first m (length source.now) }
    ensures { (j : ℕ) → j < m → bit_in j result ≡ bit_at source.now (8 * byte + first + j) }
{
    if first == 0 {
        return source[byte];
    }
    if first + m <= 8 {
        return joined(source[byte], 0, first);
    }
    joined(source[byte], source[byte + 1], first)
}

// The eight bytes from `at` on as a word, the first lowest: one load.
fn word_at(buffer: &[u8], at: usize) -> u64
    requires { at + 8 ≤ length buffer.now }
    ensures { (k : ℕ) → k < 8 → byte_in k result ≡ get_or buffer.now (at + k) 0 }
{
    u64::from_le_bytes([
        buffer[at],
        buffer[at + 1],
        buffer[at + 2],
        buffer[at + 3],
        buffer[at + 4],
        buffer[at + 5],
        buffer[at + 6],
        buffer[at + 7],
    ])
}

// The same bytes from a word: one store.
fn put_word(buffer: &mut [u8], at: usize, word: u64)
    requires { at + 8 ≤ length buffer.old }
    ensures { buffer.new ≡ sweep (λ k. at + k) (λ k m. byte_in k word) 8 buffer.old }
{
    let bytes = word.to_le_bytes();
    for k in 0..8 {
        buffer[at + k] = bytes[k];
    }
}

// m pixels by the first bits of a byte, one by one.
pub(crate) fn draw_bits(buffer: &mut [u8], at: usize, bits: u8, m: usize, s: Stipple)
    requires { (m ≤ 8) × (at + m ≤ length buffer.old) }
    ensures { buffer.new ≡ by_byte s m buffer.old at bits }
{
    for k in 0..m {
        buffer[at + k] = s.draw((bits as usize >> (7 - k)) % 2 == 1, buffer[at + k]);
    }
}

// What a blit by bits draws with, worked out once for all of its rows; `plain` only where no old byte counts.
#[derive(Clone, Copy)]
pub struct Inked {
    pub stipple: Stipple,
    pub inks: Inks,
    pub plain: bool,
    pub ghost made: { inks ≡ inks_of stipple },
    pub ghost unread: { plain ≡ true → Plain inks },
}

impl Inked {
    pub(crate) fn new(stipple: Stipple) -> Inked
        ensures { result.stipple ≡ stipple }
    {
        let inks = stipple.inks();
        let plain = (inks.keep == 0) & (inks.keep_change == 0);
        Inked {
            stipple,
            inks,
            plain,
        }
    }

    // Eight pixels in a row of words, by the bits of a byte; PLAIN only where no old byte counts, so that none is read.
    pub(crate) fn draw_eight<const PLAIN: bool>(self, buffer: &mut [u8], at: usize, bits: u8)
        requires { (PLAIN ≡ true → Plain self.inks) × (at + 8 ≤ length buffer.old) }
        ensures { buffer.new ≡ by_byte self.stipple 8 buffer.old at bits }
    {
        if PLAIN {
            put_word(buffer, at, self.inks.draw(bits, 0));
            return;
        }
        let old = word_at(buffer, at);
        put_word(buffer, at, self.inks.draw(bits, old));
    }

    // The same for the pixels of a glyph, where one word is drawn and not a row of them.
    pub(crate) fn draw_glyph_byte(self, buffer: &mut [u8], at: usize, bits: u8)
        requires { at + 8 ≤ length buffer.old }
        ensures { buffer.new ≡ by_byte self.stipple 8 buffer.old at bits }
    {
        let old = word_at(buffer, at);
        put_word(buffer, at, self.inks.draw_by_products(bits, old));
    }

    // Fewer pixels, as eight of which the rest keep their bytes; one by one at the buffer's end.
    pub(crate) fn draw_some(self, buffer: &mut [u8], at: usize, bits: u8, m: usize)
        requires { (m < 8) × (at + m ≤ length buffer.old) }
        ensures { buffer.new ≡ by_byte self.stipple m buffer.old at bits }
    {
        if buffer.len() - at < 8 {
            draw_bits(buffer, at, bits, m, self.stipple);
            return;
        }
        let old = word_at(buffer, at);
        let new = self.inks.draw(bits, old);
        put_word(buffer, at, old ^ ((old ^ new) % (1 << (8 * m))));
    }
}
