// Pixels from bits (document 02, R-2): the new byte of one pixel, and eight new bytes in a word.

#![tactic(auto)]

ghost use Rattle.std.specs.Prelude.{◌≡◌, ℕ, ◌<◌};
ghost use Rattle.stipples.specs.Stipples.{bit_in, stippled};
ghost use Rattle.stipples.specs.Words.{byte_in, eight_of, ones_of, spread_of, zero_pen, inks_of, inked, Bytes};

use raster::Pen;

// What a 1 draws with, and a 0, unless it draws nothing.
#[derive(Clone, Copy)]
pub struct Stipple {
    pub fore: Pen,
    pub back: Option<Pen>,
}

// The same for eight pixels in a word: what a 0 keeps and flips, and where a 1 differs.
#[derive(Clone, Copy)]
pub struct Inks {
    pub keep: u64,
    pub flip: u64,
    pub keep_change: u64,
    pub flip_change: u64,
}

// A byte eight times.
fn eight(x: u8) -> u64
    ensures { result ≡ eight_of x }
{
    x as u64 * 0x0101_0101_0101_0101
}

// The bits of a byte as bytes 1 and 0: each is tested in a byte of its own.
fn ones(bits: u8) -> u64
    ensures { result ≡ ones_of bits }
{
    let tested = eight(bits) & 0x0102_0408_1020_4080;
    ((tested + 0x7F7F_7F7F_7F7F_7F7F) >> 7) & 0x0101_0101_0101_0101
}

// The same as bytes 255 and 0.
fn spread(bits: u8) -> u64
    ensures { result ≡ spread_of bits }
{
    ones(bits) * 255
}

impl Stipple {
    fn zero(self) -> Pen
        ensures { result ≡ zero_pen self }
    {
        self.back.unwrap_or(Pen { keep: 255, flip: 0 })
    }

    // The new byte of a pixel.
    pub fn draw(self, one: bool, old: u8) -> u8
        ensures { result ≡ stippled self one old }
    {
        let fore = self.fore;
        if one {
            return fore.draw(old);
        }
        match self.back {
            Some(back) => back.draw(old),
            None => old,
        }
    }

    pub fn inks(self) -> Inks
        ensures { result ≡ inks_of self }
    {
        let one = self.fore;
        let zero = self.zero();
        Inks {
            keep: eight(zero.keep),
            flip: eight(zero.flip),
            keep_change: eight(one.keep ^ zero.keep),
            flip_change: eight(one.flip ^ zero.flip),
        }
    }
}

impl Inks {
    // The new bytes of eight pixels, by the bits of a byte.
    pub fn draw(self, bits: u8, old: u64) -> u64
        ensures { result ≡ inked self bits old }
    {
        let ones = spread(bits);
        let keep = (ones & self.keep_change) ^ self.keep;
        let flip = (ones & self.flip_change) ^ self.flip;
        (old & keep) ^ flip
    }

    // The same by products: fewer operations where words are drawn one by one.
    pub fn draw_by_products(self, bits: u8, old: u64) -> u64
        ensures { (s : Stipple) → Bytes s → self ≡ inks_of s → (k : ℕ) → k < 8 → byte_in k result ≡ stippled s (bit_in k bits) (byte_in k old) }
    {
        let ones = ones(bits);
        let kept = old & ((ones * (self.keep_change % 256)) ^ self.keep);
        kept ^ ((ones * (self.flip_change % 256)) ^ self.flip)
    }
}
