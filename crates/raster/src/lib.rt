// The new byte of a pixel: raster code, source byte, old byte and plane mask (document 01, Pixels).

#![tactic(auto)]

ghost use Rattle.std.specs.Prelude.{◌≡◌, ◌<◌, ◌-◌, ◌*◌};
ghost use Rattle.std.specs.Int.Bits.{bit_xor};
ghost use Rattle.raster.specs.Raster.{new_byte};
ghost use Rattle.raster.specs.Selectors.{pen_of, drawn, selectors_of};

// The bits of x that are b, as ones: x itself for a 1, its complement for a 0.
fn places(x: u8, b: u8) -> u8
    requires { b < 2 }
    ensures { result ≡ bit_xor x ((1 - b) * 255) }
{
    x ^ ((1 - b) * 255)
}

// The new byte of a pixel. Where the source bit is s and the old bit is d, the new bit is bit 3 - 2s - d of the code; where
// the mask's bit is 0 the old bit stays. What pens and selectors know of a code comes from this function.
pub fn new_byte(code: u8, source: u8, old: u8, mask: u8) -> u8
    ensures { result ≡ new_byte code source old mask }
{
    let mut new: u8 = 0;
    for pair in 0..4u8 {
        let s = pair / 2;
        let d = pair % 2;
        let new_bit = (code >> (3 - 2 * s - d)) % 2;
        let here = places(source, s) & places(old, d);
        new |= new_bit * 255 & here;
    }
    (new & mask) | (old & (mask ^ 255))
}

// The rule with code, source byte and mask fixed: the new byte is (old & keep) ^ flip.
#[derive(Clone, Copy)]
pub struct Pen {
    pub keep: u8,
    pub flip: u8,
}

impl Pen {
    pub fn new(code: u8, source: u8, mask: u8) -> Pen
        ensures { result ≡ pen_of code source mask }
    {
        let ones = new_byte(code, source, 255, mask);
        let zeros = new_byte(code, source, 0, mask);
        Pen {
            keep: ones ^ zeros,
            flip: zeros,
        }
    }

    // The new byte.
    pub fn draw(self, old: u8) -> u8
        ensures { result ≡ drawn self old }
    {
        (old & self.keep) ^ self.flip
    }
}

// The rule with code and mask fixed: the new byte is (s & d & both) ^ (d & old) ^ (s & source) ^ none, for a source byte s
// and an old byte d.
#[derive(Clone, Copy)]
pub struct Selectors {
    pub both: u8,
    pub old: u8,
    pub source: u8,
    pub none: u8,
}

impl Selectors {
    pub fn new(code: u8, mask: u8) -> Selectors
        ensures { result ≡ selectors_of code mask }
    {
        let ones = Pen::new(code, 255, mask);
        let zeros = Pen::new(code, 0, mask);
        Selectors {
            both: ones.keep ^ zeros.keep,
            old: zeros.keep,
            source: ones.flip ^ zeros.flip,
            none: zeros.flip,
        }
    }
}
