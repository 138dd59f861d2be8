// How a new byte is made of a source byte and an old one.
ghost use Rattle.std.specs.Prelude.{◌≡◌, ℕ};
ghost use Rattle.rows.specs.Rows.{mixed, covered};

use crate::Mix;
use raster::Selectors;

// One loop for each shape of row is written for all inks, and compiled for each.
pub(crate) trait Ink: Copy {
    ghost byte: { Self → ℕ → ℕ → ℕ };

    fn byte(self, source: u8, old: u8) -> u8
        ensures { result ≡ byte self source old };
}

// Mixed with the old byte. Where the source byte is KEY none of its bits are taken: with no branch, and no store left out, the loops
// are vectorised, and loops of fixed length too.
impl Ink for Mix {
    ghost byte = { mixed };

    fn byte(self, source: u8, old: u8) -> u8 {
        let q = self.selectors;
        let new = (old & ((source & q.both) ^ q.old)) ^ ((source & q.source) ^ q.none);
        let mask: u8 = if Some(source) == self.key { 0 } else { 255 };
        old ^ ((old ^ new) & mask)
    }
}

// The same by a branch, for rows that read what they wrote: there each byte waits for the one before.
// Kept: tried and slower. With what the two share in a function of its own rows of 8 to 16 pixels take a third longer.
#[derive(Clone, Copy)]
pub(crate) struct InTurn {
    pub(crate) mix: Mix,
}

impl Ink for InTurn {
    ghost byte = { λ it. mixed it.mix };

    fn byte(self, source: u8, old: u8) -> u8 {
        let q = self.mix.selectors;
        let new = (old & ((source & q.both) ^ q.old)) ^ ((source & q.source) ^ q.none);
        if Some(source) == self.mix.key {
            old
        } else {
            new
        }
    }
}

// The source byte as it is.
#[derive(Clone, Copy)]
pub(crate) struct Unmixed;

impl Ink for Unmixed {
    ghost byte = { λ it s d. s };

    fn byte(self, source: u8, old: u8) -> u8 {
        source
    }
}

// Where the old byte does not count.
#[derive(Clone, Copy)]
pub(crate) struct Covering {
    pub(crate) selectors: Selectors,
}

impl Ink for Covering {
    ghost byte = { λ it. covered it.selectors };

    fn byte(self, source: u8, old: u8) -> u8 {
        (source & self.selectors.source) ^ self.selectors.none
    }
}
