// The pattern of a dashed line: its state in machine words, and what its bits draw.
ghost use Rattle.std.specs.Prelude.{◌≡◌, ◌/◌, ◌^◌, ◌<◌};

use entries::PatternControl;
use registers::Pattern;

// A pattern state, and the bits of LPAT from its place on.
#[derive(Clone, Copy)]
pub(crate) struct Phase {
    lpat: u32,
    bits: usize,
    place: usize,
    repeat: usize,
    ghost bits_are: { bits ≡ lpat / 2 ^ place },
    ghost place_small: { place < 4294967296 },
    ghost repeat_small: { repeat < 4294967296 },
}

impl Phase {
    ghost use Rattle.std.specs.Prelude.{◌%◌};
    ghost use Rattle.registers.specs.Patterns.{next_of};
    ghost use Rattle.strokes.specs.Phases.{pattern_of};

    pub(crate) fn new(lpat: u32, p: Pattern) -> Phase
        ensures { (pattern_of result ≡ p) × (result.lpat ≡ lpat) }
    {
        let bits = if p.place < 32 { lpat >> p.place } else { 0 };
        Phase {
            lpat,
            bits: bits as usize,
            place: p.place as usize,
            repeat: p.repeat as usize,
        }
    }

    // After one more pixel.
    pub(crate) fn next(self, control: PatternControl) -> Phase
        ensures { (pattern_of result ≡ next_of control (pattern_of self)) × (result.lpat ≡ self.lpat) }
    {
        let lpat = self.lpat;
        let repeat = self.repeat + 1;
        if repeat < control.scale as usize {
            return Phase {
                lpat,
                bits: self.bits,
                place: self.place,
                repeat,
            };
        }
        let place = self.place + 1;
        if place < control.length as usize {
            return Phase {
                lpat,
                bits: self.bits / 2,
                place,
                repeat: 0,
            };
        }
        Phase {
            lpat,
            bits: lpat as usize,
            place: 0,
            repeat: 0,
        }
    }

    // LPAT's bit at the place, as a number.
    pub(crate) fn bit(self) -> usize
        ensures { result ≡ self.bits % 2 }
    {
        self.bits % 2
    }

    pub(crate) fn pattern(self) -> Pattern
        ensures { result ≡ pattern_of self }
    {
        Pattern {
            place: self.place as u32,
            repeat: self.repeat as u32,
        }
    }
}
