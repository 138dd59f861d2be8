// The line pattern's state.
ghost use Rattle.std.specs.Prelude.{◌≡◌};
ghost use Rattle.entries.specs.Fields.{pattern_control_of};
ghost use Rattle.registers.specs.Patterns.{start_of, pattern_bit, next_of, moves_of, in_range};

use entries::{PatternControl, pattern_control_of};

// Document 01's pattern state: a place in LPAT and a repeat.
#[derive(Clone, Copy)]
pub struct Pattern {
    pub place: u32,
    pub repeat: u32,
}

impl Pattern {
    // The state that PCTRL sets.
    pub fn start(control: PatternControl) -> Pattern
        ensures { result ≡ start_of control }
    {
        Pattern {
            place: control.place,
            repeat: control.repeat,
        }
    }

    // The bit of LPAT that the state stands at.
    #[tactic(auto, using(crate::proofs::Moves::bit_past), unfolding(crate::specs::Patterns::pattern_bit))]
    pub fn bit(self, lpat: u32) -> bool
        ensures { result ≡ pattern_bit lpat self }
    {
        if 32 <= self.place {
            return false;
        }
        (lpat >> self.place) % 2 == 1
    }

    // The state after one more pixel.
    #[tactic(auto, unfolding(crate::specs::Patterns::next_of))]
    pub fn next(self, control: PatternControl) -> Pattern
        ensures { result ≡ next_of control self }
    {
        let repeat = self.repeat as u64 + 1;
        if repeat < control.scale as u64 {
            return Pattern {
                repeat: self.repeat + 1,
                ..self
            };
        }
        let place = self.place as u64 + 1;
        if place < control.length as u64 {
            return Pattern {
                place: self.place + 1,
                repeat: 0,
            };
        }
        Pattern {
            place: 0,
            repeat: 0,
        }
    }

    // The state after n more pixels, in one go. A place or a repeat past the end moves on as the last one does.
    pub fn after(self, control: PatternControl, n: u32) -> Pattern
        ensures { result ≡ moves_of control n self }
    {
        if n == 0 {
            return self;
        }
        let last_repeat = control.scale.saturating_sub(1) as u64;
        let gone = (self.repeat as u64).min(last_repeat) + n as u64;
        let repeat = (gone % (last_repeat + 1)) as u32;
        let turns = gone / (last_repeat + 1);
        if turns == 0 {
            return Pattern { repeat, ..self };
        }
        let last_place = control.length.saturating_sub(1) as u64;
        let place = (self.place as u64).min(last_place) + turns;
        Pattern {
            place: (place % (last_place + 1)) as u32,
            repeat,
        }
    }

    // Whether place and repeat are below length and scale.
    #[tactic(auto, unfolding(crate::specs::Patterns::in_range))]
    pub fn in_range(self, control: PatternControl) -> bool
        ensures { result ≡ in_range control self }
    {
        (self.place < control.length) & (self.repeat < control.scale)
    }
}

// One more pixel, of the pattern that PCTRL describes.
pub fn advance(p: &mut Pattern, pctrl: u32)
    ensures { p.new ≡ next_of (pattern_control_of pctrl) p.old }
{
    *p = p.next(pattern_control_of(pctrl));
}
