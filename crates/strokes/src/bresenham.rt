// A stretch of a line that is visible whole, by Bresenham's algorithm: the place in the buffer moves by additions.
ghost use Rattle.std.specs.Prelude.{◌≡◌, ◌&&◌, ◌+◌, ◌≤◌, ◌<◌, eqb, length};
ghost use Rattle.geometry.specs.Coordinates.{origin};
ghost use Rattle.raster.specs.declared.Pen.{Pen};
ghost use Rattle.strokes.specs.Strokes.{dashed};
ghost use Rattle.lemmas.specs.Turns.{in_turn};
ghost use Rattle.strokes.specs.Tracers.{Room, RoomBoth};
ghost use Rattle.strokes.specs.Bresenham.{Moves, moved, course_by, course_of, Places, InRow, FromOrigin};
ghost use Rattle.strokes.specs.Bresenham.{Draws, plot_at, plot_dash_at, Stretch, plot_on, plot_dash_on};

use crate::Dashes;
use crate::masks::{dash_rounds, goes_round};
use crate::phases::Phase;
use crate::tracers::{Stepper, Tracer};
use geometry::ORIGIN;
use raster::Pen;
use registers::Pattern;
use rows::fill_row;

// The algorithm's state: a pixel's place, and how much the minor axis' error term may grow before it is full.
#[derive(Clone, Copy)]
pub(crate) struct Bresenham {
    pub(crate) place: usize,
    pub(crate) slack: usize,
}

// What a place moves by: ahead and back at each pixel, up and down where the growth leaves no slack, which then gains `wrap`.
#[derive(Clone, Copy)]
pub(crate) struct Strides {
    pub(crate) growth: usize,
    pub(crate) wrap: usize,
    pub(crate) ahead: usize,
    pub(crate) back: usize,
    pub(crate) up: usize,
    pub(crate) down: usize,
}

impl Bresenham {
    // At the next pixel.
    #[tactic(auto, unfolding(crate::specs::Bresenham::moved))]
    fn next(self, s: Strides) -> Bresenham
        requires { Moves s self }
        ensures { result ≡ moved s self }
    {
        let place = self.place + s.ahead - s.back;
        if s.growth < self.slack {
            return Bresenham {
                place,
                slack: self.slack - s.growth,
            };
        }
        Bresenham {
            place: place + s.up - s.down,
            slack: self.slack + s.wrap,
        }
    }

    // The same, for a loop that is compiled twice: with a growth, and for lines along an axis.
    #[tactic(auto, unfolding(crate::specs::Bresenham::moved))]
    fn next_by_axis(self, s: Strides) -> Bresenham
        requires { Moves s self }
        ensures { result ≡ moved s self }
    {
        if s.growth == 0 {
            return Bresenham {
                place: self.place + s.ahead - s.back,
                ..self
            };
        }
        self.next(s)
    }
}

// The places of a stretch: where it starts, and what it moves by.
#[derive(Clone, Copy)]
pub(crate) struct Course {
    pub(crate) start: Bresenham,
    pub(crate) strides: Strides,
}

impl Course {
    // A step of the major axis is `along` places, one of the minor axis `across`.
    #[tactic(auto, unfolding(crate::specs::Bresenham::course_by))]
    fn by(major: Stepper, minor: Stepper, along: usize, across: usize, full: usize) -> Course
        requires { Room full major × Room full minor × (origin ≤ major.coordinate) × (origin ≤ minor.coordinate) × (along ≤ 4294967296) × (across ≤ 4294967296) }
        ensures { result ≡ course_by major minor along across full }
    {
        Course {
            start: Bresenham {
                place: (major.coordinate - ORIGIN) * along + (minor.coordinate - ORIGIN) * across,
                slack: full - minor.error,
            },
            strides: Strides {
                growth: minor.growth,
                wrap: full - minor.growth,
                ahead: major.up * along,
                back: major.down * along,
                up: minor.up * across,
                down: minor.down * across,
            },
        }
    }

    // From a tracer's pixel on, in rows of `width` places.
    #[tactic(auto, unfolding(crate::specs::Bresenham::course_of))]
    fn of(t: Tracer, width: u32) -> Course
        requires { RoomBoth t × FromOrigin t }
        ensures { result ≡ course_of width t }
    {
        let row = width as usize;
        let x = t.x;
        let y = t.y;
        if x.growth == t.full {
            Course::by(x, y, 1, row, t.full)
        } else {
            Course::by(y, x, row, 1, t.full)
        }
    }

    // Whether each place is next to the one before it.
    fn is_row(self) -> bool
        requires { self.strides.ahead + self.strides.back ≤ 8589934592 }
        ensures { result ≡ (eqb self.strides.growth 0 && eqb (self.strides.ahead + self.strides.back) 1) }
    {
        let s = self.strides;
        (s.growth == 0) & (s.ahead + s.back == 1)
    }

    // n pixels as a pen draws them, by what makes the new byte of an old one.
    fn draw<F: Fn(u8) -> u8>(self, buffer: &mut [u8], n: usize, new_byte: F)
        requires places { Places self n (length buffer.old) }
        requires callable { F.IsAlwaysCallable new_byte }
        ensures { (pen : Pen) → Draws pen (F.post new_byte) → buffer.new ≡ in_turn (plot_at pen self) n buffer.old }
    {
        let mut state = self.start;
        for _ in 0..n - 1 {
            let at = state.place;
            buffer[at] = new_byte(buffer[at]);
            state = state.next(self.strides);
        }
        // The last pixel, from which the state may have no place to move to.
        let at = state.place;
        buffer[at] = new_byte(buffer[at]);
    }

    // The same with a pen. A function of its own, so that the loop keeps its values in registers.
    #[inline(never)]
    fn mix(self, buffer: &mut [u8], n: usize, pen: Pen)
        requires { Places self n (length buffer.old) }
        ensures { buffer.new ≡ in_turn (plot_at pen self) n buffer.old }
    {
        self.draw(buffer, n, |old| pen.draw(old));
    }

    // The same as one row, where each place is next to the one before it.
    fn fill(self, buffer: &mut [u8], n: usize, pen: Pen)
        requires { Places self n (length buffer.old) × InRow self.strides }
        ensures { buffer.new ≡ in_turn (plot_at pen self) n buffer.old }
    {
        let place = self.start.place;
        if self.strides.back == 0 {
            fill_row(buffer, place, n, pen);
        } else {
            fill_row(buffer, place - (n - 1), n, pen);
        }
    }

    // n pixels in dashes, and the pattern state after them. A function of its own, so that the loop keeps its values in registers.
    // Kept: a loop beside that of `draw`, since it carries a phase; one for both, by a trait of pens with a state, is no plainer.
    #[inline(never)]
    fn dash(self, buffer: &mut [u8], n: usize, dashes: Dashes, pattern: Pattern) -> Pattern
        requires { Places self n (length buffer.old) }
        ensures { dashed buffer.new result ≡ in_turn (plot_dash_at dashes self) n (dashed buffer.old pattern) }
    {
        let pens = [dashes.back_pen(), dashes.fore];
        let control = dashes.control;
        let mut phase = Phase::new(dashes.lpat, pattern);
        let mut state = self.start;
        for _ in 0..n - 1 {
            let at = state.place;
            buffer[at] = pens[phase.bit()].draw(buffer[at]);
            phase = phase.next(control);
            state = state.next_by_axis(self.strides);
        }
        let at = state.place;
        buffer[at] = pens[phase.bit()].draw(buffer[at]);
        phase.next(control).pattern()
    }
}

// n pixels from a tracer's on.
pub(crate) fn draw_visible(buffer: &mut [u8], width: u32, pen: Pen, t: Tracer, n: usize)
    requires { Stretch width t n (length buffer.old) }
    ensures { buffer.new ≡ in_turn (plot_on width pen t) n buffer.old }
{
    let course = Course::of(t, width);
    if course.is_row() {
        course.fill(buffer, n, pen);
        return;
    }
    // A pen that keeps nothing of the old bytes has a loop that reads none.
    if pen.keep == 0 {
        course.draw(buffer, n, |_| pen.flip);
        return;
    }
    course.mix(buffer, n, pen);
}

// n pixels in dashes, and the pattern state after them.
pub(crate) fn dash_visible(
    buffer: &mut [u8],
    width: u32,
    dashes: Dashes,
    pattern: Pattern,
    t: Tracer,
    n: usize,
) -> Pattern
    requires { Stretch width t n (length buffer.old) }
    ensures { dashed buffer.new result ≡ in_turn (plot_dash_on width dashes t) n (dashed buffer.old pattern) }
{
    let course = Course::of(t, width);
    let row = course.is_row();
    if row & goes_round(dashes.control, pattern, n) {
        return dash_rounds(buffer, dashes, pattern, course, n);
    }
    course.dash(buffer, n, dashes, pattern)
}
