// Long rows of dashes: the pattern as a mask, a byte a pixel, by which the row is mixed round after round.
ghost use Rattle.std.specs.Prelude.{◌≡◌, true, ◌+◌, ◌≤◌, ◌<◌, length};
ghost use Rattle.lemmas.specs.Turns.{in_turn};
ghost use Rattle.strokes.specs.Strokes.{dashed};
ghost use Rattle.strokes.specs.Bresenham.{Places, InRow, plot_dash_at};
ghost use Rattle.strokes.specs.Masks.{goes_round, Round, mask_at, Masks, Mixes, MixedFrom, MixedRound};

use crate::Dashes;
use crate::bresenham::Course;
use crate::phases::Phase;
use entries::PatternControl;
use raster::Selectors;
use registers::Pattern;
use rows::{Mix, copy_row};

// Whether a row has at least two rounds of its pattern, and is worth a mask.
pub(crate) fn goes_round(c: PatternControl, p: Pattern, n: usize) -> bool
    ensures { result ≡ goes_round c p n }
{
    (64 * (c.scale as usize) <= n)
        & (n <= 65536)
        & (c.length <= 32)
        & (c.scale <= 8)
        & p.in_range(c)
}

// Pixels, at least 32, after which a pattern is where it was.
fn round(c: PatternControl) -> usize
    requires { (0 < c.length) × (c.length ≤ 32) × (0 < c.scale) × (c.scale ≤ 8) }
    ensures { Round c result }
{
    let once = (c.length as usize) * (c.scale as usize);
    (once + 31) / once * once
}

// The pattern's first n pixels, from the middle of the mask to the right, and to the left. A round has 287 pixels at most.
fn put_mask(mask: &mut [u8; 640], d: Dashes, start: Pattern, n: usize)
    requires { n ≤ 320 }
    ensures { Masks (mask_at d start) mask.new n }
{
    let mut phase = Phase::new(d.lpat, start);
    for j in 0..n {
        let byte = (phase.bit() * 255) as u8;
        mask[320 + j] = byte;
        mask[319 - j] = byte;
        phase = phase.next(d.control);
    }
}

// The mix that draws with the pen of a 1 bit where the mask is 255, and with that of a 0 bit where it is 0.
fn mix_of(d: Dashes) -> Mix
    ensures { Mixes d result }
{
    let fore = d.fore;
    let back = d.back_pen();
    Mix {
        // Kept: `Selectors::new` has the same four fields of its two pens; a public function of `raster` for them is no plainer.
        selectors: Selectors {
            both: fore.keep ^ back.keep,
            old: back.keep,
            source: fore.flip ^ back.flip,
            none: back.flip,
        },
        key: None,
    }
}

// n pixels of a row from pixel j on, by the first n of the mask.
fn mix_places(buffer: &mut [u8], mask: &[u8; 640], mix: Mix, course: Course, j: usize, n: usize)
    requires { Places course (j + n) (length buffer.old) × InRow course.strides × (0 < n) × (n ≤ 320) }
    ensures { MixedFrom mix course j n mask.now buffer.old buffer.new }
{
    let place = course.start.place;
    if course.strides.back == 0 {
        copy_row(buffer, place + j, mask, 320, n, mix);
    } else {
        copy_row(buffer, place - j - (n - 1), mask, 320 - n, n, mix);
    }
}

// n pixels of a row, by the mask's m in each round.
fn mix_rounds(buffer: &mut [u8], mask: &[u8; 640], mix: Mix, course: Course, m: usize, n: usize)
    requires { Places course n (length buffer.old) × InRow course.strides × (0 < m) × (m ≤ 320) }
    ensures { MixedRound mix course m n mask.now buffer.old buffer.new }
{
    for j in (0..n).step_by(m) {
        mix_places(buffer, mask, mix, course, j, m.min(n - j));
    }
}

// n pixels of a row in dashes, and the pattern state after them.
pub(crate) fn dash_rounds(
    buffer: &mut [u8],
    dashes: Dashes,
    pattern: Pattern,
    course: Course,
    n: usize,
) -> Pattern
    requires { Places course n (length buffer.old) × InRow course.strides × (goes_round dashes.control pattern n ≡ true) }
    ensures { dashed buffer.new result ≡ in_turn (plot_dash_at dashes course) n (dashed buffer.old pattern) }
{
    let m = round(dashes.control);
    let mix = mix_of(dashes);
    let mut mask: [u8; 640] = [0; 640];
    put_mask(&mut mask, dashes, pattern, m);
    mix_rounds(buffer, &mask, mix, course, m, n);
    pattern.after(dashes.control, n as u32)
}
