// A line of two pixels or more, and what of it is visible in a window.
ghost use Rattle.std.specs.Prelude.{◌≡◌};
ghost use Rattle.geometry.specs.Line.{steps_of};
ghost use Rattle.strokes.specs.Tracers.{Axis};

use geometry::{Point, Range, Window, line_steps, point_of};

// One coordinate of a line: in so many steps it goes from one end's to the other's.
#[derive(Clone, Copy)]
pub(crate) struct Ramp {
    pub(crate) steps: usize,
    pub(crate) from: usize,
    pub(crate) to: usize,
    ghost axis: { Axis steps from to },
}

// A line by its ends, and the steps between them, of which there is one at least.
#[derive(Clone, Copy)]
pub(crate) struct Line {
    pub(crate) from: Point,
    pub(crate) to: Point,
    pub(crate) steps: usize,
    ghost steps_are: { steps ≡ steps_of from to },
    ghost x_axis: { Axis steps from.x to.x },
    ghost y_axis: { Axis steps from.y to.y },
}

impl Line {
    ghost use Rattle.std.specs.Prelude.{MatchOption, ◌&&◌, ◌+◌, ◌≤◌, ◌<◌};
    ghost use Rattle.geometry.specs.Coordinates.{point_of};
    ghost use Rattle.geometry.specs.Clip.{in_window};
    ghost use Rattle.strokes.specs.Ranges.{Visible, Hidden};

    // The line between the points of two registers, unless it is one pixel.
    pub(crate) fn between(from: u32, to: u32) -> Option<Line>
        ensures { MatchOption result (steps_of (point_of from) (point_of to) ≡ 0) (λ l. (l.from ≡ point_of from) × (l.to ≡ point_of to)) }
    {
        let steps = line_steps(from, to);
        if steps == 0 {
            return None;
        }
        Some(Line {
            from: point_of(from),
            to: point_of(to),
            steps,
        })
    }

    pub(crate) fn x(self) -> Ramp
        ensures { (result.steps ≡ self.steps) × (result.from ≡ self.from.x) × (result.to ≡ self.to.x) }
    {
        Ramp {
            steps: self.steps,
            from: self.from.x,
            to: self.to.x,
        }
    }

    pub(crate) fn y(self) -> Ramp
        ensures { (result.steps ≡ self.steps) × (result.from ≡ self.from.y) × (result.to ≡ self.to.y) }
    {
        Ramp {
            steps: self.steps,
            from: self.from.y,
            to: self.to.y,
        }
    }

    // Whether both ends are visible in a window, and so all of it.
    fn is_within(self, w: Window) -> bool
        ensures { result ≡ (in_window w self.from && in_window w self.to) }
    {
        w.contains(self.from) & w.contains(self.to)
    }

    // Of n pixels from pixel `first` on, those that are visible in a window; for lines with a hidden end.
    fn clipped(self, w: Window, first: usize, n: usize) -> Range
        requires { first + n ≤ self.steps + 1 }
        ensures { Visible w self.from self.to first n result }
    {
        let x = self.x().range(w.left, w.right);
        if x.past <= x.from {
            return Range {
                from: first,
                past: first,
            };
        }
        let y = self.y().range(w.top, w.bottom);
        Range {
            from: first.max(x.from).max(y.from),
            past: (first + n).min(x.past).min(y.past),
        }
    }

    // The same for every line, where there are any.
    pub(crate) fn visible(self, w: Window, first: usize, n: usize) -> Option<Range>
        requires { first + n ≤ self.steps + 1 }
        ensures { MatchOption result (Hidden w self.from self.to first n) (λ s. Visible w self.from self.to first n s × (s.from < s.past)) }
    {
        let seen = if self.is_within(w) {
            Range {
                from: first,
                past: first + n,
            }
        } else {
            self.clipped(w, first, n)
        };
        if seen.past <= seen.from {
            return None;
        }
        Some(seen)
    }
}
