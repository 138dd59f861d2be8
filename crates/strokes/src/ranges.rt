// Where a line crosses a border of a window, found by a division.
ghost use Rattle.std.specs.Prelude.{◌≡◌, ◌+◌, ◌≤◌, ◌<◌};
ghost use Rattle.strokes.specs.Ranges.{Counts, Before};

use crate::lines::Ramp;
use geometry::Range;

// How many pixels have gone at most 2 n m + half along an axis, of which each goes 2 d; the major axis needs no division.
fn count(n: usize, d: usize, m: usize, half: usize) -> usize
    requires { (0 < d) × (d ≤ n) × (n < 65536) × (m < 131072) × (half < n + n) }
    ensures { Counts n d m half result }
{
    if d == n {
        return m + 1;
    }
    (2 * (n * m) + half) / (2 * d) + 1
}

// How many pixels of a line of n steps have gone less than `way` of the d along an axis; `half` is n where a tie is rounded
// back, and n - 1 where it is rounded on.
fn before(n: usize, d: usize, way: usize, half: usize) -> usize
    requires { (d ≤ n) × (n < 65536) × (half < n + n) }
    ensures { Before n d way half result }
{
    if way == 0 {
        return 0;
    }
    if d < way {
        return n + 1;
    }
    count(n, d, way - 1, half)
}

impl Ramp {
    ghost use Rattle.strokes.specs.Ranges.{Ranges};

    // The pixels whose coordinate is at least `low` and below `high`.
    pub(crate) fn range(self, low: usize, high: usize) -> Range
        ensures { Ranges self.steps self.from self.to low high result }
    {
        let n = self.steps;
        let a = self.from;
        let b = self.to;
        if a <= b {
            return Range {
                from: before(n, b - a, low.saturating_sub(a), n),
                past: before(n, b - a, high.saturating_sub(a), n),
            };
        }
        let half = n - 1;
        Range {
            from: before(n, a - b, (a + 1).saturating_sub(high), half),
            past: before(n, a - b, (a + 1).saturating_sub(low), half),
        }
    }
}
