// Which columns and rows of a blit are visible: in the window, and where pixels are read, with their source in the buffer.
ghost use Rattle.std.specs.Prelude.{◌≡◌, ◌+◌, ◌<◌};
ghost use Rattle.blits.specs.Blits.{reads};
ghost use Rattle.blits.specs.Ranges.{range_of, window_ranges, visible_range, visible_of, part_of};

use crate::places::source_width;
use crate::{Blit, Paint};
use geometry::{ORIGIN, Part, Range, Window, point_of};

// The j whose pixel, j from c on or back, is at lo <= x < hi.
pub(crate) fn range_of(back: bool, c: usize, lo: usize, hi: usize) -> Range
    requires { c < 131072 }
    ensures { result ≡ range_of back c lo hi }
{
    if back {
        return Range {
            from: (c + 1).saturating_sub(hi),
            past: (c + 1).saturating_sub(lo),
        };
    }
    Range {
        from: lo.saturating_sub(c),
        past: hi.saturating_sub(c),
    }
}

// Whether pixels of a buffer are read.
fn reads_pixels(paint: Paint) -> bool
    ensures { result ≡ reads paint }
{
    match paint {
        Paint::Solid(_) => false,
        Paint::Copied(_) => true,
        Paint::Moved(_) => true,
        Paint::Stippled(_) => true,
        Paint::StippledWithin(_) => true,
    }
}

// The visible j: j from t on or back in the window, and where pixels are read, j from s in a buffer of `size`.
fn visible_range(
    reads: bool,
    back: bool,
    t: usize,
    lo: usize,
    hi: usize,
    s: usize,
    size: usize,
) -> Range
    requires { (t < 131072) × (s < 131072) × (size < 34359738368) }
    ensures { result ≡ visible_range reads back t lo hi s size }
{
    let target = range_of(back, t, lo, hi);
    let source = range_of(back, s, ORIGIN, ORIGIN + size);
    let from = target.from.max(source.from);
    let past = target.past.min(source.past);
    if reads {
        return Range { from, past };
    }
    target
}

// The columns and rows in the window.
pub(crate) fn window_ranges(w: Window, to: u32, direction: u32) -> Part
    ensures { result ≡ window_ranges w to direction }
{
    let target = point_of(to);
    Part {
        columns: range_of(direction / 2 % 2 == 1, target.x, w.left, w.right),
        rows: range_of(direction % 2 == 1, target.y, w.top, w.bottom),
    }
}

// The visible columns and rows.
pub(crate) fn visible_of(b: Blit) -> Part
    ensures { result ≡ visible_of b }
{
    let w = b.window;
    let paint = b.paint;
    let reads = reads_pixels(paint);
    let back = b.direction / 2 % 2 == 1;
    let up = b.direction % 2 == 1;
    let target = point_of(b.to);
    let source = point_of(b.from);
    let across = source_width(paint, b.width);
    let down = b.height as usize;
    let columns = visible_range(reads, back, target.x, w.left, w.right, source.x, across);
    let rows = visible_range(reads, up, target.y, w.top, w.bottom, source.y, down);
    Part { columns, rows }
}

// Those of n from `from` on that are visible.
pub(crate) fn cut(visible: Range, from: usize, n: usize) -> Range
    requires { from + n < 18446744073709551616 }
    ensures { result ≡ part_of visible from n }
{
    Range {
        from: from.max(visible.from),
        past: (from + n).min(visible.past),
    }
}
