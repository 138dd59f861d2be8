// Rows of pixels that are `width` apart, down or up: one loop, and the kinds of row that it draws; those by bits are in bit_loops.rt.
ghost use Rattle.std.specs.Prelude.{◌≡◌, Bool, true, false, List, [], ℕ, ◌+◌, ◌≤◌, length};
ghost use Rattle.rows.specs.Rows.{mixed, Plain};
ghost use Rattle.blits.specs.declared.Paint.TheVariants.{Solid, Copied, Moved};
ghost use Rattle.blits.specs.Rows.{row_of, rows_of, rows_drawn, PaintFits, EachFits, TargetFits, SourceFits};

use crate::Paint;
use crate::bit_loops::{stipple_rows, stipple_within};
use crate::places::along;
use raster::Pen;
use rows::{
    Mix, copy_long_row, copy_plain_row, copy_row, copy_short_row, fill_narrow, fill_row, is_plain,
    move_plain_row, move_row, move_row_back, move_short_row,
};

// So many rows of n pixels: the first begins at `at`, with its source at `from`; the next are `width` further, and their sources
// `stride`, down or up.
#[derive(Clone, Copy)]
pub struct Rows {
    pub up: bool,
    pub width: usize,
    pub stride: usize,
    pub at: usize,
    pub from: usize,
    pub n: usize,
    pub count: usize,
}

// A kind of row: how n pixels at a place are drawn, with their source at another. Kinds with the same fields are types apart, since the
// type chooses the loop that is compiled.
pub(crate) trait DrawRow {
    // What they need of a buffer of so many pixels, and what they leave of one.
    ghost fits: { Self → ℕ → ℕ → ℕ → ℕ → Type 0 };

    ghost drawn: { Self → ℕ → ℕ → ℕ → List ℕ → List ℕ };

    fn draw(self, buffer: &mut [u8], at: usize, from: usize, n: usize)
        requires { fits self (length buffer.old) at from n }
        ensures { buffer.new ≡ drawn self at from n buffer.old };
}

// Rows one after the other. It is compiled once for each kind, with what the kind draws (`inline(always)` at each `draw`), so that each
// loop is short, and holds what one kind needs.
pub(crate) fn draw_rows<R: DrawRow + Copy>(row: R, rows: Rows, buffer: &mut [u8])
    requires { EachFits (λ at from. R.fits row (length buffer.old) at from rows.n) rows }
    ensures { buffer.new ≡ rows_drawn (λ at from. R.drawn row at from rows.n) rows rows.count buffer.old }
{
    let mut at = rows.at;
    let mut from = rows.from;
    for k in 0..rows.count {
        row.draw(buffer, at, from, rows.n);
        at = along(rows.up, at, rows.width);
        from = along(rows.up, from, rows.stride);
    }
}

// The same, as a function of its own for each kind: a loop that is compiled into its caller beside the other kinds' loops keeps less of
// what it reads in registers. Fills and rows by bits are compiled into theirs, as that is faster.
#[inline(never)]
pub(crate) fn draw_rows_apart<R: DrawRow + Copy>(row: R, rows: Rows, buffer: &mut [u8])
    requires { EachFits (λ at from. R.fits row (length buffer.old) at from rows.n) rows }
    ensures { buffer.new ≡ rows_drawn (λ at from. R.drawn row at from rows.n) rows rows.count buffer.old }
{
    draw_rows(row, rows, buffer);
}

// Pixels with one pen.
#[derive(Clone, Copy)]
struct Filled {
    pen: Pen,
}

impl DrawRow for Filled {
    ghost fits = { λ row own at from n. at + n ≤ own };

    ghost drawn = { λ row at from n l. row_of (Solid row.pen) false [] at 0 n l };

    #[inline(always)]
    fn draw(self, buffer: &mut [u8], at: usize, _from: usize, n: usize) {
        if n <= 16 {
            fill_narrow(buffer, at, n, self.pen);
            return;
        }
        fill_row(buffer, at, n, self.pen);
    }
}

// Where pixels are copied from, and how they are mixed with the old ones.
#[derive(Clone, Copy)]
struct Source<'a> {
    other: &'a [u8],
    mix: Mix,
}

// Pixels from another buffer: where the new bytes are the source bytes, for 8 to 16 pixels, for 32 and more, and for any number.
#[derive(Clone, Copy)]
struct PlainCopy<'a>(Source<'a>);

#[derive(Clone, Copy)]
struct ShortCopy<'a>(Source<'a>);

#[derive(Clone, Copy)]
struct LongCopy<'a>(Source<'a>);

#[derive(Clone, Copy)]
struct AnyCopy<'a>(Source<'a>);

impl DrawRow for PlainCopy<'_> {
    ghost fits = { λ row own at from n. Plain (mixed row.0.mix) × (at + n ≤ own) × (from + n ≤ length row.0.other.now) };

    ghost drawn = { λ row at from n l. row_of (Copied row.0.mix) false row.0.other.now at from n l };

    #[inline(always)]
    fn draw(self, buffer: &mut [u8], at: usize, from: usize, n: usize) {
        copy_plain_row(buffer, at, self.0.other, from, n);
    }
}

impl DrawRow for ShortCopy<'_> {
    ghost fits = { λ row own at from n. (8 ≤ n) × (n ≤ 16) × (at + n ≤ own) × (from + n ≤ length row.0.other.now) };

    ghost drawn = { λ row at from n l. row_of (Copied row.0.mix) false row.0.other.now at from n l };

    #[inline(always)]
    fn draw(self, buffer: &mut [u8], at: usize, from: usize, n: usize) {
        copy_short_row(buffer, at, self.0.other, from, n, self.0.mix);
    }
}

impl DrawRow for LongCopy<'_> {
    ghost fits = { λ row own at from n. (32 ≤ n) × (at + n ≤ own) × (from + n ≤ length row.0.other.now) };

    ghost drawn = { λ row at from n l. row_of (Copied row.0.mix) false row.0.other.now at from n l };

    #[inline(always)]
    fn draw(self, buffer: &mut [u8], at: usize, from: usize, n: usize) {
        copy_long_row(buffer, at, self.0.other, from, n, self.0.mix);
    }
}

impl DrawRow for AnyCopy<'_> {
    ghost fits = { λ row own at from n. (at + n ≤ own) × (from + n ≤ length row.0.other.now) };

    ghost drawn = { λ row at from n l. row_of (Copied row.0.mix) false row.0.other.now at from n l };

    #[inline(always)]
    fn draw(self, buffer: &mut [u8], at: usize, from: usize, n: usize) {
        copy_row(buffer, at, self.0.other, from, n, self.0.mix);
    }
}

// Rows from another buffer.
fn copy_rows(rows: Rows, buffer: &mut [u8], other: &[u8], mix: Mix)
    requires { TargetFits rows (length buffer.old) × SourceFits rows (length other.now) }
    ensures { (back : Bool) → buffer.new ≡ rows_of (Copied mix) back other.now rows buffer.old }
{
    let source = Source { other, mix };
    if is_plain(mix) {
        draw_rows_apart(PlainCopy(source), rows, buffer);
        return;
    }
    if (8 <= rows.n) & (rows.n <= 16) {
        draw_rows_apart(ShortCopy(source), rows, buffer);
        return;
    }
    if 32 <= rows.n {
        draw_rows_apart(LongCopy(source), rows, buffer);
        return;
    }
    draw_rows_apart(AnyCopy(source), rows, buffer);
}

// Pixels from the buffer itself: where the new bytes are the source bytes, for 8 to 16 pixels, and for any number from left to right
// and from right to left.
#[derive(Clone, Copy)]
struct PlainMove {
    back: bool,
    mix: Mix,
}

#[derive(Clone, Copy)]
struct ShortMove {
    back: bool,
    mix: Mix,
}

#[derive(Clone, Copy)]
struct RightMove {
    mix: Mix,
}

#[derive(Clone, Copy)]
struct LeftMove {
    mix: Mix,
}

impl DrawRow for PlainMove {
    ghost fits = { λ row own at from n. Plain (mixed row.mix) × (at + n ≤ own) × (from + n ≤ own) };

    ghost drawn = { λ row at from n l. row_of (Moved row.mix) row.back [] at from n l };

    #[inline(always)]
    fn draw(self, buffer: &mut [u8], at: usize, from: usize, n: usize) {
        move_plain_row(self.back, buffer, at, from, n);
    }
}

impl DrawRow for ShortMove {
    ghost fits = { λ row own at from n. (8 ≤ n) × (n ≤ 16) × (at + n ≤ own) × (from + n ≤ own) };

    ghost drawn = { λ row at from n l. row_of (Moved row.mix) row.back [] at from n l };

    #[inline(always)]
    fn draw(self, buffer: &mut [u8], at: usize, from: usize, n: usize) {
        move_short_row(self.back, buffer, at, from, n, self.mix);
    }
}

impl DrawRow for RightMove {
    ghost fits = { λ row own at from n. (at + n ≤ own) × (from + n ≤ own) };

    ghost drawn = { λ row at from n l. row_of (Moved row.mix) false [] at from n l };

    #[inline(always)]
    fn draw(self, buffer: &mut [u8], at: usize, from: usize, n: usize) {
        move_row(buffer, at, from, n, self.mix);
    }
}

impl DrawRow for LeftMove {
    ghost fits = { λ row own at from n. (at + n ≤ own) × (from + n ≤ own) };

    ghost drawn = { λ row at from n l. row_of (Moved row.mix) true [] at from n l };

    #[inline(always)]
    fn draw(self, buffer: &mut [u8], at: usize, from: usize, n: usize) {
        move_row_back(buffer, at + n, from + n, n, self.mix);
    }
}

// Whether each row is read from the one that was drawn before it. Byte by byte that is faster than by words that overlap.
fn reads_last_row(rows: Rows) -> bool {
    if rows.up {
        return rows.from.saturating_sub(rows.at) == rows.width;
    }
    rows.at.saturating_sub(rows.from) == rows.width
}

// Rows from the buffer itself.
fn move_rows(back: bool, rows: Rows, buffer: &mut [u8], mix: Mix)
    requires { TargetFits rows (length buffer.old) × SourceFits rows (length buffer.old) }
    ensures { (other : List ℕ) → buffer.new ≡ rows_of (Moved mix) back other rows buffer.old }
{
    if is_plain(mix) {
        draw_rows_apart(PlainMove { back, mix }, rows, buffer);
        return;
    }
    if (8 <= rows.n) & (rows.n <= 16) & !reads_last_row(rows) {
        draw_rows_apart(ShortMove { back, mix }, rows, buffer);
        return;
    }
    if back {
        draw_rows_apart(LeftMove { mix }, rows, buffer);
        return;
    }
    draw_rows_apart(RightMove { mix }, rows, buffer);
}

// Rows with one pen.
#[inline(always)]
pub(crate) fn fill_rows(rows: Rows, buffer: &mut [u8], pen: Pen)
    requires { TargetFits rows (length buffer.old) }
    ensures { (back : Bool) (stride from : ℕ) (other : List ℕ) → buffer.new ≡ rows_of (Solid pen) back other (record rows { stride = stride; from = from }) buffer.old }
{
    let alone = Rows {
        up: rows.up,
        width: rows.width,
        stride: 0,
        at: rows.at,
        from: 0,
        n: rows.n,
        count: rows.count,
    };
    draw_rows(Filled { pen }, alone, buffer);
}

// Rows, whatever they are painted from; `back` where each is drawn from right to left.
// Kept: a match, since the kinds of paint are a closed set.
pub(crate) fn paint_rows(paint: Paint, back: bool, rows: Rows, buffer: &mut [u8], other: &[u8])
    requires { PaintFits paint rows (length other.now) (length buffer.old) }
    ensures { buffer.new ≡ rows_of paint back other.now rows buffer.old }
{
    match paint {
        Paint::Solid(pen) => {
            fill_rows(rows, buffer, pen);
        }
        Paint::Copied(mix) => {
            copy_rows(rows, buffer, other, mix);
        }
        Paint::Moved(mix) => {
            move_rows(back, rows, buffer, mix);
        }
        Paint::Stippled(s) => {
            stipple_rows(rows, buffer, other, s);
        }
        Paint::StippledWithin(s) => {
            stipple_within(back, rows, buffer, s);
        }
    }
}
