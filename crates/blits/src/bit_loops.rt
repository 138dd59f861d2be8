// Rows of pixels by bits that are `width` apart, down or up. Places in the source are bits; its rows are whole bytes, so that all of
// them begin at the same bit of a byte.
ghost use Rattle.std.specs.Prelude.{◌≡◌, Bool, true, false, cond, List, [], ◌⊎◌, ℕ, ◌+◌, ◌*◌, ◌/◌, ◌%◌, ◌<◌, ◌≤◌, length};
ghost use Rattle.blits.specs.declared.Paint.TheVariants.{Stippled, StippledWithin};
ghost use Rattle.blits.specs.Rows.{row_of, rows_of, rows_drawn, byte_rows, row_place, source_place, TargetFits, SourceFits};
ghost use Rattle.blits.specs.Bits.{expanded, expanded_within, expanded_back, BitsFit, BitsStay, RowBits};

use crate::bits::{
    BitPlace, Bits, Other, Own, expand, expand_back, expand_each, expand_narrow, is_apart,
};
use crate::eights::Inked;
use crate::row_loops::{DrawRow, Rows, draw_rows, draw_rows_apart};
use stipples::Stipple;

// The width of most glyphs, which have loops of their own: these are compiled to be short.
fn is_narrow(n: usize) -> bool
    ensures { result ≡ true → (n ≡ 8) ⊎ (n ≡ 16) }
{
    (n == 8) | (n == 16)
}

// Pixels by bits that no visit of a row writes: of any width, and 8 or 16. The source is a byte, and `first` a bit of it.
#[derive(Clone, Copy)]
struct Wide<B> {
    bits: B,
    first: usize,
    ink: Inked,
}

#[derive(Clone, Copy)]
struct Narrow<B> {
    bits: B,
    first: usize,
    ink: Inked,
}

impl<B: Bits + Copy> DrawRow for Wide<B> {
    ghost fits = { λ row own at byte n. (at + n ≤ own) × RowBits (B.bytes row.bits) at byte row.first n (B.size row.bits own) };

    ghost drawn = { λ row at byte n l. expanded row.ink.stipple n l at (B.bytes row.bits l) (8 * byte + row.first) };

    #[inline(always)]
    fn draw(self, buffer: &mut [u8], at: usize, from: usize, n: usize) {
        if self.ink.plain {
            expand::<B, true>(buffer, at, self.bits, from, self.first, n, self.ink);
            return;
        }
        expand::<B, false>(buffer, at, self.bits, from, self.first, n, self.ink);
    }
}

impl<B: Bits + Copy> DrawRow for Narrow<B> {
    ghost fits = { λ row own at byte n. ((n ≡ 8) ⊎ (n ≡ 16)) × (at + n ≤ own) × RowBits (B.bytes row.bits) at byte row.first n (B.size row.bits own) };

    ghost drawn = { λ row at byte n l. expanded row.ink.stipple n l at (B.bytes row.bits l) (8 * byte + row.first) };

    #[inline(always)]
    fn draw(self, buffer: &mut [u8], at: usize, from: usize, n: usize) {
        expand_narrow(buffer, at, self.bits, from, self.first, n, self.ink);
    }
}

// Pixels by bits of the buffer itself, each as it stands then: `back` from right to left.
#[derive(Clone, Copy)]
struct OneByOne {
    back: bool,
    first: usize,
    stipple: Stipple,
}

impl DrawRow for OneByOne {
    ghost fits = { λ row own at byte n. (at + n ≤ own) × BitsFit byte row.first n own };

    ghost drawn = { λ row at byte n l. row_of (StippledWithin row.stipple) row.back [] at (8 * byte + row.first) n l };

    #[inline(always)]
    fn draw(self, buffer: &mut [u8], at: usize, from: usize, n: usize) {
        let bit = BitPlace {
            byte: from,
            bit: self.first,
        };
        if self.back {
            expand_back(buffer, at, bit, n, self.stipple);
            return;
        }
        expand_each(buffer, at, bit, n, self.stipple);
    }
}

// The same rows, with bytes for sources.
fn byte_rows(rows: Rows) -> Rows
    ensures { result ≡ byte_rows rows }
{
    Rows {
        up: rows.up,
        width: rows.width,
        stride: rows.width,
        at: rows.at,
        from: rows.from / 8,
        n: rows.n,
        count: rows.count,
    }
}

// Rows by bits that no visit of a row writes.
fn expand_rows<B: Bits + Copy>(bits: B, rows: Rows, buffer: &mut [u8], s: Stipple)
    requires fit { TargetFits rows (length buffer.old) }
    requires source { (rows.stride ≡ 8 * rows.width) × SourceFits rows (8 * B.size bits (length buffer.old)) }
    requires few { B.size bits (length buffer.old) < 18446744073709551616 }
    requires stay { (k : ℕ) → k < rows.count → BitsStay (B.bytes bits) (row_place rows k) (source_place (byte_rows rows) k) (rows.from % 8) rows.n }
    ensures { buffer.new ≡ rows_drawn (λ at byte l. expanded s rows.n l at (B.bytes bits l) (8 * byte + rows.from % 8)) (byte_rows rows) rows.count buffer.old }
{
    let ink = Inked::new(s);
    let first = rows.from % 8;
    let bytes = byte_rows(rows);
    if is_narrow(rows.n) {
        draw_rows(Narrow { bits, first, ink }, bytes, buffer);
        return;
    }
    draw_rows(Wide { bits, first, ink }, bytes, buffer);
}

// Rows by bits of another buffer.
pub(crate) fn stipple_rows(rows: Rows, buffer: &mut [u8], other: &[u8], s: Stipple)
    requires { (rows.stride ≡ 8 * rows.width) × TargetFits rows (length buffer.old) × SourceFits rows (8 * length other.now) }
    ensures { (back : Bool) → buffer.new ≡ rows_of (Stippled s) back other.now rows buffer.old }
{
    expand_rows(Other(other), rows, buffer, s);
}

// Rows by bits of the buffer itself: at once where no pixel of a row is a byte that its bits lie in.
pub(crate) fn stipple_within(back: bool, rows: Rows, buffer: &mut [u8], s: Stipple)
    requires { (rows.stride ≡ 8 * rows.width) × TargetFits rows (length buffer.old) × SourceFits rows (8 * length buffer.old) }
    ensures { (other : List ℕ) → buffer.new ≡ rows_of (StippledWithin s) back other rows buffer.old }
{
    if is_apart(rows.at, rows.from / 8, rows.n) {
        expand_rows(Own, rows, buffer, s);
        return;
    }
    let row = OneByOne {
        back,
        first: rows.from % 8,
        stipple: s,
    };
    draw_rows_apart(row, byte_rows(rows), buffer);
}
