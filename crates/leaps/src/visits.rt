// Many pixels of one command visited at once: the stroke of a line, rows of a blit. The engine is lent to one compiled function
// alone, which reads its fields where they were written: handed on, it would be copied, and the copy would wait for the last store.
ghost use Rattle.std.specs.Prelude.{◌≡◌, true, false, cond, List, ℕ, ◌+◌, ◌≤◌, ◌<◌, eqb, length};
ghost use Rattle.geometry.specs.Coordinates.{point_of};
ghost use Rattle.geometry.specs.declared.Point.{Point};
ghost use Rattle.geometry.specs.declared.Window.{Window};
ghost use Rattle.strokes.specs.Strokes.{Dashed, dashed, stroke_of, dashes_of};
ghost use Rattle.tiles.specs.Tiles.{fill_of};
ghost use Rattle.entries.specs.Fields.{is_blit, is_line};
ghost use Rattle.commands.specs.Visits.{command_in, line_start, window_in};
ghost use Rattle.commands.specs.Steps.{scene};
ghost use Rattle.leaps.specs.Leaps.{selectors_in, mix_in, zero_pen_in, stipple_in, reads_own, paint_of, blit_in, stretch_of, pen_in, dashes_in, share_of, stroke_in, after_visits, Visited, buffers_fit, tiling_in, StrokeDone, BlitDone, TiledDone, OnceOn, LeftOn};

use blits::{Blit, Paint, Tiling, draw_blit, draw_tiled};
use commands::Engine;
use entries::{Command, command_of, pattern_control_of};
use geometry::{
    Extent, Range, Window, blit_count, line_count, visible_count, visible_index, window_of,
};
use raster::{Pen, Selectors};
use registers::Pattern;
use rows::Mix;
use stipples::Stipple;
use strokes::{Dashes, draw_dashes, draw_line};
use tiles::{Fill, tile_at};

// How a row of bytes is mixed.
fn selectors(e: Engine) -> Selectors
    ensures { result ≡ selectors_in e }
{
    let g = e.registers;
    Selectors::new(command_of(g.cmd).code, (g.mask % 256) as u8)
}

fn mix(e: Engine) -> Mix
    ensures { result ≡ mix_in e }
{
    let g = e.registers;
    Mix {
        selectors: selectors(e),
        key: command_of(g.cmd).key.then_some((g.key % 256) as u8),
    }
}

// The pen that draws a value.
fn pen(e: Engine, value: u32) -> Pen
    ensures { result ≡ pen_in e value }
{
    let g = e.registers;
    Pen::new(
        command_of(g.cmd).code,
        (value % 256) as u8,
        (g.mask % 256) as u8,
    )
}

// The pen of a 0 bit; none with TRNSP.
fn zero_pen(e: Engine) -> Option<Pen>
    ensures { result ≡ zero_pen_in e }
{
    let g = e.registers;
    if command_of(g.cmd).trnsp {
        return None;
    }
    Some(pen(e, g.back))
}

fn stipple(e: Engine) -> Stipple
    ensures { result ≡ stipple_in e }
{
    Stipple {
        fore: pen(e, e.registers.fore),
        back: zero_pen(e),
    }
}

// Whether a blit reads the buffer that it draws on.
fn within(c: Command) -> bool
    ensures { result ≡ reads_own c }
{
    c.to_virtual == c.from_virtual
}

// What the blit in CMD draws with.
#[tactic(auto, unfolding(crate::specs::Leaps::paint_of))]
fn paint(e: Engine) -> Paint
    ensures { result ≡ paint_of e }
{
    let g = e.registers;
    let c = command_of(g.cmd);
    if c.solid {
        return Paint::Solid(pen(e, g.fore));
    }
    match (c.stpl, within(c)) {
        (true, true) => Paint::StippledWithin(stipple(e)),
        (true, false) => Paint::Stippled(stipple(e)),
        (false, true) => Paint::Moved(mix(e)),
        (false, false) => Paint::Copied(mix(e)),
    }
}

// The blit in CMD, on buffers of that extent.
fn blit(e: Engine, extent: Extent, window: Window, paint: Paint) -> Blit
    requires { (window ≡ window_in extent e.registers) × (paint ≡ paint_of e) }
    ensures { result ≡ blit_in extent e }
{
    let g = e.registers;
    Blit {
        paint,
        width: extent.width,
        height: extent.height,
        window,
        from: g.xy0,
        to: g.xy1,
        size: g.xy2,
        direction: g.xy3,
    }
}

// Of all visits of the blit in CMD, the stretch that n of the `count` visible ones lie in, from the next one on.
#[tactic(auto, unfolding(crate::specs::Leaps::stretch_of))]
pub(crate) fn stretch(e: Engine, window: Window, count: usize, n: usize) -> Range
    requires { (0 < n) × (e.visited + n ≤ count) }
    ensures { result ≡ stretch_of window e count n }
{
    let g = e.registers;
    if n == count {
        return Range {
            from: 0,
            past: blit_count(g.xy2),
        };
    }
    let last = e.visited as usize + n - 1;
    Range {
        from: visible_index(g.xy1, g.xy2, g.xy3, window, e.visited as usize),
        past: visible_index(g.xy1, g.xy2, g.xy3, window, last) + 1,
    }
}

// Pixels visited at once: how many, whether none is left, and the pattern after them.
// Kept: `finished` beside the steps, which are counted in both cases.
#[derive(Clone, Copy)]
pub struct Visits {
    pub pattern: Pattern,
    pub steps: u64,
    pub finished: bool,
}

impl Visits {
    // None of `count` pixels.
    fn none(pattern: Pattern, count: usize) -> Visits
        ensures { result ≡ record { pattern = pattern; steps = 0; finished = eqb count 0 } }
    {
        Visits {
            pattern,
            steps: 0,
            finished: count == 0,
        }
    }

    // n of the pixels that are left.
    pub(crate) fn some(pattern: Pattern, n: usize, left: usize) -> Visits
        ensures { result ≡ record { pattern = pattern; steps = n; finished = eqb n left } }
    {
        Visits {
            pattern,
            steps: n as u64,
            finished: n == left,
        }
    }

    // The engine, which is under way, goes to where it is after them. Only the fields that change are written.
    #[tactic(auto, unfolding(crate::specs::Leaps::after_visits))]
    pub(crate) fn leave(self, e: &mut Engine)
        requires under { e.old.under_way ≡ true }
        requires room { self.finished ≡ false → e.old.visited + self.steps < 4294967296 }
        ensures { e.new ≡ after_visits e.old self }
    {
        e.pattern = self.pattern;
        if self.finished {
            e.under_way = false;
            e.visited = 0;
            e.last = e.registers.xy1;
        } else {
            e.visited += self.steps as u32;
        }
    }
}

// Of the pixels of a command, those that are left, and how many of these the budget reaches.
#[derive(Clone, Copy)]
pub struct Share {
    pub left: usize,
    pub n: usize,
}

impl Share {
    fn new(count: usize, visited: u32, budget: u64) -> Share
        ensures { result ≡ share_of count visited budget }
    {
        let left = count.saturating_sub(visited as usize);
        Share {
            left,
            n: (budget as usize).min(left),
        }
    }
}

// What the pixels of a line are drawn with, from a pattern state to the one after them.
trait Ink {
    ghost stroked: { Self → ℕ → Window → Point → Point → ℕ → ℕ → Dashed → Dashed };

    fn stroke(
        self,
        own: &mut [u8],
        width: u32,
        window: Window,
        start: Pattern,
        from: u32,
        to: u32,
        first: usize,
        n: usize,
    ) -> Pattern
        ensures { dashed own.new result ≡ stroked self width window (point_of from) (point_of to) first n (dashed own.old start) };
}

impl Ink for Pen {
    ghost stroked = { λ pen width w a b first n s. dashed (stroke_of width w pen a b first n s.buffer) s.pattern };

    fn stroke(
        self,
        own: &mut [u8],
        width: u32,
        window: Window,
        start: Pattern,
        from: u32,
        to: u32,
        first: usize,
        n: usize,
    ) -> Pattern {
        draw_line(own, width, window, self, from, to, first, n);
        start
    }
}

impl Ink for Dashes {
    ghost stroked = { λ dashes width w a b first n s. dashes_of width w dashes a b first n s };

    fn stroke(
        self,
        own: &mut [u8],
        width: u32,
        window: Window,
        start: Pattern,
        from: u32,
        to: u32,
        first: usize,
        n: usize,
    ) -> Pattern {
        draw_dashes(own, width, window, self, start, from, to, first, n)
    }
}

// What a line without SOLID is drawn with.
fn dashes(e: Engine) -> Dashes
    ensures { result ≡ dashes_in e }
{
    let g = e.registers;
    Dashes {
        lpat: g.lpat,
        fore: pen(e, g.fore),
        back: zero_pen(e),
        control: pattern_control_of(g.pctrl),
    }
}

// Pixels of the line in CMD, as many as the budget allows, on the buffer that it draws on; of a line of one pixel none. Each ink has
// a function of its own, so that its loops keep their values in registers.
fn visit_line<I: Ink + Copy>(
    e: Engine,
    extent: Extent,
    budget: u64,
    ink: I,
    own: &mut [u8],
) -> Visits
    requires line { is_line (command_in e) ≡ true }
    requires inked { (n : ℕ) (l : List ℕ) → I.stroked ink extent.width (window_in extent e.registers) (point_of (line_start e)) (point_of e.registers.xy1) e.visited n (dashed l e.pattern) ≡ stroke_in extent e n l }
    ensures { StrokeDone budget extent e own.old result own.new }
{
    let g = e.registers;
    let c = command_of(g.cmd);
    let from = e.line_start();
    let count = line_count(from, g.xy1, c.nlst);
    let s = Share::new(count, e.visited, budget);
    if (s.n == 0) | (count < 2) {
        return Visits::none(e.pattern, count);
    }
    let window = window_of(extent, c.clip, g.clptl, g.clpbr);
    let first = e.visited as usize;
    let pattern = ink.stroke(
        own,
        extent.width,
        window,
        e.pattern,
        from,
        g.xy1,
        first,
        s.n,
    );
    Visits::some(pattern, s.n, s.left)
}

// The same of a blit, row by row; of one with a tile none. What it is painted with is made first, so that it is stored a while before
// it is read.
fn visit_blit(e: Engine, extent: Extent, budget: u64, own: &mut [u8], other: &[u8]) -> Visits
    requires { is_blit (command_in e) ≡ true }
    ensures { BlitDone budget extent e own.old other.now result own.new }
{
    let g = e.registers;
    let paint = paint(e);
    let window = e.window(extent);
    let count = visible_count(g.xy1, g.xy2, g.xy3, window);
    let s = Share::new(count, e.visited, budget);
    if (s.n == 0) | command_of(g.cmd).apat | (256 <= g.key) {
        return Visits::none(e.pattern, count);
    }
    let b = blit(e, extent, window, paint);
    let r = stretch(e, window, count, s.n);
    draw_blit(b, r.from, r.len(), own, other);
    Visits::some(e.pattern, s.n, s.left)
}

// The blit in CMD from a tile, on a buffer of that extent.
pub(crate) fn tiling(e: Engine, extent: Extent) -> Tiling
    ensures { result ≡ tiling_in extent e }
{
    let g = e.registers;
    Tiling {
        selectors: selectors(e),
        width: extent.width,
        height: extent.height,
        window: e.window(extent),
        to: g.xy1,
        size: g.xy2,
        direction: g.xy3,
    }
}

// The tile of a fill with this upper left corner, in the buffer that it is read from.
fn source_tile(within: bool, extent: Extent, corner: u32, own: &[u8], other: &[u8]) -> Fill
    ensures { result ≡ fill_of extent corner (cond within own.now other.now) }
{
    tile_at(if within { own } else { other }, extent, corner)
}

// All pixels of a fill with a tile; none of one that the budget cuts, or that was cut before.
fn visit_tiled(e: Engine, extent: Extent, budget: u64, own: &mut [u8], other: &[u8]) -> Visits
    requires { (is_blit (command_in e) ≡ true) × ((command_in e).apat ≡ true) }
    ensures { TiledDone budget extent e own.old other.now result own.new }
{
    let g = e.registers;
    let c = command_of(g.cmd);
    let count = visible_count(g.xy1, g.xy2, g.xy3, e.window(extent));
    if (count == 0) | ((budget as usize) < count) | (0 < e.visited) | c.solid {
        return Visits::none(e.pattern, count);
    }
    let fill = source_tile(within(c), extent, g.xy0, own, other);
    if fill.whole {
        draw_tiled(tiling(e, extent), fill.tile, 0, blit_count(g.xy2), own);
    }
    Visits::some(e.pattern, count, count)
}

// Pixels of the command under way at once, as many as the budget allows; none of one that is visited otherwise. `other` is the buffer
// that it does not draw on.
#[inline(always)]
fn visit_command(e: Engine, extent: Extent, budget: u64, own: &mut [u8], other: &[u8]) -> Visits
    requires { (e.under_way ≡ true) × (buffers_fit extent (length own.old) (length other.now) ≡ true) }
    ensures { OnceOn budget extent e own.old other.now result own.new }
{
    let g = e.registers;
    let c = command_of(g.cmd);
    if c.is_line() {
        return if c.solid {
            visit_line(e, extent, budget, pen(e, g.fore), own)
        } else {
            visit_line(e, extent, budget, dashes(e), own)
        };
    }
    if !c.is_blit() {
        return Visits::none(e.pattern, 0);
    }
    if c.apat {
        visit_tiled(e, extent, budget, own, other)
    } else {
        visit_blit(e, extent, budget, own, other)
    }
}

// The same of an engine that is lent, which goes to where it is after them: how many. So the `Visits` need no place in memory, where
// the bytes past `finished` would be copied as well, and wait for the last store.
pub(crate) fn visit_on(
    e: &mut Engine,
    extent: Extent,
    budget: u64,
    own: &mut [u8],
    other: &[u8],
) -> u64
    requires { (e.old.under_way ≡ true) × (buffers_fit extent (length own.old) (length other.now) ≡ true) }
    ensures { LeftOn budget extent e.old own.old other.now result e.new own.new }
{
    let v = visit_command(*e, extent, budget, own, other);
    v.leave(e);
    v.steps
}

// n pixels visited, one by one.
pub(crate) fn visit_each(
    start: Engine,
    extent: Extent,
    fill: Fill,
    n: usize,
    display: &mut [u8],
    virt: &mut [u8],
) -> Engine
    ensures { Visited n extent (scene start fill display.old virt.old) result display.new virt.new }
{
    let mut e = start;
    let mut f = fill;
    for _ in 0..n {
        e = e.visit(extent, f, display, virt);
        f = e.fill_after(f);
    }
    e
}
