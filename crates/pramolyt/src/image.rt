// The board record as words of 32 bits, part by part.
ghost use Rattle.std.specs.Prelude.{◌≡◌, ◌+◌, ◌≤◌};
ghost use Rattle.pramolyt.specs.Image.{sizes_at, command_at, registers_at, pattern_at, last_at, words, flag_of, put_words, sizes_words, slot_words, command_words, registers_words, pattern_words, last_words, words_of, sizes_in, slot_in, registers_in, pattern_in, engine_in, board_of, bare_in, untiled, flags_ok};

use crate::fill_image::{fill_in, put_fill, tile_blank_in};
use board::{Bare, Board};
use commands::Engine;
use geometry::Extent;
use lists::{Cursor, Span};
use registers::{Pattern, Registers};
use slots::{Active, Sizes, Slot};

// Where each part of the record begins, and how many words there are.
const SIZES: usize = 0;

const ACTIVE: usize = 3;

const PENDING: usize = 6;

const NEXT: usize = 9;

const COMMAND: usize = 10;

const REGISTERS: usize = 12;

const PATTERN: usize = 25;

const LAST: usize = 27;

pub(crate) const FILL: usize = 28;

pub(crate) const TILE: usize = 29;

pub const WORDS: usize = 61;

fn flag(b: bool) -> u32
    ensures { result ≡ flag_of b }
{
    u32::from(b)
}

// Whether each flag is 0 or 1, and zeros stand where no tile is held.
pub(crate) fn flags_ok(w: [u32; WORDS]) -> bool
    ensures { result ≡ flags_ok w }
{
    (w[ACTIVE] < 2)
        & (w[PENDING] < 2)
        & (w[COMMAND] < 2)
        & (w[FILL] < 2)
        & ((w[FILL] == 1) | tile_blank_in(w))
}

fn sizes_in(w: [u32; WORDS]) -> Sizes
    ensures { result ≡ sizes_in w }
{
    Sizes {
        extent: Extent {
            width: w[SIZES],
            height: w[SIZES + 1],
        },
        entries: w[SIZES + 2],
    }
}

fn slot_in(w: [u32; WORDS], at: usize) -> Slot
    requires { at + 3 ≤ words }
    ensures { result ≡ slot_in at w }
{
    Slot {
        taken: w[at] == 1,
        span: Span {
            start: w[at + 1],
            count: w[at + 2],
        },
    }
}

fn registers_in(w: [u32; WORDS]) -> Registers
    ensures { result ≡ registers_in w }
{
    Registers {
        cmd: w[REGISTERS],
        fore: w[REGISTERS + 1],
        back: w[REGISTERS + 2],
        mask: w[REGISTERS + 3],
        key: w[REGISTERS + 4],
        lpat: w[REGISTERS + 5],
        pctrl: w[REGISTERS + 6],
        clptl: w[REGISTERS + 7],
        clpbr: w[REGISTERS + 8],
        xy0: w[REGISTERS + 9],
        xy2: w[REGISTERS + 10],
        xy3: w[REGISTERS + 11],
        xy1: w[REGISTERS + 12],
    }
}

fn pattern_in(w: [u32; WORDS]) -> Pattern
    ensures { result ≡ pattern_in w }
{
    Pattern {
        place: w[PATTERN],
        repeat: w[PATTERN + 1],
    }
}

fn engine_in(w: [u32; WORDS]) -> Engine
    ensures { result ≡ engine_in w }
{
    let g = registers_in(w);
    let p = pattern_in(w);
    Engine {
        under_way: w[COMMAND] == 1,
        visited: w[COMMAND + 1],
        registers: g,
        pattern: p,
        last: w[LAST],
    }
}

// The record of an image, but for its tile.
pub(crate) fn decode_bare(w: [u32; WORDS]) -> Bare
    ensures { result ≡ bare_in w }
{
    let z = sizes_in(w);
    let a = slot_in(w, ACTIVE);
    let s = a.span;
    let p = slot_in(w, PENDING);
    let e = engine_in(w);
    Bare {
        sizes: z,
        active: Active {
            taken: a.taken,
            cursor: Cursor {
                span: s,
                next: w[NEXT],
            },
        },
        pending: p,
        engine: e,
    }
}

// The record of an image.
pub(crate) fn decode(w: [u32; WORDS]) -> Board
    ensures { result ≡ board_of w }
{
    let b = decode_bare(w);
    let z = b.sizes;
    let a = b.active;
    let p = b.pending;
    let e = b.engine;
    Board {
        sizes: z,
        active: a,
        pending: p,
        engine: e,
        fill: fill_in(w),
    }
}

// Kept: tried and slower; parts copied as arrays, by `copy_from_slice`, made `pramolyt_make` take fifteen times as long.
fn put_sizes(w: [u32; WORDS], z: Sizes) -> [u32; WORDS]
    ensures { result ≡ put_words w sizes_at (sizes_words z) }
{
    let mut v = w;
    v[SIZES] = z.extent.width;
    v[SIZES + 1] = z.extent.height;
    v[SIZES + 2] = z.entries;
    v
}

fn put_slot(w: [u32; WORDS], at: usize, s: Slot) -> [u32; WORDS]
    requires { at + 3 ≤ words }
    ensures { result ≡ put_words w at (slot_words s) }
{
    let mut v = w;
    v[at] = flag(s.taken);
    v[at + 1] = s.span.start;
    v[at + 2] = s.span.count;
    v
}

fn put_registers(w: [u32; WORDS], g: Registers) -> [u32; WORDS]
    ensures { result ≡ put_words w registers_at (registers_words g) }
{
    let mut v = w;
    v[REGISTERS] = g.cmd;
    v[REGISTERS + 1] = g.fore;
    v[REGISTERS + 2] = g.back;
    v[REGISTERS + 3] = g.mask;
    v[REGISTERS + 4] = g.key;
    v[REGISTERS + 5] = g.lpat;
    v[REGISTERS + 6] = g.pctrl;
    v[REGISTERS + 7] = g.clptl;
    v[REGISTERS + 8] = g.clpbr;
    v[REGISTERS + 9] = g.xy0;
    v[REGISTERS + 10] = g.xy2;
    v[REGISTERS + 11] = g.xy3;
    v[REGISTERS + 12] = g.xy1;
    v
}

// The command under way, the pattern state and the last point.
fn put_command(w: [u32; WORDS], e: Engine) -> [u32; WORDS]
    ensures { result ≡ put_words (put_words (put_words w command_at (command_words e)) pattern_at (pattern_words e.pattern)) last_at (last_words e) }
{
    let mut v = w;
    v[COMMAND] = flag(e.under_way);
    v[COMMAND + 1] = e.visited;
    v[PATTERN] = e.pattern.place;
    v[PATTERN + 1] = e.pattern.repeat;
    v[LAST] = e.last;
    v
}

// The image of a record with no tile.
pub(crate) fn encode_bare(b: Bare) -> [u32; WORDS]
    ensures { result ≡ words_of (untiled b) }
{
    let z = b.sizes;
    let a = b.active;
    let c = a.cursor;
    let p = b.pending;
    let e = b.engine;
    let g = e.registers;
    let blank = [0; WORDS];
    let sized = put_sizes(blank, z);
    let active = put_slot(sized, ACTIVE, a.slot());
    let mut both = put_slot(active, PENDING, p);
    both[NEXT] = c.next;
    put_command(put_registers(both, g), e)
}

// The image of a record.
pub(crate) fn encode(b: Board) -> [u32; WORDS]
    ensures { result ≡ words_of b }
{
    let z = b.sizes;
    let a = b.active;
    let p = b.pending;
    let e = b.engine;
    let f = b.fill;
    let bare = Bare {
        sizes: z,
        active: a,
        pending: p,
        engine: e,
    };
    put_fill(encode_bare(bare), f)
}
