// The calls of C, as include/pramolyt.h declares them; `pramolyt_c` exports them. The board record is an image of 32-bit words,
// which the caller keeps; each call answers document 01's number (What the engine has, and What the host hears). Each name ends
// in the edition of the record and of the arguments: a change of either changes the names, here, there and in the header.

#![tactic(auto)]

ghost use Rattle.std.specs.Prelude.{◌≡◌, false, ◌-◌, ◌≤◌};
ghost use Rattle.commands.specs.Hatching.{hatches};
ghost use Rattle.board.specs.Runs.{added, run_call};
ghost use Rattle.board.specs.Bare.{tiled};
ghost use Rattle.pramolyt.specs.Exports.{made, make_image, posted, post_image, changed, store_image, write_image, pictured, export_image, import_image, ran, ran_by, run_image, feed_of, received, feed_image, filed, pack_file, unpack_file};
ghost use Rattle.pramolyt.specs.Image.{bare_in, engine_in};
ghost use Rattle.pramolyt.specs.Parts.{holds_in, HatchedImage, HeldDone};
ghost use Rattle.feeds.specs.Feeds.{start_at};

mod fill_image;
mod image;

use answers::{Heard, Part};
use board::Board;
use feeds::Feed;
pub use image::WORDS;
use image::{FILL, decode, decode_bare, encode, encode_bare, flags_ok};
use packing::{Filed, pack, unpack};
use std::ops::ControlFlow;

// Kept: what an answer and a buffer are numbers for, and that each call stands by itself, here and in `pramolyt_c`: the C interface.
pub fn pramolyt_make_r2(
    board: &mut [u32; WORDS],
    width: usize,
    height: usize,
    entries: usize,
) -> u32
    ensures { made result board.new ≡ make_image width height entries }
{
    let made = Board::make(width, height, entries);
    *board = encode(made.board);
    made.status.number()
}

pub fn pramolyt_post_r2(
    board: &mut [u32; WORDS],
    place: &mut u64,
    list: &[u8],
    start: usize,
    count: usize,
) -> u32
    ensures { posted result board.new place.new ≡ post_image board.old list.now start count }
{
    let w = *board;
    if !flags_ok(w) {
        *place = 0;
        return 1;
    }
    let b = decode(w);
    let posted = b.post(list, start, count);
    *board = encode(posted.board);
    *place = posted.status.place() as u64;
    posted.status.number()
}

pub fn pramolyt_store_r2(
    board: &mut [u32; WORDS],
    list: &mut [u8],
    first: usize,
    bytes: &[u8],
) -> u32
    ensures { changed result board.new list.new ≡ store_image board.old list.old first bytes.now }
{
    let w = *board;
    if !flags_ok(w) {
        return 1;
    }
    let b = decode(w);
    let stored = b.store(list, first, bytes);
    *board = encode(stored.board);
    stored.status.number()
}

pub fn pramolyt_window_write_r2(
    board: &mut [u32; WORDS],
    number: usize,
    offset: usize,
    bytes: &[u8],
    buffer: &mut [u8],
) -> u32
    ensures { changed result board.new buffer.new ≡ write_image board.old number offset bytes.now buffer.old }
{
    let w = *board;
    if !flags_ok(w) {
        return 1;
    }
    let b = decode(w);
    let written = b.window_write(number, offset, bytes, buffer);
    *board = encode(written.board);
    written.status.number()
}

pub fn pramolyt_export_r2(
    board: &mut [u32; WORDS],
    written: &mut u64,
    number: usize,
    buffer: &[u8],
    output: &mut [u8],
) -> u32
    ensures { pictured result board.new written.new output.new ≡ export_image board.old number buffer.now output.old }
{
    let w = *board;
    if !flags_ok(w) {
        *written = 0;
        return 1;
    }
    let b = decode(w);
    let done = b.export(number, buffer, output);
    *board = encode(done.board);
    match done.written {
        Ok(bytes) => {
            *written = bytes as u64;
            0
        }
        Err(refusal) => {
            *written = 0;
            refusal.number()
        }
    }
}

pub fn pramolyt_import_r2(
    board: &mut [u32; WORDS],
    number: usize,
    picture: &[u8],
    buffer: &mut [u8],
) -> u32
    ensures { changed result board.new buffer.new ≡ import_image board.old number picture.now buffer.old }
{
    let w = *board;
    if !flags_ok(w) {
        return 1;
    }
    let b = decode(w);
    let done = b.import(number, picture, buffer);
    *board = encode(done.board);
    done.status.number()
}

// Whether an image holds a tile, or a fill with one is under way.
fn holds(w: [u32; WORDS]) -> bool
    ensures { result ≡ holds_in w }
{
    let b = decode_bare(w);
    (w[FILL] == 1) | b.engine.hatches()
}

// A fill that is held in an image, as many pixels as the budget allows.
fn hatch_image(
    board: &mut [u32; WORDS],
    budget: u64,
    list: &[u8],
    display: &mut [u8],
    virt: &mut [u8],
) -> Part
    ensures { HatchedImage budget list.now board.old display.old virt.old result board.new display.new virt.new }
{
    let b = decode(*board);
    let ran = b.hatch(budget, list, display, virt);
    *board = encode(ran.board);
    ran.part
}

// The steps of a fill that an image holds, as many as the budget allows; none where it holds none.
fn hatch_held(
    board: &mut [u32; WORDS],
    budget: u64,
    list: &[u8],
    display: &mut [u8],
    virt: &mut [u8],
) -> Part
    ensures { HeldDone budget list.now board.old display.old virt.old result board.new display.new virt.new }
{
    if !holds(*board) {
        return ControlFlow::Continue(0);
    }
    hatch_image(board, budget, list, display, virt)
}

// The rest of a run of an image that holds no tile, after so many steps: the lists, and a fill with a tile that the budget cuts.
fn run_lists(
    board: &mut [u32; WORDS],
    steps: &mut u64,
    done: u64,
    budget: u64,
    list: &[u8],
    display: &mut [u8],
    virt: &mut [u8],
) -> u32
    requires few { done ≤ budget }
    requires none { hatches (engine_in board.old) ≡ false }
    ensures { ran result board.new steps.new display.new virt.new ≡ ran_by (added done (run_call (budget - done) list.now (tiled (bare_in board.old) display.old virt.old))) }
{
    let b = decode_bare(*board);
    let ran = b.run(budget - done, list, display, virt);
    match ran.part {
        ControlFlow::Break(status) => {
            *board = encode_bare(ran.bare);
            *steps = done + status.steps();
            status.number()
        }
        ControlFlow::Continue(more) => {
            let k = done + more;
            *board = encode(ran.bare.held(display, virt));
            let last = hatch_image(board, budget - k, list, display, virt);
            *steps = k + last.steps();
            last.number()
        }
    }
}

pub fn pramolyt_run_r2(
    board: &mut [u32; WORDS],
    steps: &mut u64,
    budget: u64,
    list: &[u8],
    display: &mut [u8],
    virt: &mut [u8],
) -> u32
    ensures { ran result board.new steps.new display.new virt.new ≡ run_image board.old budget list.now display.old virt.old }
{
    let w = *board;
    if !flags_ok(w) {
        *steps = 0;
        return 1;
    }
    match hatch_held(board, budget, list, display, virt) {
        ControlFlow::Break(status) => {
            *steps = status.steps();
            status.number()
        }
        ControlFlow::Continue(done) => run_lists(board, steps, done, budget, list, display, virt),
    }
}

pub fn pramolyt_feed_start_fields_r2(
    next: &mut u64,
    held: &mut [u8; 4],
    count: &mut u32,
    entry: u64,
)
    ensures { feed_of next.new held.new count.new ≡ start_at entry }
{
    let feed = Feed::start(entry);
    let bytes = feed.held;
    *next = feed.next;
    *held = bytes;
    *count = feed.count;
}

pub fn pramolyt_feed_fields_r2(
    board: &mut [u32; WORDS],
    next: &mut u64,
    held: &mut [u8; 4],
    count: &mut u32,
    list: &mut [u8],
    piece: &[u8],
) -> u32
    ensures { received result board.new (feed_of next.new held.new count.new) list.new ≡ feed_image board.old (feed_of next.old held.old count.old) list.old piece.now }
{
    let w = *board;
    if !flags_ok(w) {
        return 1;
    }
    let b = decode(w);
    let feed = Feed {
        next: *next,
        held: *held,
        count: *count,
    };
    let received = b.feed(feed, list, piece);
    let after = received.feed;
    let bytes = after.held;
    *board = encode(received.board);
    *next = after.next;
    *held = bytes;
    *count = after.count;
    received.status.number()
}

pub fn pramolyt_pack_r2(written: &mut u64, place: &mut u64, input: &[u8], output: &mut [u8]) -> u32
    ensures { filed result written.new place.new output.new ≡ pack_file input.now output.old }
{
    let status = pack(input, output);
    *written = status.written() as u64;
    *place = status.place() as u64;
    status.number()
}

pub fn pramolyt_unpack_r2(
    written: &mut u64,
    place: &mut u64,
    input: &[u8],
    output: &mut [u8],
) -> u32
    ensures { filed result written.new place.new output.new ≡ unpack_file input.now output.old }
{
    let status = unpack(input, output);
    *written = status.written() as u64;
    *place = status.place() as u64;
    status.number()
}
