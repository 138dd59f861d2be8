// The exported C functions, as include/pramolyt.h declares them: those of `pramolyt`, call by call, with the same clauses. A
// static library is one that no crate stands on, so they stand apart.

#![tactic(auto)]

ghost use Rattle.std.specs.Prelude.{◌≡◌};
ghost use Rattle.pramolyt.specs.Exports.{made, make_image, posted, post_image, changed, store_image, write_image, pictured, export_image, import_image, ran, run_image, feed_of, received, feed_image, filed, pack_file, unpack_file};
ghost use Rattle.feeds.specs.Feeds.{start_at};

use pramolyt::WORDS;

#[unsafe(no_mangle)]
pub extern "C" fn pramolyt_make_r2(
    board: &mut [u32; WORDS],
    width: usize,
    height: usize,
    entries: usize,
) -> u32
    ensures { made result board.new ≡ make_image width height entries }
{
    pramolyt::pramolyt_make_r2(board, width, height, entries)
}

#[unsafe(no_mangle)]
pub extern "C" fn pramolyt_post_r2(
    board: &mut [u32; WORDS],
    place: &mut u64,
    list: &[u8],
    start: usize,
    count: usize,
) -> u32
    ensures { posted result board.new place.new ≡ post_image board.old list.now start count }
{
    pramolyt::pramolyt_post_r2(board, place, list, start, count)
}

#[unsafe(no_mangle)]
pub extern "C" fn pramolyt_store_r2(
    board: &mut [u32; WORDS],
    list: &mut [u8],
    first: usize,
    bytes: &[u8],
) -> u32
    ensures { changed result board.new list.new ≡ store_image board.old list.old first bytes.now }
{
    pramolyt::pramolyt_store_r2(board, list, first, bytes)
}

#[unsafe(no_mangle)]
pub extern "C" fn pramolyt_window_write_r2(
    board: &mut [u32; WORDS],
    number: usize,
    offset: usize,
    bytes: &[u8],
    buffer: &mut [u8],
) -> u32
    ensures { changed result board.new buffer.new ≡ write_image board.old number offset bytes.now buffer.old }
{
    pramolyt::pramolyt_window_write_r2(board, number, offset, bytes, buffer)
}

#[unsafe(no_mangle)]
pub extern "C" fn pramolyt_export_r2(
    board: &mut [u32; WORDS],
    written: &mut u64,
    number: usize,
    buffer: &[u8],
    output: &mut [u8],
) -> u32
    ensures { pictured result board.new written.new output.new ≡ export_image board.old number buffer.now output.old }
{
    pramolyt::pramolyt_export_r2(board, written, number, buffer, output)
}

#[unsafe(no_mangle)]
pub extern "C" fn pramolyt_import_r2(
    board: &mut [u32; WORDS],
    number: usize,
    picture: &[u8],
    buffer: &mut [u8],
) -> u32
    ensures { changed result board.new buffer.new ≡ import_image board.old number picture.now buffer.old }
{
    pramolyt::pramolyt_import_r2(board, number, picture, buffer)
}

#[unsafe(no_mangle)]
pub extern "C" fn pramolyt_run_r2(
    board: &mut [u32; WORDS],
    steps: &mut u64,
    budget: u64,
    list: &[u8],
    display: &mut [u8],
    virt: &mut [u8],
) -> u32
    ensures { ran result board.new steps.new display.new virt.new ≡ run_image board.old budget list.now display.old virt.old }
{
    pramolyt::pramolyt_run_r2(board, steps, budget, list, display, virt)
}

#[unsafe(no_mangle)]
pub extern "C" fn pramolyt_feed_start_fields_r2(
    next: &mut u64,
    held: &mut [u8; 4],
    count: &mut u32,
    entry: u64,
)
    ensures { feed_of next.new held.new count.new ≡ start_at entry }
{
    pramolyt::pramolyt_feed_start_fields_r2(next, held, count, entry)
}

#[unsafe(no_mangle)]
pub extern "C" fn pramolyt_feed_fields_r2(
    board: &mut [u32; WORDS],
    next: &mut u64,
    held: &mut [u8; 4],
    count: &mut u32,
    list: &mut [u8],
    piece: &[u8],
) -> u32
    ensures { received result board.new (feed_of next.new held.new count.new) list.new ≡ feed_image board.old (feed_of next.old held.old count.old) list.old piece.now }
{
    pramolyt::pramolyt_feed_fields_r2(board, next, held, count, list, piece)
}

#[unsafe(no_mangle)]
pub extern "C" fn pramolyt_pack_r2(
    written: &mut u64,
    place: &mut u64,
    input: &[u8],
    output: &mut [u8],
) -> u32
    ensures { filed result written.new place.new output.new ≡ pack_file input.now output.old }
{
    pramolyt::pramolyt_pack_r2(written, place, input, output)
}

#[unsafe(no_mangle)]
pub extern "C" fn pramolyt_unpack_r2(
    written: &mut u64,
    place: &mut u64,
    input: &[u8],
    output: &mut [u8],
) -> u32
    ensures { filed result written.new place.new output.new ≡ unpack_file input.now output.old }
{
    pramolyt::pramolyt_unpack_r2(written, place, input, output)
}
