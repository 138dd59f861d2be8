// What a piece of bytes answers, stores and leaves held.
ghost use Rattle.std.specs.Prelude.{◌≡◌, true, ◌++◌, ◌+◌, ◌*◌, ◌/◌, ◌%◌, ◌≤◌, ◌<◌, length};
ghost use Rattle.lemmas.specs.Memory.{put_into};
ghost use Rattle.answers.specs.Reports.{report_of};
ghost use Rattle.feeds.specs.Feeds.{held_ok, joined, entries_in, completed, advanced, lent_feed, feed_report};

use crate::Feed;
use answers::{Refusal, Status};
use slots::{Sizes, Slot, none_held, put_fitting, within};

// The whole entries in so many held bytes and so many more, and the bytes left over; the sum may pass 64 bits.
fn cut(count: usize, more: usize) -> (usize, usize)
    requires { count ≤ 4 }
    ensures entries { result.0 ≡ (count + more) / 5 }
    ensures over { result.1 ≡ (count + more) % 5 }
{
    let rest = count + more % 5;
    (more / 5 + rest / 5, rest % 5)
}

// The feed record after a piece.
fn advance(f: Feed, piece: &[u8]) -> Feed
    requires f_value { held_ok f ≡ true }
    requires next_bound { f.next < 4611686018427387904 }
    ensures { result ≡ advanced f (joined f piece.now) }
{
    let count = f.count as usize;
    let (n, over) = cut(count, piece.len());
    if n == 0 {
        let mut held = f.held;
        put_fitting(&mut held, count, piece);
        return Feed {
            held,
            count: over as u32,
            ..f
        };
    }
    let start = piece.len() - over;
    let mut held: [u8; 4] = [0; 4];
    put_fitting(&mut held, 0, &piece[start..]);
    Feed {
        next: f.next + n as u64,
        held,
        count: over as u32,
    }
}

// Two parts one behind the other into a memory.
fn put_joined(memory: &mut [u8], at: usize, head: &[u8], tail: &[u8])
    requires { at + (length head.now + length tail.now) ≤ length memory.old }
    ensures { memory.new ≡ put_into memory.old at (head.now ++ tail.now) }
{
    put_fitting(memory, at, head);
    put_fitting(memory, at + head.len(), tail);
}

// The completed entries into list memory: the held bytes, then the piece's.
fn put_completed(list: &mut [u8], f: Feed, piece: &[u8])
    requires f_value { held_ok f ≡ true }
    requires piece_in_bounds { 5 * f.next + 5 * entries_in (joined f piece.now) ≤ length list.old }
    ensures { list.new ≡ put_into list.old (5 * f.next) (completed (joined f piece.now)) }
{
    let count = f.count as usize;
    let (n, over) = cut(count, piece.len());
    if n == 0 {
        return;
    }
    let first = 5 * (f.next as usize);
    let end = piece.len() - over;
    let bytes = f.held;
    let head = &bytes[..count];
    let tail = &piece[..end];
    put_joined(list, first, head, tail);
}

// What a piece answers.
fn feed_status(z: Sizes, a: Slot, p: Slot, list: &[u8], f: Feed, piece: &[u8]) -> Status
    ensures { report_of result ≡ (feed_report z a p list.now f piece.now).report }
{
    if !f.well_formed(z) {
        return Err(Refusal::Malformed);
    }
    if list.len() != z.list_len() {
        return Err(Refusal::WrongSize);
    }
    let first = f.next as usize;
    let (n, _) = cut(f.count as usize, piece.len());
    within(z.entries as usize, first, n)?;
    none_held(a, p, first, n)?;
    Ok(0)
}

// A piece of bytes: the entries that it completes go into list memory, the rest is held in the feed record that is handed back. A
// refusal changes nothing.
pub fn feed_into(
    z: Sizes,
    a: Slot,
    p: Slot,
    list: &mut [u8],
    f: Feed,
    piece: &[u8],
) -> Result<Feed, Refusal>
    ensures { lent_feed f result list.new ≡ feed_report z a p list.old f piece.now }
{
    feed_status(z, a, p, list, f, piece)?;
    put_completed(list, f, piece);
    Ok(advance(f, piece))
}
