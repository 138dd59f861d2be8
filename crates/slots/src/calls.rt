// What post, store and window write answer, of a well formed record: the tests that a call passes one after the other.
ghost use Rattle.std.specs.Prelude.{◌≡◌, not, ◌||◌, ◌+◌, ◌≤◌, leb, length};
ghost use Rattle.lemmas.specs.Memory.{put_into};
ghost use Rattle.answers.specs.Reports.{report_of};
ghost use Rattle.slots.specs.Calls.{Tested, put_fitting, post_report, holds_any, lent, store_report, write_report};

use crate::record::{Sizes, Slot};
use answers::{Refusal, Status};
use lists::{Span, first_illegal};

// Whether n bytes or entries from one on end within so many. The sum of both may pass 64 bits.
pub fn within(total: usize, at: usize, n: usize) -> Result<(), Refusal>
    ensures { Tested (leb (at + n) total) Refusal.PastTheEnd result }
{
    if at <= total && n <= total - at {
        Ok(())
    } else {
        Err(Refusal::PastTheEnd)
    }
}

// Bytes into a memory, from a place on.
fn put(memory: &mut [u8], at: usize, bytes: &[u8])
    requires { at + length bytes.now ≤ length memory.old }
    ensures { memory.new ≡ put_into memory.old at bytes.now }
{
    let end = at + bytes.len();
    memory[at..end].copy_from_slice(bytes);
}

// The same where they fit, and nothing where they do not.
pub fn put_fitting(memory: &mut [u8], at: usize, bytes: &[u8])
    ensures { memory.new ≡ put_fitting memory.old at bytes.now }
{
    if within(memory.len(), at, bytes.len()).is_ok() {
        put(memory, at, bytes);
    }
}

// Whether n entries from `first` on have one of a slot's list among them.
pub fn held(s: Slot, first: usize, n: usize) -> bool
    ensures { result ≡ holds_any s first n }
{
    let span = s.span;
    s.taken & span.touches(first, n)
}

// Whether neither slot's list has one of these entries.
pub fn none_held(a: Slot, p: Slot, first: usize, n: usize) -> Result<(), Refusal>
    ensures { Tested (not (holds_any a first n || holds_any p first n)) Refusal.EntryHeld result }
{
    if held(a, first, n) | held(p, first, n) {
        return Err(Refusal::EntryHeld);
    }
    Ok(())
}

// Whether no list is posted.
pub(crate) fn none_taken(a: Slot, p: Slot) -> Result<(), Refusal>
    ensures { Tested (not (a.taken || p.taken)) Refusal.Busy result }
{
    if a.taken | p.taken {
        return Err(Refusal::Busy);
    }
    Ok(())
}

// Kept: sizes and slots side by side, here and in feeds: a struct of them would be made for one call and read once.
// A list of `count` entries from `start` on, to be posted beside the lists in the active slot `a` and the pending slot `p`.
pub fn post_status(z: Sizes, a: Slot, p: Slot, list: &[u8], start: usize, count: usize) -> Status
    ensures { report_of result ≡ post_report z a p list.now start count }
{
    if list.len() != z.list_len() {
        return Err(Refusal::WrongSize);
    }
    if count == 0 {
        return Err(Refusal::NoEntries);
    }
    within(z.entries as usize, start, count)?;
    if a.taken & p.taken {
        return Err(Refusal::SlotsFull);
    }
    let span = Span {
        start: start as u32,
        count: count as u32,
    };
    match first_illegal(list, span) {
        Some(place) => Err(Refusal::IllegalEntry(place)),
        None => Ok(0),
    }
}

// Bytes stored into list memory from an entry on.
pub fn store_into(z: Sizes, a: Slot, p: Slot, list: &mut [u8], first: usize, bytes: &[u8]) -> Status
    ensures { lent result list.new ≡ store_report z a p list.old first bytes.now }
{
    let n = bytes.len() / 5;
    if !((list.len() == z.list_len()) & (bytes.len() % 5 == 0)) {
        return Err(Refusal::WrongSize);
    }
    within(z.entries as usize, first, n)?;
    none_held(a, p, first, n)?;
    put(list, 5 * first, bytes);
    Ok(0)
}

// Bytes written into the display (0) or the virtual buffer (1), from an offset on.
pub fn write_into(
    z: Sizes,
    a: Slot,
    p: Slot,
    number: usize,
    offset: usize,
    bytes: &[u8],
    buffer: &mut [u8],
) -> Status
    ensures { lent result buffer.new ≡ write_report z a p number offset bytes.now buffer.old }
{
    z.named(number, buffer.len())?;
    within(z.area(), offset, bytes.len())?;
    none_taken(a, p)?;
    put(buffer, offset, bytes);
    Ok(0)
}
