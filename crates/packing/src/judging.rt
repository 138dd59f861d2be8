// What a conversion answers, before it writes.
ghost use Rattle.std.specs.Prelude.{◌≡◌, ◌+◌, ◌/◌, ◌<◌, ◌≤◌, length};
ghost use Rattle.packing.specs.Reports.{report_of};
ghost use Rattle.packing.specs.Groups.{group_of, count_of};
ghost use Rattle.packing.specs.Conversions.{legality_of, pack_report};
ghost use Rattle.packing.specs.Conversions.{passes, first_failing, placed, well_formed, judged_whole, unpack_report};
ghost use Rattle.packing.specs.Passes.{judged_past, full_group, leading, present, rest_sound};

use crate::groups::{Group, count_of, group_at};
use crate::outcomes::{FileRefusal, FileStatus};
use entries::{Entry, legal_at, legal_data, legal_entry};

// The first illegal entry of an edition 1 list, entry by entry.
fn judge_entries(list: &[u8]) -> FileStatus
    ensures { report_of result ≡ legality_of list.now }
{
    let count = list.len() / 5;
    match (0..count).find(|place| !legal_at(list, *place)) {
        Some(place) => Err(FileRefusal::IllegalEntry(place)),
        None => Ok(14 * ((count + 2) / 3)),
    }
}

// The bytes that packing into `room` bytes writes.
pub(crate) fn packed_size(input: &[u8], room: usize) -> FileStatus
    ensures { report_of result ≡ pack_report input.now room }
{
    let count = input.len() / 5;
    if (input.len() % 5 != 0) | (room / 14 < (count + 2) / 3) {
        return Err(FileRefusal::WrongSize);
    }
    if input.len() == 0 {
        return Err(FileRefusal::NoEntries);
    }
    if 4096 < count {
        return Err(FileRefusal::TooMany);
    }
    judge_entries(input)
}

// A legal entry, or a 31.
fn passes(e: Entry) -> bool
    ensures { result ≡ passes e }
{
    if e.register == 31 {
        return true;
    }
    legal_entry(e.register, e.spare, e.word)
}

// The first entry of a group that does not pass.
fn first_failing(x: Group) -> Option<usize>
    ensures { result ≡ first_failing x }
{
    x.entries.iter().position(|e| !passes(*e))
}

// An entry before the count is no 31, and one past it has no data.
fn well_placed(e: Entry, place: usize, count: usize) -> bool
    ensures { result ≡ placed e place count }
{
    if place < count {
        return e.register != 31;
    }
    e.word == 0
}

// Whether the zero bit is zero and each entry of a group in its place.
fn well_formed(x: Group, place: usize, count: usize) -> bool
    requires { place + 2 ≤ 18446744073709551615 }
    ensures { result ≡ well_formed x place count }
{
    let [a, b, c] = x.entries;
    let a = well_placed(a, place, count);
    let b = well_placed(b, place + 1, count);
    let c = well_placed(c, place + 2, count);
    (x.zero == 0) & a & b & c
}

// Group by group from group `from` on, the first illegal entry and whether all is well formed.
fn judge_groups(list: &[u8], count: usize, start: bool, from: usize) -> FileStatus
    requires { count ≤ 4096 }
    ensures { report_of result ≡ judged_past list.now count start from }
{
    let mut sound = start;
    for g in from..list.len() / 14 {
        let x = group_at(list, g);
        if let Some(k) = first_failing(x) {
            return Err(FileRefusal::IllegalEntry(3 * g + k));
        }
        let good = well_formed(x, 3 * g, count);
        sound = sound & good;
    }
    if sound {
        Ok(5 * count)
    } else {
        Err(FileRefusal::MalformedFile)
    }
}

// Three legal entries, of which none is a 31, and the zero bit zero. A group has no spare bits.
fn full(x: Group) -> bool
    ensures { result ≡ full_group x }
{
    (x.zero == 0) && x.entries.iter().all(|e| legal_data(e.register, e.word))
}

// How many groups are full before the first that is not, at most `most`.
fn full_groups(list: &[u8], most: usize) -> usize
    requires { most ≤ length list.now / 14 }
    ensures { result ≡ leading (λ g. full_group (group_of list.now g)) 0 most }
{
    for g in 0..most {
        if !full(group_at(list, g)) {
            return g;
        }
    }
    most
}

// The zero bit zero, one legal entry or two, and no data after them.
fn present(x: Group, entries: usize) -> bool
    ensures { result ≡ present x entries }
{
    let [a, b, c] = x.entries;
    let first = legal_entry(a.register, a.spare, a.word);
    let second = if entries == 1 {
        b.word == 0
    } else {
        legal_entry(b.register, b.spare, b.word)
    };
    (x.zero == 0) & first & second & (c.word == 0)
}

// Whether nothing is left after `from` full groups but the entries of a last group that is sound.
fn rest_sound(list: &[u8], groups: usize, count: usize, from: usize) -> bool
    requires { (groups ≡ length list.now / 14) × (0 < groups) }
    ensures { result ≡ rest_sound list.now count from }
{
    if from < count / 3 {
        return false;
    }
    let left = count % 3;
    if left == 0 {
        return 3 * groups == count;
    }
    present(group_at(list, groups - 1), left)
}

// The full groups first, which a sound file is made of but for the end; where it is not, group by group.
fn judge(list: &[u8], groups: usize, count: usize) -> FileStatus
    requires { (groups ≡ length list.now / 14) × (0 < groups) × (count ≡ count_of list.now) × (count ≤ 4096) }
    ensures { report_of result ≡ judged_whole list.now count }
{
    let from = full_groups(list, count / 3);
    if rest_sound(list, groups, count, from) {
        return Ok(5 * count);
    }
    judge_groups(list, count, 3 * groups < count + 3, from)
}

// The bytes that unpacking into `room` bytes writes.
pub(crate) fn unpacked_size(input: &[u8], room: usize) -> FileStatus
    ensures { report_of result ≡ unpack_report input.now room }
{
    let groups = input.len() / 14;
    let count = count_of(input, groups);
    if (14 * groups != input.len()) | (room / 5 < count) {
        return Err(FileRefusal::WrongSize);
    }
    if input.len() == 0 {
        return Err(FileRefusal::NoEntries);
    }
    if 4096 < count {
        return Err(FileRefusal::TooMany);
    }
    judge(input, groups, count)
}
