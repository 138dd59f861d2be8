// Entries of edition 1 and groups of edition 2, written.
ghost use Rattle.std.specs.Prelude.{◌≡◌, ◌+◌, ◌*◌, ◌/◌, ◌<◌, ◌≤◌, length};
ghost use Rattle.std.proofs.lemmas.List.Edits.{sets};
ghost use Rattle.entries.specs.Layout.{entry_of};
ghost use Rattle.packing.specs.Editions.{word_bytes, head_of, head_bytes, entry_bytes, group_bytes, strung, list_of, present_of};
ghost use Rattle.packing.specs.Editions.{packed_group};
ghost use Rattle.packing.specs.Groups.{position_of};

use crate::groups::group_at;
use entries::{Entry, entry_at};

fn put_word(out: &mut [u8], at: usize, word: u32)
    requires { at + 4 ≤ length out.old }
    ensures { out.new ≡ sets out.old at (word_bytes word) }
{
    out[at..at + 4].copy_from_slice(&word.to_be_bytes());
}

fn put_head(out: &mut [u8], at: usize, head: u16)
    requires { at + 2 ≤ length out.old }
    ensures { out.new ≡ sets out.old at (head_bytes head) }
{
    out[at..at + 2].copy_from_slice(&head.to_be_bytes());
}

// One zero bit and three register numbers.
fn head_of(a: u32, b: u32, c: u32) -> u16
    ensures { result ≡ head_of a b c }
{
    (a % 32 * 1024 + b % 32 * 32 + c % 32) as u16
}

fn put_entry(out: &mut [u8], at: usize, e: Entry)
    requires { at + 5 ≤ length out.old }
    ensures { out.new ≡ sets out.old at (entry_bytes e) }
{
    out[at] = (e.register % 32 * 8 + e.spare % 8) as u8;
    put_word(out, at + 1, e.word);
}

fn put_group(out: &mut [u8], at: usize, a: Entry, b: Entry, c: Entry)
    requires { at + 14 ≤ length out.old }
    ensures { out.new ≡ sets out.old at (group_bytes a b c) }
{
    put_head(out, at, head_of(a.register, b.register, c.register));
    put_word(out, at + 2, a.word);
    put_word(out, at + 6, b.word);
    put_word(out, at + 10, c.word);
}

// The entry of an edition 1 list at a place; past its end, what stands for a missing one.
fn present(list: &[u8], place: usize) -> Entry
    ensures { result ≡ present_of list.now place }
{
    entry_at(list, place).unwrap_or(Entry {
        register: 31,
        spare: 0,
        word: 0,
    })
}

// The entry of an edition 1 list at a place that it has.
fn entry_in(list: &[u8], place: usize) -> Entry
    requires { place < length list.now / 5 }
    ensures { result ≡ entry_of list.now place }
{
    let at = 5 * place;
    let bytes = [
        list[at],
        list[at + 1],
        list[at + 2],
        list[at + 3],
        list[at + 4],
    ];
    Entry::of_bytes(bytes)
}

// Group g of an edition 1 list that has its three entries, in its place.
// Kept: beside `put_packed`, so that a group that is whole is written without a test (docs/DECISIONS.md).
fn put_whole(list: &[u8], out: &mut [u8], g: usize)
    requires { (g < length list.now / 15) × (g < length out.old / 14) }
    ensures { out.new ≡ sets out.old (14 * g) (packed_group list.now g) }
{
    let k = 3 * g;
    let a = entry_in(list, k);
    let b = entry_in(list, k + 1);
    let c = entry_in(list, k + 2);
    put_group(out, 14 * g, a, b, c);
}

// Group g of an edition 1 list, in its place.
fn put_packed(list: &[u8], out: &mut [u8], g: usize)
    requires { g < length out.old / 14 }
    ensures { out.new ≡ sets out.old (14 * g) (packed_group list.now g) }
{
    if g < list.len() / 15 {
        put_whole(list, out, g);
        return;
    }
    let k = 3 * g;
    let a = present(list, k);
    let b = present(list, k + 1);
    let c = present(list, k + 2);
    put_group(out, 14 * g, a, b, c);
}

// The first groups of an edition 1 list.
pub(crate) fn write_groups(list: &[u8], out: &mut [u8], groups: usize)
    requires { groups ≤ length out.old / 14 }
    ensures { out.new ≡ sets out.old 0 (strung (packed_group list.now) groups) }
{
    for g in 0..groups {
        put_packed(list, out, g);
    }
}

// The first entries of an edition 2 input.
pub(crate) fn write_entries(list: &[u8], out: &mut [u8], count: usize)
    requires { (count ≤ length out.old / 5) × (count ≤ 3 * (length list.now / 14)) }
    ensures { out.new ≡ sets out.old 0 (list_of (position_of list.now) count) }
{
    let whole = count / 3;
    for g in 0..whole {
        let x = group_at(list, g);
        let at = 15 * g;
        put_entry(out, at, x.entries[0]);
        put_entry(out, at + 5, x.entries[1]);
        put_entry(out, at + 10, x.entries[2]);
    }
    let left = count % 3;
    if left == 0 {
        return;
    }
    let x = group_at(list, whole);
    let at = 15 * whole;
    put_entry(out, at, x.entries[0]);
    if left == 1 {
        return;
    }
    put_entry(out, at + 5, x.entries[1]);
}
