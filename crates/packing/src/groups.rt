// The groups of edition 2.
ghost use Rattle.std.specs.Prelude.{◌≡◌, ◌+◌, ◌*◌, ◌/◌, ◌<◌, ◌≤◌, length};
ghost use Rattle.packing.specs.Groups.{word_at, group_of, closing_of, count_of};

use entries::Entry;

// The zero bit, and three entries.
#[derive(Clone, Copy)]
pub(crate) struct Group {
    pub zero: u32,
    pub entries: [Entry; 3],
}

// The four bytes from a place on, as one number.
fn word_at(list: &[u8], at: usize) -> u32
    requires { at + 4 ≤ length list.now }
    ensures { result ≡ word_at list.now at }
{
    u32::from_be_bytes([list[at], list[at + 1], list[at + 2], list[at + 3]])
}

// An entry with no spare bits.
fn entry(register: u32, word: u32) -> Entry
    ensures { result ≡ record { register = register; spare = 0; word = word } }
{
    Entry {
        register,
        spare: 0,
        word,
    }
}

// Group g.
pub(crate) fn group_at(list: &[u8], g: usize) -> Group
    requires { g < length list.now / 14 }
    ensures { result ≡ group_of list.now g }
{
    let at = 14 * g;
    let head = u32::from(u16::from_be_bytes([list[at], list[at + 1]]));
    let a = entry(head / 1024 % 32, word_at(list, at + 2));
    let b = entry(head / 32 % 32, word_at(list, at + 6));
    let c = entry(head % 32, word_at(list, at + 10));
    Group {
        zero: head / 32768,
        entries: [a, b, c],
    }
}

// The 31s that end a group.
fn closing(x: Group) -> usize
    ensures { result ≡ closing_of x }
{
    let [a, b, c] = x.entries;
    if c.register != 31 {
        return 0;
    }
    if b.register != 31 {
        return 1;
    }
    if a.register != 31 {
        return 2;
    }
    3
}

// The number of entries of a file of so many groups.
pub(crate) fn count_of(list: &[u8], groups: usize) -> usize
    requires { groups ≡ length list.now / 14 }
    ensures { result ≡ count_of list.now }
{
    if groups == 0 {
        return 0;
    }
    let x = group_at(list, groups - 1);
    3 * groups - closing(x)
}
