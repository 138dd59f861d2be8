// Entries out of list memory.
ghost use Rattle.std.specs.Prelude.{◌≡◌};
ghost use Rattle.entries.specs.Layout.{entry_of, decoded_of, word_at};

// Register number, the three bits below it, and data.
// Kept: the register is a number and no enum, since list memory may hold any, and `data_legal` and `written_of` answer for all of
// them.
#[derive(Clone, Copy)]
pub struct Entry {
    pub register: u32,
    pub spare: u32,
    pub word: u32,
}

impl Entry {
    // The entry of five bytes.
    pub fn of_bytes(bytes: [u8; 5]) -> Entry
        ensures { result ≡ entry_of bytes 0 }
    {
        let first = u32::from(bytes[0]);
        Entry {
            register: first / 8,
            spare: first % 8,
            word: u32::from_be_bytes([bytes[1], bytes[2], bytes[3], bytes[4]]),
        }
    }
}

// The entry at a place of list memory, counted in entries; none where list memory has no such place.
pub fn entry_at(list: &[u8], place: usize) -> Option<Entry>
    ensures { result ≡ decoded_of list.now place }
{
    if list.len() / 5 <= place {
        return None;
    }
    let at = 5 * place;
    let bytes = [
        list[at],
        list[at + 1],
        list[at + 2],
        list[at + 3],
        list[at + 4],
    ];
    Some(Entry::of_bytes(bytes))
}

// The data of the entry at a place, 0 where list memory has no such place.
pub fn word_at(list: &[u8], place: usize) -> u32
    ensures { result ≡ word_at list.now place }
{
    match entry_at(list, place) {
        Some(e) => e.word,
        None => 0,
    }
}
