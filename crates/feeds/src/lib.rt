// Lists over the serial line (document 02, R-5): bytes cut at odd places become stores of the entries that they complete.

#![tactic(auto)]

ghost use Rattle.std.specs.Prelude.{◌≡◌};
ghost use Rattle.feeds.specs.Feeds.{start_at, feed_ok};

mod pieces;

pub use pieces::feed_into;
use slots::Sizes;

// The next list entry, and up to four held bytes of an unfinished one; the unused bytes are zero.
// Kept: `held` and `count`, since a record whose unused bytes are not zero is malformed (`feed_ok`), and C lends the three fields.
#[derive(Clone, Copy)]
pub struct Feed {
    pub next: u64,
    pub held: [u8; 4],
    pub count: u32,
}

impl Feed {
    // From a list entry on, any number.
    pub fn start(entry: u64) -> Feed
        ensures { result ≡ start_at entry }
    {
        Feed {
            next: entry,
            held: [0; 4],
            count: 0,
        }
    }

    // At most four held bytes, the unused ones zero, and the next entry within list memory or at its end.
    pub fn well_formed(self, z: Sizes) -> bool
        ensures { result ≡ feed_ok z self }
    {
        let bytes = self.held;
        ((self.count <= 4)
            & ((0 < self.count) | (bytes[0] == 0))
            & ((1 < self.count) | (bytes[1] == 0))
            & ((2 < self.count) | (bytes[2] == 0))
            & ((3 < self.count) | (bytes[3] == 0)))
            & (self.next <= z.entries as u64)
    }
}
