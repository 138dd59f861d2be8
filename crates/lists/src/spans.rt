// The span of a list, and what is asked of its entries together.
ghost use Rattle.std.specs.Prelude.{◌≡◌};
ghost use Rattle.lists.specs.Spans.{end_of, span_ok, is_none, first_illegal, touches};

use entries::legal_at;

// Start entry and count.
#[derive(Clone, Copy, PartialEq, Eq)]
pub struct Span {
    pub start: u32,
    pub count: u32,
}

impl Span {
    // The entry past the last.
    pub fn end(self) -> usize
        ensures { result ≡ end_of self }
    {
        self.start as usize + self.count as usize
    }

    // Whether it has entries, all of them in a memory of so many.
    pub fn fits(self, entries: u32) -> bool
        ensures { result ≡ span_ok self entries }
    {
        (1 <= self.count) & (self.end() <= entries as usize)
    }

    // Whether it is the span of no list, all zeros.
    pub fn is_none(self) -> bool
        ensures { result ≡ is_none self }
    {
        self == Span { start: 0, count: 0 }
    }

    // Whether n entries from `first` on have one of the list among them, fetched or not.
    pub fn touches(self, first: usize, n: usize) -> bool
        ensures { result ≡ touches self first n }
    {
        let end = self.end();
        let gap = (self.start as usize).saturating_sub(first);
        (first < end) & (gap < n)
    }
}

// The place of the first entry of a list that is not legal.
// Kept: document 01 names the form for this place: a loop over entries, left by break with the place of the first illegal one.
pub fn first_illegal(list: &[u8], span: Span) -> Option<usize>
    ensures { result ≡ first_illegal list.now span }
{
    let mut place = span.start as usize;
    let mut left = span.count as usize;
    loop {
        if left < 1 {
            break None;
        }
        if !legal_at(list, place) {
            break Some(place);
        }
        place += 1;
        left -= 1;
    }
}
