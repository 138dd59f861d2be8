// Where a run stands in a list.
ghost use Rattle.std.specs.Prelude.{◌≡◌};
ghost use Rattle.lists.specs.Cursors.{cursor_ok, ended_of};

use crate::spans::Span;
use entries::Entry;

// A list and its next entry.
#[derive(Clone, Copy)]
pub struct Cursor {
    pub span: Span,
    pub next: u32,
}

impl Cursor {
    // Whether the next entry is one of the list; with pixels still to visit it is past the start and may be the end.
    pub fn well_formed(self, under_way: bool) -> bool
        ensures { result ≡ cursor_ok self under_way }
    {
        let s = self.span;
        if under_way {
            return (s.start < self.next) & (self.next as usize <= s.end());
        }
        (s.start <= self.next) & ((self.next as usize) < s.end())
    }

    // Whether neither entries nor pixels are left.
    pub fn ended(self, under_way: bool) -> bool
        ensures { result ≡ ended_of self under_way }
    {
        !under_way & (self.span.end() <= self.next as usize)
    }
}

// What the next step of a list is. A run does many at once and names none; the definitions do.
#[derive(Clone, Copy)]
pub enum Next {
    // None: nothing of the list is left.
    Ended,
    Visit,
    Take(Entry),
    // None: the next entry is illegal.
    Broken,
}
