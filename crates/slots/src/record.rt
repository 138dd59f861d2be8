// Sizes and slots of a board record.
ghost use Rattle.std.specs.Prelude.{◌≡◌, ◌&&◌, ◌*◌, eqb, leb};
ghost use Rattle.slots.specs.Slots.{sizes_ok, sizes, MadeSizes, area_of, lent_ok, slot_ok, slot_of, active_on, active_ok};
ghost use Rattle.slots.specs.Calls.{Tested};

use answers::Refusal;
use geometry::Extent;
use lists::{Cursor, Span};

#[derive(Clone, Copy)]
pub struct Sizes {
    pub extent: Extent,
    pub entries: u32,
}

// The pending slot: a list that has not begun.
// Kept: `taken` beside the span, since a free slot that is not zeros is a malformed record (`slot_ok`), which an Option cannot hold.
#[derive(Clone, Copy)]
pub struct Slot {
    pub taken: bool,
    pub span: Span,
}

// The active slot: the list that runs, and where it stands.
// Kept: `taken` beside the cursor, as in Slot (`active_ok`).
#[derive(Clone, Copy)]
pub struct Active {
    pub taken: bool,
    pub cursor: Cursor,
}

// Whether a board has so many columns, rows and entries.
fn in_limits(width: usize, height: usize, entries: usize) -> bool
    ensures { result ≡ sizes_ok (sizes width height entries) }
{
    (1 <= width)
        & (width <= 2048)
        & (1 <= height)
        & (height <= 2048)
        & (1 <= entries)
        & (entries <= 4096)
}

impl Sizes {
    // The sizes of a board, which are in limits.
    pub fn new(width: usize, height: usize, entries: usize) -> Result<Sizes, Refusal>
        ensures { MadeSizes width height entries result }
    {
        if !in_limits(width, height, entries) {
            return Err(Refusal::WrongSize);
        }
        Ok(Sizes {
            extent: Extent {
                width: width as u32,
                height: height as u32,
            },
            entries: entries as u32,
        })
    }

    pub fn in_limits(self) -> bool
        ensures { result ≡ sizes_ok self }
    {
        let x = self.extent;
        in_limits(x.width as usize, x.height as usize, self.entries as usize)
    }

    // The bytes of list memory.
    pub fn list_len(self) -> usize
        ensures { result ≡ 5 * self.entries }
    {
        5 * (self.entries as usize)
    }

    // The bytes of a buffer.
    pub(crate) fn area(self) -> usize
        ensures { result ≡ area_of self }
    {
        let x = self.extent;
        (x.width as usize) * (x.height as usize)
    }

    // Whether memories of these lengths are list memory and two buffers of these sizes.
    pub fn lent_ok(self, list: usize, display: usize, virt: usize) -> bool
        ensures { result ≡ lent_ok self list display virt }
    {
        let area = self.area();
        (list == self.list_len()) & (display == area) & (virt == area)
    }

    // Whether the number names a buffer, and a memory of this length is one.
    // Kept: a buffer by its number, here and in each call: one past 1 is answered WrongSize (document 01, What the host hears).
    pub(crate) fn named(self, number: usize, buffer: usize) -> Result<(), Refusal>
        ensures { Tested (leb number 1 && eqb buffer (area_of self)) Refusal.WrongSize result }
    {
        if (number <= 1) & (buffer == self.area()) {
            Ok(())
        } else {
            Err(Refusal::WrongSize)
        }
    }
}

impl Slot {
    // Whether it holds a list in a memory of so many entries, or zeros.
    pub fn well_formed(self, entries: u32) -> bool
        ensures { result ≡ slot_ok self entries }
    {
        let s = self.span;
        if self.taken {
            return s.fits(entries);
        }
        s.is_none()
    }
}

impl Active {
    // The list of a slot, from its first entry on.
    pub fn on(slot: Slot) -> Active
        ensures { result ≡ active_on slot }
    {
        let s = slot.span;
        Active {
            taken: slot.taken,
            cursor: Cursor {
                span: s,
                next: s.start,
            },
        }
    }

    // The slot, without the place at which its list stands.
    pub fn slot(self) -> Slot
        ensures { result ≡ slot_of self }
    {
        let c = self.cursor;
        let s = c.span;
        Slot {
            taken: self.taken,
            span: s,
        }
    }

    // Whether it holds a list in a memory of so many entries and stands in it, or zeros.
    pub fn well_formed(self, entries: u32, under_way: bool) -> bool
        ensures { result ≡ active_ok self entries under_way }
    {
        let c = self.cursor;
        let s = c.span;
        if self.taken {
            return s.fits(entries) & c.well_formed(under_way);
        }
        s.is_none() & (c.next == 0)
    }
}
