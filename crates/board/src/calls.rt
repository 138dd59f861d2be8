// The calls make, post, store and window write.
ghost use Rattle.std.specs.Prelude.{◌≡◌};
ghost use Rattle.board.specs.Calls.{reply, replied, fresh_board, make_call, posted_of, post_call, stays, written, store_call, write_call};

use crate::answer::Answer;
use crate::record::Board;
use answers::{Refusal, Status};
use commands::Engine;
use geometry::Extent;
use lists::Span;
use slots::{Active, Sizes, Slot, post_status, store_into, write_into};
use tiles::no_fill;

// The board that a refused make hands back.
const SMALLEST: Sizes = Sizes {
    extent: Extent {
        width: 1,
        height: 1,
    },
    entries: 1,
};

impl Board {
    fn fresh(z: Sizes) -> Board
        ensures { result ≡ fresh_board z }
    {
        let free = Slot {
            taken: false,
            span: Span { start: 0, count: 0 },
        };
        Board {
            sizes: z,
            active: Active::on(free),
            pending: free,
            engine: Engine::fresh(),
            fill: no_fill(),
        }
    }

    // A fresh board. The caller lends the memories to each call.
    pub fn make(width: usize, height: usize, entries: usize) -> Answer
        ensures { reply result ≡ make_call width height entries }
    {
        match Sizes::new(width, height, entries) {
            Ok(sizes) => Answer {
                status: Ok(0),
                board: Board::fresh(sizes),
            },
            Err(refusal) => Answer {
                status: Err(refusal),
                board: Board::fresh(SMALLEST),
            },
        }
    }

    fn posted(self, start: u32, count: u32) -> Board
        ensures { result ≡ posted_of self start count }
    {
        let list = Slot {
            taken: true,
            span: Span { start, count },
        };
        if self.active.taken {
            return Board {
                pending: list,
                ..self
            };
        }
        Board {
            active: Active::on(list),
            ..self
        }
    }

    // The record after a post.
    fn after_post(self, list: &[u8], start: usize, count: usize) -> Result<Board, Refusal>
        ensures { replied self result ≡ post_call list.now start count self }
    {
        self.checked()?;
        post_status(
            self.sizes,
            self.active.slot(),
            self.pending,
            list,
            start,
            count,
        )?;
        Ok(self.posted(start as u32, count as u32))
    }

    // A list of `count` entries from `start` on is posted.
    pub fn post(self, list: &[u8], start: usize, count: usize) -> Answer
        ensures { reply result ≡ post_call list.now start count self }
    {
        self.answer(self.after_post(list, start, count))
    }

    fn store_status(self, list: &mut [u8], first: usize, bytes: &[u8]) -> Status
        ensures { stays self result list.new ≡ store_call list.old first bytes.now self }
    {
        self.checked()?;
        store_into(
            self.sizes,
            self.active.slot(),
            self.pending,
            list,
            first,
            bytes,
        )
    }

    // Bytes are stored into list memory from an entry on.
    pub fn store(self, list: &mut [u8], first: usize, bytes: &[u8]) -> Answer
        ensures { written result list.new ≡ store_call list.old first bytes.now self }
    {
        Answer {
            status: self.store_status(list, first, bytes),
            board: self,
        }
    }

    fn write_status(self, number: usize, offset: usize, bytes: &[u8], buffer: &mut [u8]) -> Status
        ensures { stays self result buffer.new ≡ write_call number offset bytes.now buffer.old self }
    {
        self.checked()?;
        write_into(
            self.sizes,
            self.active.slot(),
            self.pending,
            number,
            offset,
            bytes,
            buffer,
        )
    }

    // Bytes are written into the display (0) or the virtual buffer (1), from an offset on.
    pub fn window_write(
        self,
        number: usize,
        offset: usize,
        bytes: &[u8],
        buffer: &mut [u8],
    ) -> Answer
        ensures { written result buffer.new ≡ write_call number offset bytes.now buffer.old self }
    {
        Answer {
            status: self.write_status(number, offset, bytes, buffer),
            board: self,
        }
    }
}
