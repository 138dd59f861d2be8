// What a call answers.
ghost use Rattle.std.specs.Prelude.{◌≡◌};
ghost use Rattle.board.specs.Calls.{reply, replied};

use crate::record::Board;
use answers::{Refusal, Status};
use feeds::Feed;

// The outcome, and the record that is handed back.
#[derive(Clone, Copy)]
pub struct Answer {
    pub status: Status,
    pub board: Board,
}

// The outcome of a feed, and both records.
// Kept: the feed record beside the status, since a refusal hands both records back as given (`RefusedFeed`).
#[derive(Clone, Copy)]
pub struct FeedAnswer {
    pub status: Status,
    pub board: Board,
    pub feed: Feed,
}

// The bytes that an export wrote, or why it is refused, and the record.
#[derive(Clone, Copy)]
pub struct ExportAnswer {
    pub written: Result<usize, Refusal>,
    pub board: Board,
}

impl Board {
    // The record that a call leaves, or this one with a refusal.
    pub(crate) fn answer(self, after: Result<Board, Refusal>) -> Answer
        ensures { reply result ≡ replied self after }
    {
        match after {
            Ok(board) => Answer {
                status: Ok(0),
                board,
            },
            Err(refusal) => Answer {
                status: Err(refusal),
                board: self,
            },
        }
    }
}
