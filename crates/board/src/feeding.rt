// The call feed (document 02, R-5).
ghost use Rattle.std.specs.Prelude.{◌≡◌};
ghost use Rattle.board.specs.Feeding.{feed_reply, fed, feed_call};

use crate::answer::FeedAnswer;
use crate::record::Board;
use answers::Refusal;
use feeds::{Feed, feed_into};

impl Board {
    // The feed record after a piece.
    fn after_piece(self, feed: Feed, list: &mut [u8], piece: &[u8]) -> Result<Feed, Refusal>
        ensures { fed self feed result list.new ≡ feed_call list.old feed piece.now self }
    {
        self.checked()?;
        feed_into(
            self.sizes,
            self.active.slot(),
            self.pending,
            list,
            feed,
            piece,
        )
    }

    // A piece of bytes: the entries that it completes go into list memory, the rest is held in the feed record.
    pub fn feed(self, feed: Feed, list: &mut [u8], piece: &[u8]) -> FeedAnswer
        ensures { feed_reply result list.new ≡ feed_call list.old feed piece.now self }
    {
        match self.after_piece(feed, list, piece) {
            Ok(after) => FeedAnswer {
                status: Ok(0),
                board: self,
                feed: after,
            },
            Err(refusal) => FeedAnswer {
                status: Err(refusal),
                board: self,
                feed,
            },
        }
    }
}
