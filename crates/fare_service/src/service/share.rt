//! What a worker stores of its work.

ghost use Rattle.std.specs.Prelude.{◌≡◌};

use shard_book::Totals;
use shared_books::{Drawer, Pass};
use std::marker::Model;
use tap_views::UploadEnd;
use world::Trace;

/// An upload that a share drew, and how it ended.
#[derive(Clone, Copy, Debug)]
pub struct Done {
    pub upload: u32,
    pub end: UploadEnd,
}

/// What a worker posts by: a pass to each shard's book, and the totals of its replies.
#[derive(Drop)]
pub(crate) struct Posting {
    pub(crate) passes: Vec<Pass>,
    pub(crate) totals: Totals,
}

/// A worker's share of a service: the uploads that it drew with their ends, its visits, the totals
/// of its replies, and the calls by which the uploads were lent. It stores no entries.
#[derive(Drop)]
pub struct Share {
    pub(crate) drawer: Drawer,
    pub(crate) posting: Posting,
    /// Each upload that it drew, in the order of drawing.
    pub(crate) done: Vec<Done>,
    pub(crate) calls: Trace,
}

impl Model for Share {
    ghost use Rattle.fare_service.specs.ShareView.{ShareView};

    ghost Value = { ShareView };

    ghost use Rattle.histories.specs.Sums.{sums_of};

    ghost view = { λ s. record {
      drawer = s.drawer;
      passes = s.posting.passes.items;
      totals = sums_of s.posting.totals;
      done = s.done.items;
      run = s.calls.run;
    } };
}

impl Share {
    ghost use Rattle.histories.specs.Sums.{sums_of};

    /// The totals of the replies that the share got.
    pub fn sums(&self) -> Totals
        ensures { sums_of result ≡ self.now.totals }
    {
        self.posting.totals
    }
}
