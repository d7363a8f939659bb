//! A service: uploads that workers draw, and a shared book for each shard.

use crate::faults::OpenFault;
use crate::lending::UploadSource;
use crate::service::shard_books::open_books;
use crate::service::share::{Posting, Share};
use shard_book::{HashSeed, Totals};
use shared_books::{Draw, SharedBook};
use std::alloc::Global;
use std::marker::Model;
use std::random::RandomSource;
use tap_views::NoMemory;
use tariffs::FareTable;
use world::Trace;

pub(crate) mod gathering;
pub(crate) mod running;
pub(crate) mod shard_books;
pub(crate) mod share;
pub(crate) mod worker_totals;
pub(crate) mod working;

const MAX_SHARDS: u32 = 64;

const MAX_UPLOADS: usize = 65_535;

/// The uploads, a shared book for each shard, and the fare table, at which many threads work.
#[derive(Drop)]
pub struct Service<U: UploadSource + Drop> {
    pub(crate) table: FareTable,
    /// The workers draw the uploads' numbers from it.
    pub(crate) draw: Draw,
    pub(crate) books: Vec<SharedBook>,
    pub(crate) uploads: U,
}

impl<U: UploadSource + Drop> Model for Service<U> {
    ghost use Rattle.fare_service.specs.ServiceView.{ServiceView};
    ghost use Rattle.fare_service.specs.inside.ServiceView.{IsService};

    ghost Value = { ServiceView };

    ghost view = { λ s. record {
      table = s.table;
      drawing = s.draw;
      books = s.books.items;
      uploads = U.origins s.uploads;
    } };

    ghost invariant = { λ s. IsService (record {
      table = s.table;
      drawing = s.draw;
      books = s.books.items;
      uploads = U.origins s.uploads;
    }) };
}

impl<U: UploadSource + Drop> Service<U> {
    ghost use Rattle.std.specs.Prelude.{◌≡◌, ◌<◌, ◌≤◌, IfOk, IfErr, MatchResult, length};
    ghost use Rattle.fare_service.specs.Claims.{HasAllClaims, HasHalf, left_share};
    ghost use Rattle.fare_service.specs.ServiceView.{shards_of};
    ghost use Rattle.fare_service.specs.Faults.{IsOpenFault};
    ghost use Rattle.fare_service.specs.Shares.{IsFresh, IsShareOf};

    /// Opens a service of `shards` shards, 1 to 64, over at most 65,535 uploads, none drawn, and
    /// gives its first share, which has all claims. On a fault the arguments are dropped.
    pub fn open<R: RandomSource>(
        rt: &R,
        alloc: Global,
        table: FareTable,
        shards: u32,
        uploads: U,
    ) -> Result<(Service<U>, Share), OpenFault>
        ensures table { IfOk result (λ r. r.0.table ≡ table) }
        ensures shards { IfOk result (λ r. shards_of r.0 ≡ shards) }
        ensures uploads { IfOk result (λ r. r.0.uploads ≡ U.origins uploads) }
        ensures share { IfOk result (λ r. IsShareOf r.0 r.1) }
        ensures fresh { IfOk result (λ r. IsFresh r.1) }
        ensures claims { IfOk result (λ r. HasAllClaims shards r.1) }
        ensures fault { IfErr result (IsOpenFault shards (length (U.origins uploads))) }
    {
        if shards == 0 || shards > MAX_SHARDS {
            return Err(OpenFault::Shards);
        }
        let number = uploads.len();
        if number > MAX_UPLOADS {
            return Err(OpenFault::Uploads);
        }
        let seed = HashSeed::new(rt)?;
        let (draw, drawer) = Draw::new(alloc, number as u32)?;
        let (books, passes) = open_books(alloc, seed, &table, shards)?;
        let service = Service {
            table,
            draw,
            books,
            uploads,
        };
        let share = Share {
            drawer,
            posting: Posting {
                passes,
                totals: Totals::new(),
            },
            done: Vec::new(alloc),
            calls: Trace::new(),
        };
        Ok((service, share))
    }

    /// A new share, with no uploads, no visits and half of the claims of the old one.
    pub fn share(&self, alloc: Global, old: &mut Share) -> Result<Share, NoMemory>
        requires { IsShareOf self.now old.old }
        ensures new { IfOk result (λ new. IsShareOf self.now new) }
        ensures fresh { IfOk result (λ new. IsFresh new) }
        ensures half { IfOk result (λ new. HasHalf old.old new) }
        ensures old { MatchResult result
            (λ _. old.new ≡ left_share old.old) (λ _. old.new ≡ old.old) }
        ensures kept { IsShareOf self.now old.new }
    {
        let mut passes = Vec::with_capacity(alloc, self.books.len())?;
        let drawer = self.draw.split(&mut old.drawer)?;
        self.split_passes(&mut old.posting.passes, &mut passes)?;
        Ok(Share {
            drawer,
            posting: Posting {
                passes,
                totals: Totals::new(),
            },
            done: Vec::new(alloc),
            calls: Trace::new(),
        })
    }

    pub(crate) fn shards(&self) -> u32
        ensures number { result ≡ shards_of self.now }
        ensures some { 0 < result }
        ensures few { result ≤ 64 }
    {
        self.books.len() as u32
    }
}
