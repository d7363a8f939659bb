//! Opens the shards' books, and splits the passes to them.

ghost use Rattle.std.specs.Prelude.{◌≡◌, ℕ, ◌<◌, ◌≤◌, IfOk, IsOk, OnOk, length, map, [], slice_get};
ghost use Rattle.std.specs.Prelude.{Some, vec_len, vec_capacity};
ghost use Rattle.shared_books.specs.Passes.{new_pass};
ghost use Rattle.fare_service.specs.inside.ServiceView.{AreOpened};

use crate::lending::UploadSource;
use crate::service::Service;
use shard_book::{HashSeed, ShardBook};
use shared_books::{Pass, SharedBook};
use std::alloc::Global;
use tap_views::NoMemory;
use tariffs::FareTable;

pub(crate) fn open_books(
    alloc: Global,
    seed: HashSeed,
    table: &FareTable,
    shards: u32,
) -> Result<(Vec<SharedBook>, Vec<Pass>), NoMemory>
    requires { shards ≤ 64 }
    ensures books { IfOk result (λ r. AreOpened table.now shards r.0.items) }
    ensures number { IfOk result (λ r. length r.0.items ≡ shards) }
    ensures passes { IfOk result (λ r. r.1.items ≡ map new_pass r.0.items) }
{
    let mut books = Vec::with_capacity(alloc, shards as usize)?;
    let mut passes = Vec::with_capacity(alloc, shards as usize)?;
    for shard in 0..shards {
        let own = table.try_clone(alloc)?;
        let book = ShardBook::open(alloc, seed, own, shard, shards);
        let (shared, pass) = SharedBook::open(alloc, 0, book)?;
        books.push_reserved(shared);
        passes.push_reserved(pass);
    }
    Ok((books, passes))
}

impl<U: UploadSource + Drop> Service<U> {
    ghost use Rattle.shared_books.specs.Passes.{fresh_pass, left_pass};
    ghost use Rattle.fare_service.specs.Shares.{books_of};

    pub(crate) fn split_passes(
        &self,
        old: &mut Vec<Pass>,
        new: &mut Vec<Pass>,
    ) -> Result<(), NoMemory>
        requires old { books_of old.old.items ≡ self.now.books }
        requires empty { new.old.items ≡ [] }
        requires room { length self.now.books ≤ vec_capacity new.old }
        ensures new { OnOk result (new.new.items ≡ map fresh_pass old.old.items) }
        ensures old { OnOk result (old.new.items ≡ map left_pass old.old.items) }
        ensures done { IsOk result }
    {
        for shard in 0..self.books.len() {
            let pass = self.books[shard].split(&mut old[shard])?;
            new.push_reserved(pass);
        }
        Ok(())
    }
}
