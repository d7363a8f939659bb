//! The text of a listing of whole files: whether each tap is live, stale or unknown.
ghost use Rattle.fare_program.specs.Listing.{IsListing, Listed, Reading, counts_line, is_known};
ghost use Rattle.fare_program.specs.Listing.{refused_line, tap_line, with_end, with_upload};
ghost use Rattle.fare_program.specs.inside.Listing.{IsAt, Lists};
ghost use Rattle.std.specs.{Option.option_copied, Prelude.◌≡◌, Prelude.◌+◌, Prelude.◌++◌};
ghost use Rattle.std.specs.Prelude.{◌∷◌, [], Option, IfOk, OnOk, map, string_bytes};
ghost use Rattle.tariffs.specs.Fares.{Fares};

use crate::listing::{ListCounts, Listing};
use fare_table::FareTable;
use fare_texts::Digits;
use std::alloc::Global;
use tap_views::{Batch, LayoutFault, NoMemory, TapView, Token, valid_batches};

/// A number beyond 64 bits is reported as an allocation failure.
fn add_one(number: &mut u64) -> Result<(), NoMemory>
    ensures { OnOk result (number.new ≡ number.old + 1) }
{
    let Some(more) = number.checked_add(1) else {
        return Err(NoMemory);
    };
    *number = more;
    Ok(())
}

fn is_known(table: Option<&FareTable>, tap: &TapView) -> bool
    ensures { result ≡ is_known (option_copied table.entry) tap.now }
{
    match table {
        None => true,
        Some(table) => table
            .mode_of(tap.moment_ms(), tap.validator_number())
            .is_some(),
    }
}

/// The text of a listing that is under way.
#[derive(Drop)]
struct Lister {
    listing: Listing,
    upload: u64,
    /// The number of the next tap in its upload.
    number: u64,
    is_clean: bool,
    text: String,
}

impl Lister {
    #[tactic(auto, unfolding(crate::specs::Listing::tap_line))]
    fn list_tap(&mut self, table: Option<&FareTable>, tap: &TapView) -> Result<(), NoMemory>
        ensures { OnOk result
            (Lists (option_copied table.entry) self.old self.new (tap.now ∷ [])) }
    {
        let liveness = self.listing.add(tap, is_known(table, tap))?;
        let (upload, number) = (self.upload, self.number);
        let token = Digits(Token::of(tap.token()));
        let validator = tap.validator_number();
        let moment = tap.moment_ms();
        write!(
            self.text,
            "{upload} {number} {token} {validator} {moment} {liveness}\n"
        )?;
        add_one(&mut self.number)
    }

    fn list_batch(&mut self, table: Option<&FareTable>, batch: &Batch) -> Result<(), NoMemory>
        ensures { OnOk result (Lists (option_copied table.entry) self.old self.new batch.now) }
    {
        for tap in batch.taps() {
            self.list_tap(table, &tap)?;
        }
        Ok(())
    }

    #[tactic(auto, unfolding(crate::specs::Listing::refused_line))]
    fn end_upload(&mut self, fault: Option<(u64, LayoutFault)>) -> Result<(), NoMemory>
        ensures { OnOk result ((fares : Option Fares) (listed : Listed)
            → IsAt fares self.old listed → IsAt fares self.new (with_end listed fault)) }
    {
        let upload = self.upload;
        add_one(&mut self.upload)?;
        self.number = 0;
        let Some((offset, fault)) = fault else {
            return Ok(());
        };
        self.is_clean = false;
        let name = fault.name();
        write!(self.text, "{upload} refused {offset} {name}\n")?;
        Ok(())
    }

    /// Lists the taps up to the first layout fault, and that.
    fn list_upload(&mut self, table: Option<&FareTable>, file: &[u8]) -> Result<(), NoMemory>
        ensures { OnOk result ((reading : Reading) × (reading.file ≡ file.now)
            × ((listed : Listed) → IsAt (option_copied table.entry) self.old listed
            → IsAt (option_copied table.entry) self.new
            (with_upload (option_copied table.entry) listed reading))) }
    {
        let mut valid = valid_batches(file);
        while let Some(batch) = valid.next() {
            self.list_batch(table, &batch)?;
        }
        self.end_upload(valid.fault())
    }
}

/// The text of a listing, and whether no file has a layout fault. Without a table all validators
/// are known.
#[tactic(auto, unfolding(crate::specs::Listing::counts_line))]
pub(crate) fn listing_text(
    alloc: Global,
    table: Option<&FareTable>,
    files: &[Vec<u8>],
) -> Result<(String, bool), NoMemory>
    ensures { IfOk result (λ answer. IsListing (option_copied table.entry)
        (map (λ f. f.items) files.now) (string_bytes answer.0) answer.1) }
{
    let mut lister = Lister {
        listing: Listing::new(alloc),
        upload: 0,
        number: 0,
        is_clean: true,
        text: String::new(alloc),
    };
    for file in files {
        lister.list_upload(table, file)?;
    }
    let ListCounts {
        taps,
        live,
        stale,
        unknown,
    } = lister.listing.counts();
    let Lister {
        mut text,
        is_clean,
        ..
    } = lister;
    write!(
        text,
        "taps {taps} live {live} stale {stale} unknown {unknown}\n"
    )?;
    Ok((text, is_clean))
}
