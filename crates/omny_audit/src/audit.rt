//! The audit of a ledger that comes in pieces.

ghost use Rattle.std.specs.Prelude.{◌≡◌, ◌++◌, ◌||◌, ◌==◌, ℕ, List, [], IfOk, None, OnOk, Option};
ghost use Rattle.std.specs.Prelude.{false, length, string_bytes};
ghost use Rattle.omny_audit.specs.Reports.{Given};
ghost use Rattle.omny_audit.specs.inside.Audits.{EndsAs, GoesOn, HasAudited, Steps};
ghost use Rattle.world.specs.Streams.{HasRead};

use crate::check::Check;
use crate::fault::Fault;
use crate::report::{HeldReport, are_whole, fits, verdict_on, write_last_lines};
use crate::traced::{TracedPieces, read_piece, write_columns};
use fare_table::{Clock, FareTable};
use report_check::laws::report_verdicts_decide;
use std::alloc::Global;
use tap_views::{NoMemory, UploadEnd};
use world::{Stream, World};

/// What a ledger is audited by, and what was read of it so far.
#[derive(Drop)]
pub(crate) struct Audit<'a> {
    pub(crate) table: &'a FareTable,
    pub(crate) clock: &'a Clock,
    /// Whether a ledger that is not settled is right.
    pub(crate) live: bool,
    /// Whether uploads are named, so that the taps of the ledger are subtracted.
    pub(crate) subtracts: bool,
    /// How the uploads end, if uploads are named.
    pub(crate) ends: Option<&'a [UploadEnd]>,
    pub(crate) check: Check,
    /// What reads the columns of a traced ledger.
    pub(crate) trace: Option<TracedPieces>,
    pub(crate) report: Option<HeldReport>,
    /// What is checked of the last piece.
    pub(crate) text: Vec<u8>,
}

impl Audit<'_> {
    /// Checks the piece, or at the file's end, which is a piece without bytes, the line that it cuts;
    /// and appends what is reported of it.
    fn read(&mut self, alloc: Global, piece: &[u8], reported: &mut String) -> Result<(), NoMemory>
        requires { (given : Given) × (file written : List ℕ)
            × HasAudited given self.old false file written }
        ensures { OnOk result ((given : Given) (file written : List ℕ)
            → HasAudited given self.old false file written → (more : List ℕ)
            × (string_bytes reported.new ≡ string_bytes reported.old ++ more)
            × HasAudited given self.new (length piece.now == 0) (file ++ piece.now)
            (written ++ more)) }
    {
        read_piece(&mut self.trace, piece, &mut self.text)?;
        let text = self.text.as_slice();
        self.check.feed(
            alloc,
            self.table,
            self.clock,
            text,
            self.subtracts,
            reported,
        )?;
        Ok(())
    }

    /// What is reported of the piece, which without bytes is the file's end. At the end of the
    /// finding, also whether all is right: after the first wrong line nothing is read.
    fn next(&mut self, alloc: Global, piece: &[u8]) -> Result<(Vec<u8>, Option<bool>), NoMemory>
        requires { (given : Given) × (file written : List ℕ)
            × HasAudited given self.old false file written }
        ensures { IfOk result (λ next. Steps self.old self.new piece.now next.0.items next.1) }
    {
        // proof: a report fits exactly if it is that of the ledger's entries
        report_verdicts_decide();
        let mut reported = String::new(alloc);
        self.read(alloc, piece, &mut reported)?;
        let is_last = piece.is_empty() | self.check.is_decided();
        if !is_last {
            return Ok((reported.into_bytes(), None));
        }
        let all = self.check.is_all();
        let found = self
            .check
            .finish(alloc, self.subtracts, self.live, &mut reported)?;
        let is_right = write_columns(&mut reported, all | found.is_legal, &self.trace)?;
        let mut text = reported.into_bytes();
        let is_whole = found.is_legal & is_right;
        let verdict = verdict_on(alloc, is_whole, &self.report, &found.sums, self.ends)?;
        let Ok(()) = write_last_lines(&mut text, &verdict, self.ends) else {
            return Err(NoMemory);
        };
        let is_fit = fits(&self.report, &verdict) & are_whole(self.ends);
        Ok((text, Some(found.is_sound & (is_right & is_fit))))
    }
}

/// Writes the finding as it comes, if all wrong lines are requested, and flushes it. Returns whether
/// all is right. The head was read of the ledger. No more of the rest than one read is in memory.
pub(crate) fn audit_over<'a, W: World>(
    alloc: Global,
    head: Vec<u8>,
    ledger: &mut Stream,
    audit: &mut Audit<'_>,
    world: &mut W,
) -> Result<bool, Fault<'a>>
    requires audited { (given : Given) × HasAudited given audit.old false [] [] }
    requires read { (name : Option (List ℕ)) × HasRead ledger.old name head.items }
    requires whole { head.items ≡ [] → ledger.old.from ≡ None }
    ensures goes { GoesOn ledger.old ledger.new head.items }
    ensures ends { (given : Given) → HasAudited given audit.old false [] []
        → EndsAs given ledger.new.trace (W.run world.old) (W.run world.new) result }
{
    let mut piece = head;
    for _piece in 0..u64::MAX {
        let Ok(next) = audit.next(alloc, &piece) else {
            return Err(Fault::NoMemory);
        };
        if let Err(why) = world.write(next.0.as_slice()) {
            return Err(Fault::Unwritten(why));
        }
        if let Some(succeeded) = next.1 {
            if let Err(unflushed) = world.flush() {
                return Err(Fault::Unwritten(unflushed));
            }
            return Ok(succeeded);
        }
        if let Err(why) = ledger.read(&mut piece) {
            return Err(Fault::Ledger(why));
        }
    }
    // no run makes so many reads
    Err(Fault::NoMemory)
}
