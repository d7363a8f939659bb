//! Prints the report and the statements of an outcome.

ghost use Rattle.fare_service.specs.Printed.{report_of, report_with, IsStatementOf};
ghost use Rattle.fare_texts.specs.{PrintFaults.UnchangedUnlessWrite, WrittenOut.Begins};
ghost use Rattle.fare_texts.specs.declared.print_fault.PrintFault.TheVariants.{Write as ForWrite};
ghost use Rattle.histories.specs.Shown.{validator_sum};
ghost use Rattle.histories.specs.SumsByKey.{sums_by_token, sums_by_validator};
ghost use Rattle.shard_book.specs.Book.{all_entries};
ghost use Rattle.std.specs.Io.KnownBytes.{Appends};
ghost use Rattle.std.specs.Prelude.{◌≡◌, ℕ, List, OnOk, IfOk, IfErr, string_bytes, map};

use crate::outcome::Outcome;
use fare_texts::{PrintFault, statement_text, write_out};
use report_texts::write_report;
use shard_book::{TokenSums, ValidatorSum, sums_by_validator, token_sums_of_books};
use std::alloc::Global;
use std::io::Write;
use std::marker::Sync;
use std::thread::Threads;
use tap_views::{NoMemory, Token, UploadEnd, shard_of};

impl Outcome {
    fn sums<R: Threads + Sync>(
        &self,
        rt: &R,
        alloc: Global,
    ) -> Result<(Vec<ValidatorSum>, TokenSums), NoMemory>
        ensures validators { IfOk result (λ sums. map validator_sum sums.0.items
            ≡ sums_by_validator (all_entries self.now.books)) }
        ensures tokens { IfOk result
            (λ sums. sums.1 ≡ sums_by_token (all_entries self.now.books)) }
    {
        let validators = sums_by_validator(rt, alloc, self.books.as_slice())?;
        let tokens = token_sums_of_books(alloc, self.books.as_slice())?;
        Ok((validators, tokens))
    }

    fn statement(&self, alloc: Global, token: &Token) -> Result<String, NoMemory>
        ensures { IfOk result (λ text. IsStatementOf self.now token.now (string_bytes text)) }
    {
        let bytes = token.bytes();
        let book = self.book(shard_of(&bytes, self.shards()));
        let statement = book.statement(alloc, token)?;
        let text = statement_text(alloc, book.table(), &statement)?;
        Ok(text)
    }

    /// Writes the report: the end of each upload, the totals of all books, and the sums of each
    /// validator and each token, in their orders. Threads sum up many entries, a quarter of the
    /// books each. All memory is taken before the first byte is written.
    pub fn write_report<R: Threads + Sync, W: Write>(
        &self,
        rt: &R,
        alloc: Global,
        out: &mut W,
    ) -> Result<(), PrintFault>
        ensures ok { OnOk result
            (Appends (W.contents out.old) (W.contents out.new) (report_of self.now)) }
        ensures started { IfErr result (λ fault. fault ≡ ForWrite
            → Begins (W.contents out.old) (W.contents out.new) (report_of self.now)) }
        ensures fault { IfErr result (λ fault. UnchangedUnlessWrite fault (out.new ≡ out.old)) }
    {
        self.write_report_with(rt, alloc, self.ends.as_slice(), out)
    }

    /// As `write_report`, with these ends in place of the outcome's: those of the uploads as given.
    pub fn write_report_with<R: Threads + Sync, W: Write>(
        &self,
        rt: &R,
        alloc: Global,
        ends: &[UploadEnd],
        out: &mut W,
    ) -> Result<(), PrintFault>
        ensures ok { OnOk result
            (Appends (W.contents out.old) (W.contents out.new) (report_with ends.now self.now)) }
        ensures started { IfErr result (λ fault. fault ≡ ForWrite
            → Begins (W.contents out.old) (W.contents out.new) (report_with ends.now self.now)) }
        ensures fault { IfErr result (λ fault. UnchangedUnlessWrite fault (out.new ≡ out.old)) }
    {
        let Ok((validators, tokens)) = self.sums(rt, alloc) else {
            return Err(PrintFault::NoMemory);
        };
        let totals = self.totals();
        write_report(alloc, ends, &totals, validators.as_slice(), &tokens, out)
    }

    /// Writes the statement of a token, also of one without entries: its entries, their totals and
    /// its last window. All memory is taken before the first byte is written.
    pub fn write_statement<W: Write>(
        &self,
        alloc: Global,
        token: &Token,
        out: &mut W,
    ) -> Result<(), PrintFault>
        ensures ok { OnOk result ((text : List ℕ) × IsStatementOf self.now token.now text
            × Appends (W.contents out.old) (W.contents out.new) text) }
        ensures started { IfErr result (λ fault. fault ≡ ForWrite
            → (text : List ℕ) × IsStatementOf self.now token.now text
            × Begins (W.contents out.old) (W.contents out.new) text) }
        ensures fault { IfErr result (λ fault. UnchangedUnlessWrite fault (out.new ≡ out.old)) }
    {
        let Ok(text) = self.statement(alloc, token) else {
            return Err(PrintFault::NoMemory);
        };
        write_out(text.as_bytes(), out)?;
        Ok(())
    }
}
