//! The whole program.
ghost use Rattle.class_names.specs.ClassFaults.{IsWrongAt};
ghost use Rattle.frame.specs.{Given.LoadsFiles, Outcome.Ends};
ghost use Rattle.ledger_check.specs.Columns.{has_traced_head, traced_head};
ghost use Rattle.omny_audit.specs.Ends.{EndsAudit, LeavesOf, LoadsGivenLedger, NamesUnplainClass};
ghost use Rattle.omny_audit.specs.{Ends.audit_rule, Options.AuditRequest, Options.named_file};
ghost use Rattle.omny_audit.specs.Program.{AreWanted, LoadsReport};
ghost use Rattle.omny_audit.specs.inside.Audits.{text_of};
ghost use Rattle.omny_audit.specs.inside.Program.{AreUploads, EndsBy, StopsAtOnce, StopsLoads};
ghost use Rattle.omny_audit.specs.inside.Program.{audit_request_of, outside_of};
ghost use Rattle.omny_audit.specs.inside.Traced.{HasReadAs, HaveNamed, uploads_in, wanted_by};
ghost use Rattle.program_manners.specs.{Answers.IsRejected, TableLoads.LoadsTables};
ghost use Rattle.program_manners.specs.{TableViews.names_of, TableWords.wrong_word};
ghost use Rattle.std.specs.Prelude.{◌≡◌, ◌≤◌, ◌⊎◌, ◌++◌, ◌∷◌, [], List, ℕ, IfErr, IfOk, None, OnOk};
ghost use Rattle.std.specs.Prelude.{Some, false, length, map, option_map, string_bytes};
ghost use Rattle.tap_views.specs.declared.encoder.TapFields.{TapFields};
ghost use Rattle.world.specs.{Origins.with_loads, Run.Calls, Run.Load, Run.Run, Run.no_calls};
ghost use Rattle.world.specs.Streams.{HasRead};

use crate::audit::{Audit, audit_over};
use crate::check::Check;
use crate::fault::Fault;
use crate::options::Options;
use crate::report::HeldReport;
use crate::traced::TracedPieces;
use class_names::{ClassFault, ClassNames, WrongNames};
use frame::report;
use histories::HashSeed;
use ledger_check::{Balance, Positions, has_ledger_head, has_traced_head, traced_head_line};
use program_manners::{
    FileFault, STANDARD_INPUT, TableWord, TableWords, Tables, WrongWord, load_named, load_tables,
    show_answer,
};
use std::alloc::{AllocError, Global};
use std::random::RandomSource;
use tap_views::{UploadEnd, facts_of};
use world::{Inputs, Stream, World};

/// The valid taps of uploads: how often each is there, and by their indexes; and how the uploads
/// end.
#[derive(Drop)]
struct Uploads {
    balance: Balance,
    positions: Positions,
    ends: Vec<UploadEnd>,
}

fn add_upload(alloc: Global, upload: &[u8], uploads: &mut Uploads) -> Result<(), AllocError>
    ensures { OnOk result ((files : List (List ℕ)) (lists : List (List TapFields))
        → AreUploads files lists uploads.old → (list : List TapFields)
        × AreUploads (files ++ upload.now ∷ []) (lists ++ list ∷ []) uploads.new) }
{
    uploads.balance.add_upload(upload)?;
    uploads.positions.add_upload(alloc, upload)?;
    let facts = facts_of(upload);
    uploads
        .ends
        .push(UploadEnd::by_fault(facts.taps, facts.fault))?;
    Ok(())
}

/// One upload is in memory at a time. A ledger is refused as an upload.
fn load_uploads<'a, S: Inputs>(
    alloc: Global,
    names: &[&'a str],
    source: &mut S,
) -> Result<Uploads, Fault<'a>>
    ensures ok { IfOk result (λ uploads. (loads : List Load)
        × (S.run source.new ≡ with_loads (S.run source.old) loads)
        × (bytes : List (List ℕ)) × (lists : List (List TapFields))
        × LoadsFiles (map Some (map (λ n. n.now) names.now)) loads bytes
        × AreUploads bytes lists uploads) }
    ensures fault { IfErr result (StopsLoads (LoadsGivenLedger (map (λ n. n.now) names.now))
        (map (λ n. n.now) names.now) (S.run source.old) (S.run source.new)) }
{
    let mut uploads = Uploads {
        balance: Balance::new(alloc),
        positions: Positions::new(alloc),
        ends: Vec::new(alloc),
    };
    for name in names {
        let file = load_named(source, name)?;
        let upload = file.as_slice();
        if has_ledger_head(upload) {
            return Err(Fault::GivenLedger(name));
        }
        add_upload(alloc, upload, &mut uploads)?;
    }
    Ok(uploads)
}

fn load_report<'a, R: RandomSource, S: Inputs>(
    rt: &R,
    name: Option<&'a str>,
    source: &mut S,
) -> Result<Option<HeldReport>, Fault<'a>>
    ensures ok { IfOk result (λ report. (loads : List Load)
        × (S.run source.new ≡ with_loads (S.run source.old) loads)
        × LoadsReport (option_map (λ n. n.now) name.entry) loads (text_of report)) }
    ensures fault { IfErr result (StopsLoads (λ loads. ⊥)
        (named_file (option_map (λ n. n.now) name.entry)) (S.run source.old) (S.run source.new)) }
{
    let Some(name) = name else {
        return Ok(None);
    };
    let text = load_named(source, name)?;
    let Ok(seed) = HashSeed::new(rt) else {
        return Err(Fault::NoMemory);
    };
    Ok(Some(HeldReport { text, seed }))
}

/// The texts were read as fare tables before, so each is TOML and names a default class.
fn of_names<'a>(words: &TableWords<'a>, wrong: WrongNames) -> Fault<'a>
    ensures { (texts : List (List ℕ)) → IsWrongAt texts wrong
        → StopsAtOnce (NamesUnplainClass texts) result }
{
    let ClassFault::Name = wrong.fault else {
        return Fault::NoMemory;
    };
    match words.later.get(wrong.position.wrapping_sub(1)) {
        Some(word) => Fault::Class(TableWord::of(word).name, false),
        None => Fault::Class(words.first, words.later.is_empty()),
    }
}

/// None if the ledger is not traced. The indexes of taps are checked, if there are uploads.
fn trace_of<'a>(
    alloc: Global,
    head: &[u8],
    words: &TableWords<'a>,
    tables: &Tables,
    positions: Option<Positions>,
) -> Result<Option<TracedPieces>, Fault<'a>>
    requires positions { HaveNamed positions [] }
    requires loaded { (loads : List Load) × LoadsTables (names_of words.now) loads
        (map (λ t. t.items) tables.now.texts.items) tables.now.fares }
    ensures wanted { IfOk result (λ trace. AreWanted tables.now.fares
        (map (λ t. t.items) tables.now.texts.items) (has_traced_head head.now)
        (uploads_in positions) (wanted_by trace)) }
    ensures read { IfOk result (λ trace. HasReadAs trace false [] []) }
    ensures fault { IfErr result
        (StopsAtOnce (NamesUnplainClass (map (λ t. t.items) tables.now.texts.items))) }
{
    if !has_traced_head(head) {
        return Ok(None);
    }
    match ClassNames::of_texts(alloc, &tables.fares, &tables.texts) {
        Ok(names) => Ok(Some(TracedPieces::new(alloc, names, positions))),
        Err(wrong) => Err(of_names(words, wrong)),
    }
}

/// Opens the ledger, or standard input if none is named. Its first bytes show whether it is traced.
fn read_head<'a>(
    rt: &HostRuntime,
    name: Option<&'a str>,
    ledger: &mut Stream,
) -> Result<Vec<u8>, Fault<'a>>
    requires { ledger.old.trace ≡ no_calls }
    ensures read { IfOk result
        (λ head. HasRead ledger.new (option_map (λ n. n.now) name.entry) head.items) }
    ensures enough { IfOk result (λ head. (ledger.new.from ≡ None)
        ⊎ (length traced_head ≤ length head.items)) }
    ensures whole { IfOk result (λ head. head.items ≡ [] → ledger.new.from ≡ None) }
    ensures fault { IfErr result (λ fault. (run : Run) → LeavesOf ⊥ []
        (option_map (λ n. n.now) name.entry) ledger.new.trace (outside_of fault) run run) }
{
    if let Err(fault) = ledger.open(rt, name) {
        let name = name.unwrap_or(STANDARD_INPUT);
        return Err(Fault::File(FileFault { name, fault }));
    }
    let needed = traced_head_line().len();
    let mut head = Vec::new(rt.alloc());
    let mut piece = Vec::new(rt.alloc());
    for _piece in 0..u64::MAX {
        if let Err(why) = ledger.read(&mut piece) {
            return Err(Fault::Ledger(why));
        }
        head.extend_from_slice(&piece)?;
        if piece.is_empty() || head.len() >= needed {
            return Ok(head);
        }
    }
    // no run makes so many reads
    Err(Fault::NoMemory)
}

/// Returns whether all is right. The tables are loaded first, then the uploads and the report, and
/// then the ledger is read.
fn audit<'a, W: World>(
    rt: &HostRuntime,
    options: &Options<'a>,
    ledger: &mut Stream,
    world: &mut W,
) -> Result<bool, Fault<'a>>
    requires words { wrong_word (audit_request_of options.now).table ≡ None }
    requires unread { ledger.old.trace ≡ no_calls }
    ensures { EndsBy (audit_rule (audit_request_of options.now) ledger.new.trace)
        (W.run world.old) (W.run world.new) result }
{
    let alloc = rt.alloc();
    let tables = match load_tables(alloc, &options.table, world) {
        Ok(tables) => tables,
        Err(fault) => return Err(Fault::Tables(fault)),
    };
    let Ok(clock) = tables.fares.clock(alloc) else {
        return Err(Fault::NoMemory);
    };
    let names = options.uploads.as_slice();
    let uploads = load_uploads(alloc, names, world)?;
    let report = load_report(rt, options.report, world)?;
    let head = read_head(rt, options.ledger, ledger)?;
    let has_uploads = !names.is_empty();
    let Uploads {
        balance,
        positions,
        ends,
    } = uploads;
    let kept = has_uploads.then_some(positions);
    let trace = trace_of(alloc, &head, &options.table, &tables, kept)?;
    let seed = report.as_ref().map(|report| report.seed);
    let mut audit = Audit {
        table: &tables.fares,
        clock: &clock,
        live: options.live,
        subtracts: has_uploads,
        ends: has_uploads.then_some(ends.as_slice()),
        check: Check::new(alloc, options.all, balance, seed),
        trace,
        report,
        text: Vec::new(alloc),
    };
    audit_over(alloc, head, ledger, &mut audit, world)
}

/// Says which word of `--table` has a wrong date, or none, and gives the status.
fn refuse_date<W: World>(wrong: &WrongWord<'_>, world: &mut W) -> u8
    ensures { IsRejected (W.run world.old) (W.run world.new) result }
{
    let _ = world.report_line(format_args!("fault: {wrong}"));
    2
}

/// Reports a fault, and returns the status.
fn end_run<W: World>(ended: Result<bool, Fault<'_>>, world: &mut W) -> u8
    ensures { (request : AuditRequest) (ledger : Calls) (old : Run)
        → EndsBy (audit_rule request ledger) old (W.run world.old) ended.entry
        → Ends (audit_rule request ledger) old (W.run world.new) result }
{
    match ended {
        Ok(true) => 0,
        Ok(false) => 1,
        Err(fault) => {
            report(fault.outside(), fault, world);
            1
        }
    }
}

/// The whole program: reads the words, the program's name first, checks the ledger that they name,
/// and writes the finding to the output, usage errors and faults to the standard error. The status
/// is 0 if all is right, 1 if it is not or something failed, 2 if the words are not a command line.
pub fn main_over<W: World>(
    rt: &HostRuntime,
    words: &[String],
    ledger: &mut Stream,
    world: &mut W,
) -> u8
    requires { ledger.old.trace ≡ no_calls }
    ensures { EndsAudit (map string_bytes words.now) ledger.new.trace (W.run world.old)
        (W.run world.new) result }
{
    let alloc = rt.alloc();
    let options = match Options::read(alloc, words) {
        Ok(options) => options,
        Err(error) => return show_answer(alloc, &error, world),
    };
    if let Some(wrong) = options.table.wrong_word() {
        return refuse_date(&wrong, world);
    }
    let ended = audit(rt, &options, ledger, world);
    end_run(ended, world)
}
