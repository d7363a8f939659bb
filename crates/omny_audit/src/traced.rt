//! A traced ledger, read as a ledger, and what is wrong with its columns.

ghost use Rattle.class_names.specs.Names.{class_by};
ghost use Rattle.ledger_check.specs.Columns.{cut_line, cut_of, untraced_by, untraced_line};
ghost use Rattle.ledger_check.specs.{Lines.IsLine, Lines.lines_of, Positions.HasUploads};
ghost use Rattle.ledger_check.specs.{Positions.is_named, Positions.uploads_of, Taps.IsTapOfLine};
ghost use Rattle.omny_audit.specs.Traced.{AreColumnsReported, IsFaultAfter, IsPositionFault};
ghost use Rattle.omny_audit.specs.Traced.{NamesTapWithColumns, ReadLine, class_fault, class_text};
ghost use Rattle.omny_audit.specs.Traced.{fault_by, fault_text, lines_read, position_text};
ghost use Rattle.omny_audit.specs.Traced.{positions_text};
ghost use Rattle.omny_audit.specs.declared.traced.PositionFault.{PositionFault as AFault};
ghost use Rattle.omny_audit.specs.inside.Traced.{HasLines, HasPositions, HasReadAll};
ghost use Rattle.omny_audit.specs.inside.Traced.{HasReadAs, HasTraced, HaveNamed, IsKeptOf};
ghost use Rattle.omny_audit.specs.inside.Traced.{placed_of, uploads_in, wanted_by, wanted_of};
ghost use Rattle.std.specs.Prelude.{◌≡◌, ◌+◌, ◌==◌, ◌<◌, ◌++◌, ◌∷◌, [], ℕ, List, IfOk, None, OnOk};
ghost use Rattle.std.specs.Prelude.{Option, Some, false, is_some, length, not, option_map};
ghost use Rattle.std.specs.Prelude.{string_bytes, true};
ghost use Rattle.tap_views.specs.declared.encoder.TapFields.{TapFields as ATap};

use class_names::ClassNames;
use fare_texts::head_line;
use ledger_check::{
    CutLine, PositionFinding, Positions, cut_line, split_line, tap_of_line, traced_head_line,
};
use std::alloc::{AllocError, Global};
use tap_views::TapFields;

/// The most bytes of a traced ledger's line, with its line feed.
const MAX_LINE_BYTES: usize = 352;

/// The first line that has another class than that of its token at its moment.
#[derive(Clone, Copy)]
pub(crate) struct WrongClass {
    line: u64,
    /// The moment of its tap, in milliseconds since 1970-01-01T00:00Z.
    moment: u64,
    token: [u8; 16],
}

/// What is wrong with the places of the lines.
#[derive(Clone, Copy)]
pub(crate) enum PositionFault {
    /// The line of this number has another tap than is at its upload, from 0, and place, from 1.
    OtherTap(u64, u32, u64),
    /// The line of this number has the upload and the place of an earlier line.
    Repeated(u64, u32, u64),
    /// No line has this upload and place, which are those of a tap.
    NoLine(u64, u64),
}

/// In place of a line that does not have the form of a traced one.
fn put_other(text: &mut Vec<u8>, line: &[u8]) -> Result<(), AllocError>
    ensures { OnOk result (text.new.items ≡ text.old.items ++ untraced_by line.now None) }
{
    if line == traced_head_line() {
        return text.extend_from_slice(head_line().as_bytes());
    }
    text.push(b'\n')?;
    Ok(())
}

/// Gives the tap that the fields name, if any. What is in `again` is replaced.
fn put_fields(
    text: &mut Vec<u8>,
    fields: &[u8],
    again: &mut String,
) -> Result<Option<TapFields>, AllocError>
    requires { length fields.now < 255 }
    ensures text { OnOk result (text.new.items ≡ text.old.items ++ (fields.now ++ 10 ∷ [])) }
    ensures tap { IfOk result (IsTapOfLine (fields.now ++ 10 ∷ [])) }
{
    let start = text.len();
    text.extend_from_slice(fields)?;
    text.push(b'\n')?;
    let tap = tap_of_line(&text[start..], again)?;
    Ok(tap)
}

/// Appends what is read in place of the line, and gives what the line names. What is in `again` is
/// replaced.
fn untrace<'a>(
    text: &mut Vec<u8>,
    line: &'a [u8],
    again: &mut String,
) -> Result<Option<(TapFields, CutLine<'a>)>, AllocError>
    ensures text { OnOk result (text.new.items ≡ text.old.items ++ untraced_line line.now) }
    ensures names { IfOk result
        (λ named. NamesTapWithColumns (cut_line line.now) (option_map placed_of named)) }
{
    let Some(cut) = cut_line(line) else {
        put_other(text, line)?;
        return Ok(None);
    };
    match put_fields(text, cut.fields, again)? {
        Some(tap) => Ok(Some((tap, cut))),
        None => Ok(None),
    }
}

fn class_fault(
    names: &ClassNames,
    line: u64,
    named: &Option<(TapFields, CutLine<'_>)>,
) -> Option<WrongClass>
    ensures { result ≡ class_fault (class_by names.now) line (option_map placed_of named.now) }
{
    let Some(named) = named else {
        return None;
    };
    let tap = named.0;
    if names.class_of(tap.moment, &tap.token).as_bytes() == named.1.class {
        return None;
    }
    Some(WrongClass {
        line,
        moment: tap.moment,
        token: tap.token,
    })
}

fn fault_by(
    line: u64,
    upload: u32,
    position: u64,
    finding: PositionFinding,
) -> Option<PositionFault>
    ensures { result ≡ fault_by line upload position finding }
{
    match finding {
        PositionFinding::Right => None,
        PositionFinding::Another => Some(PositionFault::OtherTap(line, upload, position)),
        PositionFinding::Again => Some(PositionFault::Repeated(line, upload, position)),
    }
}

/// If there are uploads, and no earlier line has a wrong place.
fn look_at_position(
    positions: &mut Option<Positions>,
    wrong: &mut Option<PositionFault>,
    number: u64,
    named: &Option<(TapFields, CutLine<'_>)>,
)
    ensures uploads { uploads_in positions.new ≡ uploads_in positions.old }
    ensures positions { (read : List ReadLine) (line : List ℕ)
        → HasPositions positions.old wrong.old read → number ≡ length read + 1
        → HasPositions positions.new wrong.new
        (record { line = line; traced = option_map placed_of named.now } ∷ read) }
{
    if wrong.is_some() {
        return;
    }
    let Some(named) = named else {
        return;
    };
    let Some(positions) = positions else {
        return;
    };
    let finding = positions.name(named.1.upload, named.1.position, &named.0);
    *wrong = fault_by(number, named.1.upload, named.1.position, finding);
}

/// The fault of the lines, or else the first place that no line has.
fn first_fault(positions: &Positions, wrong: &Option<PositionFault>) -> Option<PositionFault>
    ensures { IsFaultAfter (uploads_of positions.now) (is_named positions.now) wrong.now result }
{
    if let Some(wrong) = wrong {
        return Some(*wrong);
    }
    match positions.first_unnamed() {
        Some((upload, position)) => Some(PositionFault::NoLine(upload, position)),
        None => None,
    }
}

/// The lines that were read.
#[derive(Drop)]
pub(crate) struct LinesRead {
    names: ClassNames,
    /// The valid taps of the uploads, if there are uploads.
    positions: Option<Positions>,
    /// Where the moment of a line is written again.
    again: String,
    lines: u64,
    /// The first of them that has another class than that of its token.
    wrong_class: Option<WrongClass>,
    /// What is wrong with the place of the first line that has a wrong one.
    wrong_position: Option<PositionFault>,
}

impl LinesRead {
    /// Reads the next line, of which enough was kept to show its form. 2^64 lines are an allocation
    /// failure.
    fn take(&mut self, line: &[u8], text: &mut Vec<u8>) -> Result<(), AllocError>
        ensures wanted { wanted_of self.new ≡ wanted_of self.old }
        ensures read { OnOk result ((whole before : List ℕ) (read : List ReadLine)
            → IsKeptOf line.now whole → HasLines self.old (before ++ text.old.items) read
            → (next : ReadLine) × (next.line ≡ whole)
            × HasLines self.new (before ++ text.new.items) (next ∷ read)) }
    {
        let named = untrace(text, line, &mut self.again)?;
        let Some(number) = self.lines.checked_add(1) else {
            return Err(AllocError);
        };
        let fault = class_fault(&self.names, number, &named);
        self.wrong_class = self.wrong_class.or(fault);
        look_at_position(
            &mut self.positions,
            &mut self.wrong_position,
            number,
            &named,
        );
        self.lines = number;
        Ok(())
    }
}

/// Appends no more than shows that the line is too long.
fn keep(kept: &mut Vec<u8>, text: &[u8]) -> Result<(), AllocError>
    ensures { OnOk result ((before : List ℕ) → IsKeptOf kept.old.items before
        → IsKeptOf kept.new.items (before ++ text.now)) }
{
    if kept.len() > MAX_LINE_BYTES {
        return Ok(());
    }
    let room = MAX_LINE_BYTES + 1 - kept.len();
    if text.len() <= room {
        kept.extend_from_slice(text)
    } else {
        kept.extend_from_slice(&text[..room])
    }
}

/// A traced ledger that comes in pieces. No more of it than the prefix of a line is in memory.
#[derive(Drop)]
pub(crate) struct TracedPieces {
    /// The whole lines.
    so_far: LinesRead,
    /// The prefix of the line whose end has not come yet.
    started: Vec<u8>,
}

impl TracedPieces {
    /// No place was named yet. The places, if there are uploads, are theirs.
    pub(crate) fn new(
        alloc: Global,
        names: ClassNames,
        positions: Option<Positions>,
    ) -> TracedPieces
        requires { HaveNamed positions [] }
        ensures read { HasTraced result [] [] [] }
        ensures wanted { wanted_of result.so_far
            ≡ record { classes = class_by names; uploads = uploads_in positions } }
    {
        TracedPieces {
            so_far: LinesRead {
                names,
                positions,
                again: String::new(alloc),
                lines: 0,
                wrong_class: None,
                wrong_position: None,
            },
            started: Vec::new(alloc),
        }
    }

    fn feed(&mut self, piece: &[u8], text: &mut Vec<u8>) -> Result<(), AllocError>
        ensures wanted { wanted_of self.new.so_far ≡ wanted_of self.old.so_far }

        // After all that was read so far.
        ensures read { OnOk result ((file before : List ℕ) (read : List ReadLine)
            → HasTraced self.old file (before ++ text.old.items) read → (read' : List ReadLine)
            × HasTraced self.new (file ++ piece.now) (before ++ text.new.items) read') }
    {
        let mut rest = piece;
        while !rest.is_empty() {
            let Some((line, trailing)) = split_line(rest) else {
                keep(&mut self.started, rest)?;
                return Ok(());
            };
            self.end_line(line, text)?;
            rest = trailing;
        }
        Ok(())
    }

    fn end_line(&mut self, line: &[u8], text: &mut Vec<u8>) -> Result<(), AllocError>
        requires line { IsLine line.now }
        ensures wanted { wanted_of self.new.so_far ≡ wanted_of self.old.so_far }
        ensures read { OnOk result ((file before : List ℕ) (read : List ReadLine)
            → HasTraced self.old file (before ++ text.old.items) read → (read' : List ReadLine)
            × HasTraced self.new (file ++ line.now) (before ++ text.new.items) read') }
    {
        if self.started.is_empty() {
            self.so_far.take(line, text)?;
            return Ok(());
        }
        keep(&mut self.started, line)?;
        self.so_far.take(self.started.as_slice(), text)?;
        self.started.clear();
        Ok(())
    }

    /// Appends what is read in place of the line that its end cuts.
    fn finish(&mut self, text: &mut Vec<u8>) -> Result<(), AllocError>
        ensures wanted { wanted_of self.new.so_far ≡ wanted_of self.old.so_far }
        ensures read { OnOk result ((file before : List ℕ) (read : List ReadLine)
            → HasTraced self.old file (before ++ text.old.items) read → (read' : List ReadLine)
            × (lines_read read' ≡ lines_of file)
            × HasLines self.new.so_far (before ++ text.new.items) read') }
    {
        if self.started.is_empty() {
            return Ok(());
        }
        self.so_far.take(self.started.as_slice(), text)?;
        Ok(())
    }

    /// Returns whether all classes are right.
    #[tactic(auto, unfolding(crate::specs::Traced::class_text))]
    fn write_classes(&self, text: &mut String) -> Result<bool, AllocError>
        ensures text { OnOk result (string_bytes text.new ≡ string_bytes text.old
            ++ class_text (class_by self.now.so_far.names) self.now.so_far.wrong_class) }
        ensures right { IfOk result (λ right. right ≡ not (is_some self.now.so_far.wrong_class)) }
    {
        match &self.so_far.wrong_class {
            None => {
                text.push_str("all classes of the table\n")?;
                Ok(true)
            }
            Some(wrong) => {
                let line = wrong.line;
                let class = self.so_far.names.class_of(wrong.moment, &wrong.token);
                write!(text, "line {line} has another class than {class}\n")?;
                Ok(false)
            }
        }
    }

    /// If there are uploads. Returns whether all places are right.
    fn write_positions(&self, text: &mut String) -> Result<bool, AllocError>
        ensures { IfOk result (λ right. (fault : Option AFault)
            × (string_bytes text.new ≡ string_bytes text.old
            ++ position_text (uploads_in self.now.so_far.positions) fault)
            × (right ≡ not (is_some fault))
            × ((read : List ReadLine)
            → HasPositions self.now.so_far.positions self.now.so_far.wrong_position read
            → IsPositionFault (uploads_in self.now.so_far.positions) read fault)) }
    {
        let Some(positions) = &self.so_far.positions else {
            return Ok(true);
        };
        let fault = first_fault(positions, &self.so_far.wrong_position);
        write_position(text, &fault)?;
        Ok(fault.is_none())
    }
}

fn write_fault(text: &mut String, fault: &PositionFault) -> Result<(), AllocError>
    ensures { OnOk result
        (string_bytes text.new ≡ string_bytes text.old ++ fault_text fault.now) }
{
    match fault {
        PositionFault::OtherTap(line, upload, position) => write!(
            text,
            "line {line} has another tap than upload {upload} has at place {position}\n"
        ),
        PositionFault::Repeated(line, upload, position) => write!(
            text,
            "line {line} has upload {upload} place {position} again\n"
        ),
        PositionFault::NoLine(upload, position) => {
            write!(text, "no line has upload {upload} place {position}\n")
        }
    }
}

fn write_position(text: &mut String, fault: &Option<PositionFault>) -> Result<(), AllocError>
    ensures { OnOk result
        (string_bytes text.new ≡ string_bytes text.old ++ positions_text fault.now) }
{
    match fault {
        None => text.push_str("all places of the uploads\n"),
        Some(fault) => write_fault(text, fault),
    }
}

/// The text becomes what is checked: the piece, or what it ends of the lines of a traced ledger,
/// without columns. A piece without bytes is the file's end, which may cut a line.
pub(crate) fn read_piece(
    trace: &mut Option<TracedPieces>,
    piece: &[u8],
    text: &mut Vec<u8>,
) -> Result<(), AllocError>
    ensures wanted { wanted_by trace.new ≡ wanted_by trace.old }
    ensures read { OnOk result ((file reported : List ℕ)
        → HasReadAs trace.old false file reported
        → HasReadAs trace.new (length piece.now == 0) (file ++ piece.now)
        (reported ++ text.new.items)) }
{
    text.clear();
    let Some(trace) = trace else {
        text.extend_from_slice(piece)?;
        return Ok(());
    };
    if piece.is_empty() {
        trace.finish(text)?;
        return Ok(());
    }
    trace.feed(piece, text)?;
    Ok(())
}

/// Returns whether the columns are right, if they are looked at: those of a ledger that is not
/// traced are.
pub(crate) fn write_columns(
    text: &mut String,
    is_looked_at: bool,
    trace: &Option<TracedPieces>,
) -> Result<bool, AllocError>
    ensures { IfOk result (λ right. (reported : List ℕ)
        × (string_bytes text.new ≡ string_bytes text.old ++ reported)
        × ((file : List ℕ) → (is_looked_at ≡ true → HasReadAll trace.now file)
        → (read : List ReadLine)
        × AreColumnsReported (wanted_by trace.now) is_looked_at file read reported right)) }
{
    let Some(trace) = trace else {
        return Ok(true);
    };
    if !is_looked_at {
        return Ok(false);
    }
    let are_classes = trace.write_classes(text)?;
    let are_positions = trace.write_positions(text)?;
    Ok(are_classes & are_positions)
}
