//! The line and the column of each key and each value in the text.

use crate::paths::{item_path, key_path};
use std::alloc::{AllocError, AllocFailed, Global};
use std::collections::BTreeMap;
use toml_parser::text::{skip_blank, skip_ws};
use toml_parser::{Key, ParseError, dotted_key, quoted, starts_string, unquoted};

/// The mark that may be before the first line. An editor does not show it.
const BYTE_ORDER_MARK: &str = "\u{feff}";

/// How many parts of a key that has dots are kept: no key with a meaning has more. So a text of one
/// long key takes no more than its length.
const KEPT_PARTS: usize = 16;

/// Where the keys and the values of a text are, by their whole paths.
#[derive(Drop)]
pub(crate) struct Positions {
    /// The offset of each key or element, in bytes.
    offsets: BTreeMap<String, usize>,
    /// The offset of the value after each key, in bytes.
    values: BTreeMap<String, usize>,
    /// The offsets at which lines begin.
    lines: Vec<usize>,
    size: usize,
}

/// Why the text is not read further.
#[derive(Clone, Copy)]
enum Stop {
    /// An allocation failed.
    NoMemory,
    /// What follows does not have the expected form.
    Lost,
}

impl From<AllocError> for Stop {
    fn from(_refused: AllocError) -> Stop {
        Stop::NoMemory
    }
}

impl<T: Drop> From<AllocFailed<T>> for Stop {
    fn from(_refused: AllocFailed<T>) -> Stop {
        Stop::NoMemory
    }
}

impl From<ParseError> for Stop {
    fn from(error: ParseError) -> Stop {
        match error {
            ParseError::OutOfMemory => Stop::NoMemory,
            ParseError::At(..) => Stop::Lost,
        }
    }
}

#[derive(Drop)]
struct Reader {
    positions: Positions,
    /// How many elements each array of tables has so far, by its path.
    counts: BTreeMap<String, usize>,
    /// The path of the last header.
    section: String,
    alloc: Global,
}

/// What encloses a value.
#[derive(Drop)]
enum Around {
    /// An array with this path, and the index of its next element.
    Array(String, usize),
    Inline(String),
}

/// What follows a mark, which has to come next.
fn trailing<'t>(text: &'t str, mark: &str) -> Result<&'t str, Stop> {
    match text.strip_prefix(mark) {
        Some(rest) => Ok(rest),
        None => Err(Stop::Lost),
    }
}

/// What follows blanks and, if one comes next, a comma and blanks.
fn after_comma(text: &str) -> &str {
    let rest = skip_blank(text, true);
    match rest.strip_prefix(",") {
        Some(after) => skip_blank(after, true),
        None => rest,
    }
}

fn lines_of(alloc: Global, text: &str) -> Result<Vec<usize>, AllocError> {
    let mut lines = Vec::new(alloc);
    lines.push(0)?;
    let mut next = 0usize;
    for byte in text.bytes() {
        next = next.saturating_add(1);
        if byte == b'\n' {
            lines.push(next)?;
        }
    }
    Ok(lines)
}

impl Reader {
    fn offset(&self, rest: &str) -> usize {
        self.positions.size.saturating_sub(rest.len())
    }

    /// Keeps the offset, the first time only.
    fn keep(&mut self, path: &str, rest: &str) -> Result<(), Stop> {
        let offset = self.offset(rest);
        if !self.positions.offsets.contains_key(path) {
            let path = String::from_str(self.alloc, path)?;
            self.positions.offsets.insert(path, offset)?;
        }
        Ok(())
    }

    fn keep_value(&mut self, path: &str, rest: &str) -> Result<(), Stop> {
        let offset = self.offset(rest);
        let path = String::from_str(self.alloc, path)?;
        self.positions.values.insert(path, offset)?;
        Ok(())
    }

    /// The path of the last element of an array of tables; else the path itself.
    fn last_of(&self, path: String) -> Result<String, Stop> {
        match self.counts.get(path.as_str()) {
            Some(count) => Ok(item_path(self.alloc, path.as_str(), count.saturating_sub(1))?),
            None => Ok(path),
        }
    }

    /// The path of a key that may have dots. Each part is kept with the key's offset.
    fn path_of(&mut self, holder: &str, key: &Key, at: &str) -> Result<String, Stop> {
        let mut path = String::from_str(self.alloc, holder)?;
        for part in key.path.iter().take(KEPT_PARTS) {
            path = key_path(self.alloc, path.as_str(), part.as_str())?;
            self.keep(path.as_str(), at)?;
            path = self.last_of(path)?;
        }
        path = key_path(self.alloc, path.as_str(), key.last.as_str())?;
        self.keep(path.as_str(), at)?;
        Ok(path)
    }

    /// A header `[KEY]`, after its first bracket.
    fn header<'t>(&mut self, at: &'t str, inner: &'t str) -> Result<&'t str, Stop> {
        let (key, rest) = dotted_key(self.alloc, skip_ws(inner))?;
        let path = self.path_of("", &key, at)?;
        self.section = self.last_of(path)?;
        trailing(rest, "]")
    }

    /// A header `[[KEY]]`, after its two first brackets.
    fn array_header<'t>(&mut self, at: &'t str, inner: &'t str) -> Result<&'t str, Stop> {
        let (key, rest) = dotted_key(self.alloc, skip_ws(inner))?;
        let path = self.path_of("", &key, at)?;
        let count = match self.counts.get(path.as_str()) {
            Some(count) => *count,
            None => 0,
        };
        let item = item_path(self.alloc, path.as_str(), count)?;
        self.keep(item.as_str(), at)?;
        self.counts.insert(path, count.saturating_add(1))?;
        self.section = item;
        trailing(rest, "]]")
    }

    fn scalar<'t>(&self, text: &'t str) -> Result<&'t str, Stop> {
        if starts_string(text) {
            let (_text, rest) = quoted(self.alloc, text)?;
            return Ok(rest);
        }
        let (_value, rest) = unquoted(self.alloc, text)?;
        Ok(rest)
    }

    fn pair<'t>(&mut self, holder: &str, at: &'t str) -> Result<(String, &'t str), Stop> {
        let (key, rest) = dotted_key(self.alloc, at)?;
        let path = self.path_of(holder, &key, at)?;
        Ok((path, skip_ws(trailing(skip_ws(rest), "=")?)))
    }

    /// The front of a value: a scalar, or what opens an array or an inline table.
    fn open<'t>(
        &mut self,
        around: &mut Vec<Around>,
        path: String,
        at: &'t str,
    ) -> Result<&'t str, Stop> {
        self.keep_value(path.as_str(), at)?;
        if let Some(inner) = at.strip_prefix("[") {
            around.push(Around::Array(path, 0))?;
            return Ok(inner);
        }
        if let Some(inner) = at.strip_prefix("{") {
            around.push(Around::Inline(path))?;
            return Ok(inner);
        }
        self.scalar(at)
    }

    /// What follows in an array or an inline table: its end, or the next value.
    fn next_in<'t>(
        &mut self,
        around: &mut Vec<Around>,
        inner: Around,
        text: &'t str,
    ) -> Result<&'t str, Stop> {
        let rest = after_comma(text);
        match inner {
            Around::Array(path, position) => {
                if let Some(after) = rest.strip_prefix("]") {
                    return Ok(after);
                }
                let item = item_path(self.alloc, path.as_str(), position)?;
                self.keep(item.as_str(), rest)?;
                around.push(Around::Array(path, position.saturating_add(1)))?;
                self.open(around, item, rest)
            }
            Around::Inline(path) => {
                if let Some(after) = rest.strip_prefix("}") {
                    return Ok(after);
                }
                let (key, at) = self.pair(path.as_str(), rest)?;
                around.push(Around::Inline(path))?;
                self.open(around, key, at)
            }
        }
    }

    fn value<'t>(&mut self, path: String, at: &'t str) -> Result<&'t str, Stop> {
        let mut around = Vec::new(self.alloc);
        let mut rest = self.open(&mut around, path, at)?;
        for _step in 0..at.len() {
            let Some(inner) = around.pop() else {
                return Ok(rest);
            };
            rest = self.next_in(&mut around, inner, rest)?;
        }
        Ok(rest)
    }

    fn expression<'t>(&mut self, at: &'t str) -> Result<&'t str, Stop> {
        if let Some(inner) = at.strip_prefix("[[") {
            return self.array_header(at, inner);
        }
        if let Some(inner) = at.strip_prefix("[") {
            return self.header(at, inner);
        }
        let section = self.section.clone()?;
        let (path, value) = self.pair(section.as_str(), at)?;
        self.value(path, value)
    }

    fn document(&mut self, text: &str) -> Result<(), Stop> {
        let mut rest = match text.strip_prefix(BYTE_ORDER_MARK) {
            Some(rest) => rest,
            None => text,
        };
        for _line in 0..text.len() {
            let start = skip_blank(rest, true);
            if start.is_empty() {
                return Ok(());
            }
            rest = self.expression(start)?;
        }
        Ok(())
    }
}

impl Positions {
    /// The lines of a text alone, and none of its keys.
    pub(crate) fn of_lines(alloc: Global, text: &str) -> Result<Positions, AllocError> {
        Ok(Positions {
            offsets: BTreeMap::new(alloc),
            values: BTreeMap::new(alloc),
            lines: lines_of(alloc, text)?,
            size: text.len(),
        })
    }

    /// The places of a text. If it is not TOML, those up to what is wrong with it.
    pub(crate) fn of(alloc: Global, text: &str) -> Result<Positions, AllocError> {
        let mut reader = Reader {
            positions: Positions::of_lines(alloc, text)?,
            counts: BTreeMap::new(alloc),
            section: String::new(alloc),
            alloc,
        };
        match reader.document(text) {
            Err(Stop::NoMemory) => Err(AllocError),
            _ => Ok(reader.positions),
        }
    }

    pub(crate) fn of_key(&self, path: &str) -> Option<usize> {
        self.offsets.get(path).copied()
    }

    pub(crate) fn of_value(&self, path: &str) -> Option<usize> {
        match self.values.get(path) {
            Some(offset) => Some(*offset),
            None => self.of_key(path),
        }
    }

    /// The line and the column of an offset in the text, both from 1. A column counts letters; a
    /// byte order mark is none.
    pub(crate) fn line_and_column(&self, text: &str, offset: usize) -> (usize, usize) {
        let line = self.lines.partition_point(|start| *start <= offset);
        let mut start = match self.lines.get(line.saturating_sub(1)) {
            Some(start) => *start,
            None => 0,
        };
        if start == 0 && text.starts_with(BYTE_ORDER_MARK) {
            start = BYTE_ORDER_MARK.len();
        }
        let mut column = 1usize;
        if let Some(front) = text.as_bytes().get(start..offset) {
            for byte in front {
                if *byte & 0xC0 != 0x80 {
                    column = column.saturating_add(1);
                }
            }
        }
        (line.max(1), column)
    }
}
