//! Words of `--table`: a file, and the date from which its table is valid.
ghost use Rattle.program_manners.specs.TableViews.{names_of, wrong_of};
ghost use Rattle.program_manners.specs.TableWords.{byte_at, date_fault, date_of};
ghost use Rattle.program_manners.specs.TableWords.{file_named, has_form, is_day, tables_in};
ghost use Rattle.program_manners.specs.TableWords.{two_digits, written_date, written_in};
ghost use Rattle.program_manners.specs.TableWords.{wrong_date, wrong_later, wrong_word};
ghost use Rattle.std.specs.Prelude.{◌≡◌, ◌≤◌, ◌+◌, IfOk, IfSome, Some, is_some, map, option_map};
ghost use Rattle.std.specs.Prelude.{pos};

use jiff::civil::Date;
use std::alloc::{AllocError, Global};
use std::fmt;

/// How many bytes `@2026-01-04` has.
const DATE_BYTES: usize = 11;

/// The date that a word's four, two and two digits write. The calendar may lack it.
#[derive(Clone, Copy, Debug, PartialEq, Eq)]
pub struct WrittenDate {
    pub year: u16,
    pub month: u8,
    pub day: u8,
}

/// What is wrong with the date of a word of `--table`, or with that it has none.
#[derive(Clone, Copy, Debug, PartialEq, Eq)]
pub enum DateFault {
    /// Its year is not from 1970 to 2099.
    OtherYear,
    /// The calendar has no such day.
    NotADay,
    /// It is the first table's, which is valid from the first moment on.
    IsFirst,
    /// A table after the first one has none.
    NoDate,
}

/// The usage error of a word of `--table`, without the prefix of its line.
#[derive(Clone, Copy, Debug)]
pub struct WrongWord<'a> {
    pub word: &'a str,
    pub fault: DateFault,
}

impl fmt::Display for WrongWord<'_> {
    fn fmt<W: fmt::Write>(&self, f: &mut fmt::Formatter<W>) -> fmt::Result {
        let word = self.word;
        match self.fault {
            DateFault::OtherYear => {
                write!(f, "--table {word}: a date is from 1970-01-01 to 2099-12-31")
            }
            DateFault::NotADay => write!(f, "--table {word}: there is no such date"),
            DateFault::IsFirst => write!(f, "--table {word}: the first table has no date"),
            DateFault::NoDate => {
                write!(f, "--table {word}: a date is wanted, as {word}@2026-01-04")
            }
        }
    }
}

/// A word of `--table`.
#[derive(Clone, Copy, Debug)]
pub struct TableWord<'a> {
    /// The name of the file.
    pub name: &'a str,
    /// The date from which the table is valid, if the word ends in the form of one.
    pub date: Option<WrittenDate>,
}

impl<'a> TableWord<'a> {
    /// The word in its parts. What is after its last `@` is a date if it has the form `2026-01-04`.
    pub fn of(word: &'a str) -> TableWord<'a>
        ensures name { result.name.now ≡ file_named word.entry.now }
        ensures date { result.date ≡ written_date word.entry.now }
    {
        let start = word.len().saturating_sub(DATE_BYTES);
        let date = written_in(&word.as_bytes()[start..]);
        let name = match date {
            Some(_) => &word[..start],
            None => word,
        };
        TableWord { name, date }
    }
}

/// The words of `--table`, one for each table.
#[derive(Drop)]
pub struct TableWords<'a> {
    /// The word of the table that is valid first.
    pub first: &'a str,
    /// The words of the tables after it, in order.
    pub later: Vec<&'a str>,
}

impl<'a> TableWords<'a> {
    /// These words, if there are any.
    pub fn of(alloc: Global, words: &[&'a str]) -> Result<Option<TableWords<'a>>, AllocError>
        ensures { IfOk result (λ tables. option_map names_of tables
            ≡ tables_in (map (λ w. w.now) words.now)) }
    {
        let Some((first, later)) = words.split_first() else {
            return Ok(None);
        };
        Ok(Some(TableWords {
            first,
            later: Vec::from_slice(alloc, later)?,
        }))
    }

    /// The first word with a wrong date: the first table has none, and each later one has a date
    /// from 1970-01-01 to 2099-12-31.
    pub fn wrong_word(&self) -> Option<WrongWord<'a>>
        ensures { option_map wrong_of result ≡ wrong_word (names_of self.now) }
    {
        if let Some(fault) = date_fault(true, self.first) {
            return Some(WrongWord {
                word: self.first,
                fault,
            });
        }
        wrong_later(&self.later)
    }
}

fn byte_at(bytes: &[u8], position: usize) -> u8
    ensures { result ≡ byte_at bytes.now position }
{
    match bytes.get(position) {
        Some(byte) => *byte,
        None => 0,
    }
}

fn two_digits(tens: u8, ones: u8) -> Option<u8>
    ensures number { result ≡ two_digits tens ones }
    ensures bound { IfSome result (λ number. number ≤ 99) }
{
    if (48 <= tens && tens <= 57) && (48 <= ones && ones <= 57) {
        Some((tens - 48) * 10 + (ones - 48))
    } else {
        None
    }
}

fn number_at(bytes: &[u8], position: usize) -> Option<u8>
    requires { position ≤ 9 }
    ensures number { result ≡ two_digits (byte_at bytes.now position) (byte_at bytes.now (position + 1)) }
    ensures bound { IfSome result (λ number. number ≤ 99) }
{
    two_digits(byte_at(bytes, position), byte_at(bytes, position + 1))
}

fn has_form(end: &[u8]) -> bool
    ensures { result ≡ has_form end.now }
{
    end.len() == DATE_BYTES
        && (byte_at(end, 0) == b'@' && (byte_at(end, 5) == b'-' && byte_at(end, 8) == b'-'))
}

fn date_of(
    century: Option<u8>,
    year: Option<u8>,
    month: Option<u8>,
    day: Option<u8>,
) -> Option<WrittenDate>
    requires century { IfSome century (λ number. number ≤ 99) }
    requires year { IfSome year (λ number. number ≤ 99) }
    ensures { result ≡ date_of century year month day }
{
    match (century, year, month, day) {
        (Some(century), Some(year), Some(month), Some(day)) => Some(WrittenDate {
            year: u16::from(century) * 100 + u16::from(year),
            month,
            day,
        }),
        _ => None,
    }
}

fn written_in(end: &[u8]) -> Option<WrittenDate>
    ensures { result ≡ written_in end.now }
{
    if !has_form(end) {
        return None;
    }
    date_of(
        number_at(end, 1),
        number_at(end, 3),
        number_at(end, 6),
        number_at(end, 9),
    )
}

/// `None` if the calendar lacks the day.
pub(crate) fn day_of(date: WrittenDate) -> Option<Date>
    requires { date.year ≤ 2099 }
    ensures there { is_some result ≡ is_day date }
    ensures day { IfSome result (λ day. (day.year ≡ pos date.year) × (day.month ≡ date.month)
        × (day.day ≡ date.day)) }
{
    if date.month > 12 || date.day > 31 {
        return None;
    }
    match Date::new(date.year as i16, date.month as i8, date.day as i8) {
        Ok(day) => Some(day),
        Err(_) => None,
    }
}

fn wrong_date(is_first: bool, date: WrittenDate) -> Option<DateFault>
    ensures { result ≡ wrong_date is_first date }
{
    if !(1970 <= date.year && date.year <= 2099) {
        return Some(DateFault::OtherYear);
    }
    if day_of(date).is_none() {
        return Some(DateFault::NotADay);
    }
    if is_first {
        Some(DateFault::IsFirst)
    } else {
        None
    }
}

/// What is wrong with the date of a word of `--table`, which is the first one or a later one.
pub fn date_fault(is_first: bool, word: &str) -> Option<DateFault>
    ensures { result ≡ date_fault is_first word.now }
{
    match TableWord::of(word).date {
        Some(date) => wrong_date(is_first, date),
        None if is_first => None,
        None => Some(DateFault::NoDate),
    }
}

fn wrong_later<'a>(words: &[&'a str]) -> Option<WrongWord<'a>>
    ensures { option_map wrong_of result ≡ wrong_later (map (λ w. w.now) words.now) }
{
    for word in words {
        if let Some(fault) = date_fault(false, word) {
            return Some(WrongWord { word, fault });
        }
    }
    None
}
