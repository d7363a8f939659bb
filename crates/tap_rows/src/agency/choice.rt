//! What of an agency's CSV is encoded.

use crate::agency::key::TokenKey;
use crate::devices::DeviceTable;
use jiff_tz::TimeZone;

/// What is between two fields: one byte, and none of a quote, a line feed and a carriage return.
#[derive(Clone, Copy, Debug, PartialEq, Eq)]
pub struct Separator {
    pub byte: u8,
}

/// What a plain number of the column of moments counts from 1970-01-01T00:00Z.
#[derive(Clone, Copy, Debug, PartialEq, Eq)]
pub enum Unit {
    /// Milliseconds by default: a moment before 2000 may then be one of seconds, and is refused.
    Unsaid,
    Seconds,
    Milliseconds,
    Microseconds,
}

/// Which of two moments a local time is that a clock shows twice, as it is set back.
#[derive(Clone, Copy, Debug, PartialEq, Eq)]
pub enum Fold {
    /// Nobody said it: the row is refused.
    Unsaid,
    First,
    Second,
}

/// The clock of local times: those without an offset.
#[derive(Clone, Copy, Debug)]
pub struct LocalClock<'a> {
    pub zone: TimeZone<'a>,
    pub fold: Fold,
}

/// What a row's field is compared with.
#[derive(Clone, Copy, Debug)]
pub struct Condition<'a> {
    pub column: &'a str,
    pub value: &'a str,
}

/// The columns of an agency's CSV by their names in its head, and how their fields are read.
#[derive(Debug, Drop)]
pub struct Columns<'a> {
    pub separator: Separator,
    pub token: &'a str,
    pub validator: &'a str,
    pub moment: &'a str,
    /// Whether the token is a hash of what its column has, which may then be any text.
    pub has_hashes: bool,
    /// What a plain number in the column of moments counts.
    pub unit: Unit,
    /// The format of `strptime` by which moments are read; none for plain numbers and RFC 3339.
    pub format: Option<&'a str>,
    /// A row is kept only if, in each column that these name, it has one of their values.
    pub only: Vec<Condition<'a>>,
    /// A row that has one of these values is not kept.
    pub without: Vec<Condition<'a>>,
    /// The column of how many riders a row is of: it must be one.
    pub count: Option<&'a str>,
}

/// How an agency's CSV is read.
#[derive(Clone, Copy)]
pub struct Choice<'a> {
    pub columns: &'a Columns<'a>,
    /// The devices whose names are in the column of validators; none if it has their numbers.
    pub devices: Option<&'a DeviceTable>,
    /// The key under which any text is a token; none if tokens are read, or are hashes.
    pub key: Option<&'a TokenKey>,
    /// The clock of local times; none if they are refused.
    pub clock: Option<LocalClock<'a>>,
}
