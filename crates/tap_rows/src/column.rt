//! The columns of a tap table.

/// What is wrong with a row: the number of its fields, or its first field that is wrong.
#[derive(Clone, Copy, Debug, PartialEq, Eq)]
pub enum Column {
    /// The row does not have three fields.
    Fields,
    /// The token's field is not 32 hexadecimal digits.
    Token,
    /// The validator's field is not a decimal number below 2^32.
    Validator,
    /// The moment's field gives no moment below 2100-01-01T00:00Z.
    Moment,
}
