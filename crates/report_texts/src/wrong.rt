//! What is wrong with a line of a text of a part.

/// What is wrong with a line.
#[derive(Clone, Copy, Debug, PartialEq, Eq)]
pub enum Wrong {
    /// It is not the line that such a text has there.
    Form,
    /// The upload of a part was not posted.
    NotPosted,
    /// Its file's span does not join the part before, or its validator or token is not above the one
    /// before it.
    Order,
    /// The uploads, the validators or the tokens before it do not add up to the part's totals, or
    /// the sums are more than any run has.
    Totals,
}
