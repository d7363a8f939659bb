//! What a layout fault means, and what to do.
use std::fmt;
use tap_views::LayoutFault;

/// The name of a layout fault, from L1 to L6, its cause, and what to do.
#[derive(Clone, Copy, Debug)]
pub(crate) struct Meaning(pub(crate) LayoutFault);

impl fmt::Display for Meaning {
    fn fmt<W: fmt::Write>(&self, f: &mut fmt::Formatter<W>) -> fmt::Result {
        let name = self.0.name();
        let cause = match self.0 {
            LayoutFault::Short { .. } => "the file ends inside a batch's header",
            LayoutFault::Magic => "a batch does not begin with TAP1 or TAP2",
            LayoutFault::Flags => "the flags of a batch are not 0",
            LayoutFault::TooMany { .. } => "a batch counts more than 4096 taps",
            LayoutFault::Length { .. } => "the file ends inside a batch's taps",
            LayoutFault::Moment { .. } => "a tap is dated 2100 or later",
        };
        let remedy = match self.0 {
            LayoutFault::Short { .. } => "send the upload again, whole",
            LayoutFault::Magic => {
                "look at the file's first four bytes, then at the count of the batch before"
            }
            LayoutFault::Flags => "have the writer write 0 there",
            LayoutFault::TooMany { .. } => "have the writer cut the batch",
            LayoutFault::Length { .. } => "send the upload again, whole, or mend the count",
            LayoutFault::Moment { .. } => {
                "look at the validator's clock and at its unit, which is milliseconds"
            }
        };
        write!(f, "{name}, {cause}; {remedy}")
    }
}
