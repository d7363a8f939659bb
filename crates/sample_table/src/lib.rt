//! The sample fare table of all tests, its variants, taps of its day, the example, and a writer.
#![tactic(auto)]

mod example;
mod narrow;

pub use example::{NEW_YORK_STATEMENT, REPORT, STATEMENT, rides, strays};
pub use narrow::Narrow;
use tap_views::TapFields;

macro_rules! sample {
    ($first_line:literal) => {
        concat!(
            $first_line,
            r#"modes = ["subway", "bus"]
transfers = [["subway", "bus"], ["bus", "subway"], ["bus", "bus"]]
default_class = "full"

[classes.full]
fare = 300
rides = 12
ceiling = 3500

[classes.reduced]
fare = 150
rides = 12

[[validators]]
first = 1000
last = 1999
mode = "subway"

[[validators]]
first = 2000
last = 2999
mode = "bus"

[riders]
000000000000000000000000000000d4 = "reduced"
"#
        )
    };
}

/// The sample: windows end seven days after their start.
pub const SAMPLE: &str = sample!("");

/// The sample under New York's civil time.
pub const NEW_YORK: &str = sample!("zone = \"EST5EDT,M3.2.0,M11.1.0\"\n");

/// A validator of the mode `subway`.
pub const SUBWAY: u32 = 1000;

/// A validator of the mode `bus`.
pub const BUS: u32 = 2000;

/// When the taps' day begins: 2024-03-08T17:00:00.000Z, in milliseconds since 1970-01-01T00:00Z.
pub const START: u64 = 1_709_917_200_000;

/// The token whose last byte is the given one and whose other bytes are 0.
pub fn bytes_of(last: u8) -> [u8; 16] {
    let mut token = [0; 16];
    token[15] = last;
    token
}

/// The tap of this token at a validator and a moment.
pub fn tap(last: u8, validator: u32, moment: u64) -> TapFields {
    TapFields {
        token: bytes_of(last),
        validator,
        moment,
    }
}

/// The tap of this token at a validator, `after` milliseconds after `START`.
pub fn tap_after(last: u8, validator: u32, after: u64) -> TapFields {
    tap(last, validator, START.saturating_add(after))
}
