//! The example: two uploads of two tokens, their report, and the statement of the first token.

use crate::{BUS, SUBWAY, tap_after};
use tap_views::TapFields;

/// The taps of the first upload, of one token within an hour: paid, transfer, paid, transfer.
pub fn rides() -> [TapFields; 4] {
    [
        tap_after(0xa1, SUBWAY, 0),
        tap_after(0xa1, BUS, 1_200_000),
        tap_after(0xa1, BUS, 2_400_000),
        tap_after(0xa1, SUBWAY, 3_600_000),
    ]
}

/// The taps of the second upload, of another token: at an unknown validator, and an earlier one.
pub fn strays() -> [TapFields; 2] {
    [tap_after(0xb2, 9, 10), tap_after(0xb2, SUBWAY, 5)]
}

/// The report of both uploads.
pub const REPORT: &str = "uploads 2
upload 0 posted 4
upload 1 posted 2
totals taps 6 paid 3 transfers 2 capped 0 stale 0 unknown 1 cents 900
validators 3
validator 9 taps 1 paid 0 transfers 0 capped 0 stale 0 unknown 1 cents 0
validator 1000 taps 3 paid 2 transfers 1 capped 0 stale 0 unknown 0 cents 600
validator 2000 taps 2 paid 1 transfers 1 capped 0 stale 0 unknown 0 cents 300
tokens 2
token 000000000000000000000000000000a1 taps 4 paid 2 transfers 2 capped 0 stale 0 unknown 0 cents 600
token 000000000000000000000000000000b2 taps 2 paid 1 transfers 0 capped 0 stale 0 unknown 1 cents 300
";

macro_rules! statement {
    ($window_end:literal) => {
        concat!(
            "statement 000000000000000000000000000000a1
2024-03-08T17:00:00.000Z subway 1000 paid 300
2024-03-08T17:20:00.000Z bus 2000 transfer 0
2024-03-08T17:40:00.000Z bus 2000 paid 300
2024-03-08T18:00:00.000Z subway 1000 transfer 0
totals taps 4 paid 2 transfers 2 capped 0 stale 0 unknown 0 cents 600
window 2024-03-08T17:00:00.000Z ",
            $window_end,
            " paid 2 cents 600\n"
        )
    };
}

/// The statement of the first upload's token under the sample table.
pub const STATEMENT: &str = statement!("2024-03-15T17:00:00.000Z");

/// Under New York's civil time the window ends at midnight.
pub const NEW_YORK_STATEMENT: &str = statement!("2024-03-15T04:00:00.000Z");
