//! The zone of a fare table.
ghost use Rattle.std.specs.Prelude.{IsSome};
ghost use Rattle.jiff.specs.ZoneView.{plain_zone};
ghost use Rattle.tariffs.specs.PosixRule.{posix_rule};

use jiff::tz::TimeZone;

/// A zone that a POSIX rule gives.
#[derive(Drop)]
pub struct Zone {
    /// The text of the rule, as the table has it.
    pub text: String,
    /// The rule that the text reads as.
    pub rule: TimeZone<'static>,
    pub ghost by_rule: { IsSome (posix_rule (plain_zone rule)) },
}
