//! Theorems about fare tables, each the contract of a function that does nothing.
ghost use Rattle.jiff_tz.specs.declared.posix.TimeZone.{TimeZone as PosixRule};
ghost use Rattle.std.specs.Prelude.{◌≡◌, ℕ, ◌<◌, ◌≤◌, ◌+ℤ◌, pos};
ghost use Rattle.tariffs.specs.{Fares.Fares, Fares.meaning_at, Until.IsWindowEnd};
ghost use Rattle.tariffs.specs.Until.{civil_window_end, day_at, moment_nanos, start_instant, until};
ghost use Rattle.tariffs.specs.declared.window_span.WindowLength.TheVariants.{Days};
ghost use Rattle.tariffs.specs.declared.window_span.WindowSpan.{WindowSpan};

/// A window ends after it starts.
pub fn windows_end_later()
    ensures { (fares : Fares) (start : ℕ) → start < until fares start }
{}

/// A window has one end: its days after its start, or the start of its end date.
pub fn windows_have_one_end()
    ensures { (fares : Fares) (start window_end : ℕ)
        → IsWindowEnd fares.zone (meaning_at fares start).window start window_end
        → window_end ≡ until fares start }
{}

/// In a zone a window of four days or more ends as a day starts, by any zone's rule.
pub fn long_windows_end_as_a_day_starts()
    ensures { (zone : PosixRule) (span : WindowSpan) (count start : ℕ)
        → span.length ≡ Days count → 4 ≤ count
        → moment_nanos (civil_window_end zone span start)
        ≡ start_instant zone span.day_starts
        (day_at zone span.day_starts (moment_nanos start) +ℤ pos count) }
{}
