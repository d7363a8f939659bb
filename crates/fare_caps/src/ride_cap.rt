//! What a cap says of one ride or transfer.

ghost use Rattle.std.specs.Prelude.{◌≡◌, ◌<◌, IfSome, length};
ghost use Rattle.fare_caps.specs.CapMeanings.{said_of};
ghost use Rattle.fare_caps.specs.inside.Further.{IsBoundedCap, said_at};

use tariffs::{CapTerms, Mode, Tariff, WindowLength, WindowSpan};

/// What a cap says of one ride or transfer.
#[derive(Clone, Copy)]
pub(crate) struct RideCap {
    pub(crate) span: WindowSpan,
    pub(crate) counts: bool,
    pub(crate) ceiling: u32,
}

impl RideCap {
    /// What the cap at the index says of a ride of the class on the mode, if the table has so many.
    pub(crate) fn said(
        caps: &[CapTerms],
        index: usize,
        tariff: &Tariff,
        class: u32,
        mode: Mode,
    ) -> Option<RideCap>
        requires { class < length tariff.now.meaning.classes }
        ensures said { result ≡ said_at caps.now tariff.now.meaning mode.position class index }
        ensures bounds { IfSome result IsBoundedCap }
    {
        caps.get(index)?;
        Some(RideCap::of(index, tariff, class, mode))
    }

    fn of(index: usize, tariff: &Tariff, class: u32, mode: Mode) -> RideCap
        requires { class < length tariff.now.meaning.classes }
        ensures said { result ≡ said_of tariff.now.meaning index mode.position class }
        ensures bounds { IsBoundedCap result }
    {
        let ceiling = tariff.cap_ceiling(class, index);
        let day_starts = tariff.window_span().day_starts;
        match tariff.caps().get(index) {
            Some(cap) => RideCap {
                span: WindowSpan {
                    length: cap.length,
                    day_starts,
                },
                counts: match cap.counts.get(mode.position as usize) {
                    Some(counts) => *counts,
                    None => false,
                },
                ceiling,
            },
            None => RideCap {
                span: WindowSpan {
                    length: WindowLength::CalendarDay,
                    day_starts,
                },
                counts: false,
                ceiling,
            },
        }
    }
}
