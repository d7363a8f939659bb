//! The taps of a batch, from both ends.

ghost use Rattle.std.specs.Iterator.{YieldsFirst, YieldsLast, item_count};
ghost use Rattle.std.specs.Prelude.{◌≡◌, ◌+◌, ◌*◌, ◌<◌, ◌≤◌, length, take, drop, slice_get, Some};

use crate::layout::width_of;
use crate::view::TapView;
use std::marker::Model;

/// The taps of a batch in their order, from the front and from the back.
#[derive(Drop)]
pub struct Taps<'a> {
    pub(crate) shared: Option<&'a [u8]>,
    pub(crate) records: &'a [u8],
    pub(crate) left: u32,
}

impl<'a> Model for Taps<'a> {
    ghost use Rattle.std.specs.Prelude.{List};
    ghost use Rattle.tap_views.specs.Layout.{Tap};
    ghost use Rattle.tap_views.specs.inside.Records.{layout_of, taps_in, AreRecords};

    ghost Value = { List Tap };

    ghost view = { λ taps. taps_in (layout_of taps.shared) taps.left taps.records.now };

    ghost invariant = { λ taps. AreRecords (layout_of taps.shared) taps.left taps.records.now };
}

impl<'a> Taps<'a> {
    pub(crate) fn at(&self, i: u32) -> TapView<'a>
        requires { i < length self.now }
        ensures { slice_get self.now i ≡ Some result }
    {
        let width = width_of(self.shared);
        TapView::of(self.shared, record_at(self.records, width, i as usize))
    }
}

impl<'a> Iterator for Taps<'a> {
    type Item = TapView<'a>;

    ghost next_gives = { YieldsFirst (λ left. left) };

    ghost remaining = { item_count (λ left. left) };

    fn next(&mut self) -> Option<TapView<'a>> {
        if self.left == 0 {
            return None;
        }
        let (first, rest) = self.records.split_at(width_of(self.shared));
        let tap = TapView::of(self.shared, first);
        self.records = rest;
        self.left -= 1;
        Some(tap)
    }
}

impl<'a> DoubleEndedIterator for Taps<'a> {
    ghost next_back_gives = { YieldsLast (λ left. left) };

    fn next_back(&mut self) -> Option<TapView<'a>> {
        if self.left == 0 {
            return None;
        }
        self.left -= 1;
        let at = width_of(self.shared) * self.left as usize;
        let (rest, last) = self.records.split_at(at);
        let tap = TapView::of(self.shared, last);
        self.records = rest;
        Some(tap)
    }
}

pub(crate) fn record_at(records: &[u8], width: usize, i: usize) -> &[u8]
    requires { width * i + width ≤ length records.now }
    ensures bytes { result.now ≡ take width (drop (width * i) records.now) }
    ensures whole { length result.now ≡ width }
{
    let at = width * i;
    &records[at..at + width]
}
