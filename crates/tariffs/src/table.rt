//! The fare table and its look-ups.
ghost use Rattle.std.specs.Arc.{arc_value};
ghost use Rattle.std.specs.Prelude.{◌≡◌, ℕ, ◌<◌, ◌≤◌, [], length, option_map, IfSome, IfErr, IfOk};
ghost use Rattle.std.specs.Prelude.{IsTrue, IsOk, None, Some, All, map, slice_get, string_bytes};
ghost use Rattle.tariffs.specs.Fares.{has_caps_or_prices, meaning_at, mode_at, terms_at};
ghost use Rattle.tariffs.specs.Following.{CanFollow, IsFollowFault, with_next};
ghost use Rattle.tariffs.specs.{Prices.IsBoundedPrice, Riders.by_bytes};
ghost use Rattle.tariffs.specs.Terms.{AreBoundedTerms, IsBoundedClass};
ghost use Rattle.tariffs.specs.WindowSpan.{IsBoundedLength, IsBoundedSpan};
ghost use Rattle.tariffs.specs.inside.Table.{started, dated_meaning, same_names, same_zone};
ghost use Rattle.tariffs.specs.Following as spec;

use crate::cap_terms::CapTerms;
use crate::class::Class;
use crate::clock::Clock;
use crate::follow_fault::FollowFault;
use crate::mode::Mode;
use crate::price::Price;
use crate::tariff::Tariff;
use crate::terms::Terms;
use crate::validators::RangeRest;
use crate::window_span::WindowSpan;
use std::alloc::Global;
use std::collections::BTreeMap;
use std::marker::Model;
use std::sync::Arc;
use tap_views::{NoMemory, Token};

/// An agency's fare table: the tariff of one text, and those that follow, each from a date on.
#[derive(Drop)]
pub struct FareTable {
    /// One for all clones: each book has a clone, and none changes it.
    first: Arc<Tariff>,
    /// When the next tariff begins, `u64::MAX` if none does, or 0 if there are caps or prices.
    until: u64,
    /// Whether one of the tariffs names the price of a transfer.
    priced: bool,
    /// The tariffs that follow, in the order of their dates.
    later: Vec<DatedTariff>,
}

impl Model for FareTable {
    ghost use Rattle.std.specs.Arc.{arc_value};
    ghost use Rattle.tariffs.specs.Fares.{Fares};

    ghost Value = { Fares };

    ghost use Rattle.std.specs.Prelude.{map};
    ghost use Rattle.tariffs.specs.inside.Table.{dated_meaning, fares_of, AreDated};

    ghost view = { λ t. fares_of (arc_value t.first) t.later.items };

    ghost invariant = { λ t. AreDated (arc_value t.first).meaning t.priced t.until
        (map dated_meaning t.later.items) };
}

#[derive(Drop)]
struct DatedTariff {
    from: u64,
    tariff: Arc<Tariff>,
}

impl FareTable {
    /// A table of one tariff, which no other follows, or `NoMemory`.
    pub fn new(alloc: Global, tariff: Tariff) -> Result<FareTable, NoMemory>
        ensures meaning { IfOk result (λ t. t.meaning ≡ tariff.meaning) }
        ensures zone { IfOk result (λ t. t.zone ≡ tariff.zone) }
        ensures alone { IfOk result (λ t. t.later ≡ []) }
    {
        let priced = !tariff.prices().is_empty();
        let until = if !tariff.caps().is_empty() || priced {
            0
        } else {
            u64::MAX
        };
        Ok(FareTable {
            first: Arc::new(alloc, tariff)?,
            until,
            priced,
            later: Vec::new(alloc),
        })
    }

    /// These tables, and one that is valid from the moment on, or why it cannot follow.
    pub fn followed_by(mut self, from: u64, next: FareTable) -> Result<FareTable, FollowFault>
        ensures follows { IfOk result (λ _. CanFollow self from next) }
        ensures tables { IfOk result (λ t. t ≡ with_next self from next.meaning) }
        ensures fault { IfErr result (IsFollowFault self from next) }
    {
        if let Some(fault) = self.follow_fault(from, &next) {
            return Err(fault);
        }
        match self.push(from, next.first) {
            Ok(()) => Ok(self),
            Err(NoMemory) => Err(FollowFault::NoMemory),
        }
    }

    /// A clock of the zone of all its tariffs. It takes no memory.
    pub fn clock(&self, _alloc: Global) -> Result<Clock, NoMemory>
        ensures answers { IsOk result }
        ensures zone { IfOk result (λ c. c ≡ self.now.zone) }
    {
        Ok(self.first.clock())
    }

    /// An equal table that shares this one's tariffs. `NoMemory` also if one is shared too often.
    pub fn try_clone(&self, alloc: Global) -> Result<FareTable, NoMemory>
        ensures { IfOk result (λ t. t ≡ self.now) }
    {
        let mut later = Vec::new(alloc);
        for dated in &self.later {
            later.push(DatedTariff {
                from: dated.from,
                tariff: Arc::try_clone(&dated.tariff)?,
            })?;
        }
        Ok(FareTable {
            first: Arc::try_clone(&self.first)?,
            until: self.until,
            priced: self.priced,
            later,
        })
    }

    /// The tariff that is valid at the moment.
    #[inline]
    pub fn at(&self, moment: u64) -> &Tariff
        ensures meaning { result.now.meaning ≡ meaning_at self.now moment }
        ensures modes { result.now.meaning.modes ≡ self.now.meaning.modes }
    {
        if self.is_first_at(moment) {
            return &self.first;
        }
        self.later_at(moment)
    }

    /// Whether the first tariff is valid up to the moment. A wrong no costs a look-up and no more.
    #[inline(always)]
    pub fn is_first_at(&self, moment: u64) -> bool
        ensures { IsTrue result → (earlier : ℕ) → earlier ≤ moment
            → meaning_at self.now earlier ≡ self.now.meaning }
    {
        moment < self.until
    }

    /// The tariff that is valid first. The look-ups below that take no moment are its own.
    pub fn first(&self) -> &Tariff
        ensures { result.now.meaning ≡ self.now.meaning }
    {
        &self.first
    }

    /// How many tariffs follow the first one.
    pub fn later_len(&self) -> usize
        ensures { result ≡ length self.now.later }
    {
        self.later.len()
    }

    /// The tariff at the index among those that follow, after the moment from which it is valid.
    pub fn later(&self, position: usize) -> (u64, &Tariff)
        requires { position < length self.now.later }
        ensures { slice_get self.now.later position ≡ Some (result.0, result.1.now.meaning) }
    {
        let dated = &self.later[position];
        (dated.from, &dated.tariff)
    }

    /// Whether one tariff is valid at both moments. A wrong no costs a look-up and no more.
    #[inline]
    pub fn is_one_tariff(&self, earlier: u64, moment: u64) -> bool
        requires { earlier ≤ moment }
        ensures { IsTrue result → meaning_at self.now earlier ≡ meaning_at self.now moment }
    {
        self.is_first_at(moment) || self.none_between(earlier, moment)
    }

    /// The mode of a validator at the moment, or `None` if no range of that tariff has it.
    #[inline(always)]
    pub fn mode_of(&self, moment: u64, validator: u32) -> Option<Mode>
        ensures mode { option_map (λ m. m.position) result ≡ mode_at self.now moment validator }
        ensures within { IfSome result (λ m. m.position < length self.now.meaning.modes) }
        ensures few { length self.now.meaning.modes ≤ 32 }
    {
        if self.is_first_at(moment) {
            return self.first.mode_of(validator);
        }
        self.later_mode_of(moment, validator)
    }

    /// The mode's name. All tariffs have the same modes.
    pub fn mode_name(&self, mode: Mode) -> &str
        requires { mode.position < length self.now.meaning.modes }
        ensures { slice_get self.now.meaning.modes mode.position ≡ Some result.now }
    {
        self.first.mode_name(mode)
    }

    /// The names of the modes by index.
    pub fn mode_names(&self) -> &[String]
        ensures names { map string_bytes result.now ≡ self.now.meaning.modes }
        ensures few { length result.now ≤ 32 }
    {
        self.first.mode_names()
    }

    /// The classes by index.
    pub fn classes(&self) -> &[Class]
        ensures classes { result.now ≡ self.now.meaning.classes }
        ensures bounds { All IsBoundedClass result.now }
    {
        self.first.classes()
    }

    /// The names of the classes by index, in their byte order.
    pub fn class_names(&self) -> &[String]
        ensures names { map string_bytes result.now ≡ self.now.meaning.names }
        ensures each { length result.now ≡ length self.now.meaning.classes }
    {
        self.first.class_names()
    }

    /// The index of the class of all riders that have none of their own.
    pub fn default_class(&self) -> u32
        ensures class { result ≡ self.now.meaning.standard }
        ensures there { result < length self.now.meaning.classes }
    {
        self.first.default_class()
    }

    /// The caps beside `window` by index.
    #[inline]
    pub fn caps(&self) -> &[CapTerms]
        ensures caps { result.now ≡ self.now.meaning.caps }
        ensures few { length result.now ≤ 3 }
        ensures bounds { All (λ cap. IsBoundedLength cap.length) result.now }
    {
        self.first.caps()
    }

    /// Whether there are caps beside `window`, or a tariff names the price of a transfer.
    #[inline(always)]
    pub fn has_caps_or_prices(&self) -> bool
        ensures { result ≡ has_caps_or_prices self.now }
    {
        !self.first.caps().is_empty() || self.priced
    }

    /// The same: at a moment of the first tariff by the compare of `is_first_at` alone.
    #[inline(always)]
    pub fn has_caps_or_prices_at(&self, moment: u64) -> bool
        ensures { result ≡ has_caps_or_prices self.now }
    {
        self.until <= moment && self.has_caps_or_prices()
    }

    /// The names of the caps by index, in their byte order. All tariffs have the same.
    pub fn cap_names(&self) -> &[String]
        ensures names { map string_bytes result.now ≡ self.now.meaning.cap_names }
        ensures each { length result.now ≡ length self.now.meaning.caps }
    {
        self.first.cap_names()
    }

    /// The pairs of indices of modes with a transfer, each once, in the order of the text.
    pub fn pairs(&self) -> &[(u8, u8)]
        ensures { result.now ≡ self.now.meaning.transfers }
    {
        self.first.pairs()
    }

    /// The prices of the first tariff's transfers that are not free, in the order of the text.
    pub fn prices(&self) -> &[Price]
        ensures prices { result.now ≡ self.now.meaning.prices }
        ensures bounds { All IsBoundedPrice result.now }
    {
        self.first.prices()
    }

    /// The ranges of validators, each by its first number, strictly increasing.
    pub fn ranges(&self) -> &[(u32, RangeRest)]
        ensures { result.now ≡ self.now.meaning.ranges }
    {
        self.first.ranges()
    }

    /// The indices of the classes of riders that have their own, by their tokens, increasing.
    pub fn riders(&self) -> &BTreeMap<Token, u32>
        ensures { by_bytes result.now.entries ≡ self.now.meaning.riders }
    {
        self.first.riders()
    }

    /// The text of the zone, if the table names one. All tariffs have the same.
    pub fn zone_text(&self) -> Option<&str>
        ensures { option_map (λ text. text.now) result ≡ self.now.meaning.zone }
    {
        self.first.zone_text()
    }

    /// How long windows are, and when a day starts.
    pub fn window_span(&self) -> WindowSpan
        ensures window { result ≡ self.now.meaning.window }
        ensures bounds { IsBoundedSpan result }
    {
        self.first.window_span()
    }

    /// What a token's rider pays under the first table, in cents, on a mode without its own fare.
    pub fn terms_of(&self, token: &[u8]) -> Terms
        requires { length token.now ≡ 16 }
        ensures terms { result ≡ terms_at self.now.meaning token.now }
        ensures bounds { AreBoundedTerms result }
    {
        self.first.terms_of(token)
    }

    /// This and `later_at` are kept out of `mode_of` and `at`: one tariff costs a compare there.
    #[cold]
    #[inline(never)]
    fn later_mode_of(&self, moment: u64, validator: u32) -> Option<Mode>
        ensures mode { option_map (λ m. m.position) result ≡ mode_at self.now moment validator }
        ensures within { IfSome result (λ m. m.position < length self.now.meaning.modes) }
        ensures few { length self.now.meaning.modes ≤ 32 }
    {
        let tariff = self.later_at(moment);
        tariff.mode_of(validator)
    }

    #[cold]
    #[inline(never)]
    fn later_at(&self, moment: u64) -> &Tariff
        ensures meaning { result.now.meaning ≡ meaning_at self.now moment }
        ensures modes { result.now.meaning.modes ≡ self.now.meaning.modes }
    {
        let started = started(&self.later, moment);
        if started == 0 {
            &self.first
        } else {
            &self.later[started - 1].tariff
        }
    }

    #[cold]
    #[inline(never)]
    fn none_between(&self, earlier: u64, moment: u64) -> bool
        requires { earlier ≤ moment }
        ensures { IsTrue result → meaning_at self.now earlier ≡ meaning_at self.now moment }
    {
        started(&self.later, earlier) == started(&self.later, moment)
    }

    fn follow_fault(&self, from: u64, next: &FareTable) -> Option<FollowFault>
        ensures fault { IfSome result (IsFollowFault self.now from next.now) }
        ensures none { result ≡ None → CanFollow self.now from next.now }
    {
        if from <= last_from(&self.later) {
            return Some(FollowFault::Date);
        }
        if !same_zone(self.zone_text(), next.zone_text()) {
            return Some(FollowFault::Zone);
        }
        if !same_names(self.mode_names(), next.mode_names()) {
            return Some(FollowFault::Modes);
        }
        if !same_names(self.cap_names(), next.cap_names()) {
            return Some(FollowFault::Caps);
        }
        if !next.later.as_slice().is_empty() {
            return Some(FollowFault::Followed);
        }
        None
    }

    fn push(&mut self, from: u64, tariff: Arc<Tariff>) -> Result<(), NoMemory>
        requires { (arc_value tariff).meaning.modes ≡ self.old.meaning.modes }
        ensures { IfOk result (λ _. self.new ≡ with_next self.old from (arc_value tariff).meaning) }
    {
        let priced = self.priced || !tariff.prices().is_empty();
        self.later.push(DatedTariff { from, tariff })?;
        self.priced = priced;
        if priced {
            self.until = 0;
        }
        if self.until > 0 {
            self.until = self.later[0].from;
        }
        Ok(())
    }
}

fn started(later: &[DatedTariff], moment: u64) -> usize
    ensures count { result ≡ started moment (map dated_meaning later.now) }
    ensures bound { result ≤ length later.now }
{
    let mut count = 0;
    for dated in later {
        if moment < dated.from {
            return count;
        }
        count += 1;
    }
    count
}

fn last_from(later: &[DatedTariff]) -> u64
    ensures { result ≡ spec.last_from 0 (map dated_meaning later.now) }
{
    let mut last = 0;
    for dated in later {
        last = dated.from;
    }
    last
}

fn same_zone(text: Option<&str>, other: Option<&str>) -> bool
    ensures { result ≡ same_zone (option_map (λ t. t.now) text.entry)
        (option_map (λ t. t.now) other.entry) }
{
    match (text, other) {
        (Some(text), Some(other)) => text == other,
        (None, None) => true,
        _ => false,
    }
}

fn same_names(names: &[String], others: &[String]) -> bool
    ensures { result ≡ same_names (map string_bytes names.now) (map string_bytes others.now) }
{
    names == others
}
