//! A tariff: what one text of a fare table says, and its look-ups.
ghost use Rattle.std.specs.Prelude.{◌≡◌, ◌<◌, ◌≤◌, length, option_map, IfSome, Some, map, All};
ghost use Rattle.std.specs.Prelude.{slice_get, string_bytes};
ghost use Rattle.tariffs.specs.Fares.{cap_ceiling, class_of, is_permitted, mode_in, price_of};
ghost use Rattle.tariffs.specs.Fares.{ride_terms, terms_at, transfer_terms};
ghost use Rattle.tariffs.specs.Prices.{IsBoundedPays, IsBoundedPrice, price_in};
ghost use Rattle.tariffs.specs.{Riders.by_bytes, TariffParts.AreSound, TariffParts.view_of};
ghost use Rattle.tariffs.specs.Terms.{AreBoundedTerms, IsBoundedClass};
ghost use Rattle.tariffs.specs.WindowSpan.{IsBoundedLength, IsBoundedSpan};
ghost use Rattle.tariffs.specs.Zone.{zone_rule, zone_text};
ghost use Rattle.tariffs.specs.inside.PosixRule.{HasRule, rule_of};

use crate::cap_terms::{CapTerms, NO_CEILING};
use crate::class::Class;
use crate::clock::Clock;
use crate::mode::Mode;
use crate::price::{Pays, Price};
use crate::riders::Riders;
use crate::terms::Terms;
use crate::transfer_terms::TransferTerms;
use crate::transfers::Transfers;
use crate::validators::{RangeRest, Ranges};
use crate::window_span::WindowSpan;
use crate::zone::Zone;
use jiff::tz::TimeZone;
use std::collections::BTreeMap;
use std::marker::Model;
use tap_views::Token;

/// What one text of a fare table says: the fares valid at a moment. Look-ups take no memory.
#[derive(Drop)]
pub struct Tariff {
    parts: TariffParts,
}

impl Model for Tariff {
    ghost use Rattle.tariffs.specs.TariffView.{TariffView};

    ghost Value = { TariffView };

    ghost use Rattle.tariffs.specs.TariffParts.{view_of, AreSound};

    ghost view = { λ t. view_of t.parts };

    ghost invariant = { λ t. AreSound t.parts };
}

/// The parts of a tariff.
#[derive(Drop)]
pub struct TariffParts {
    /// The names of the modes by index.
    pub modes: Vec<String>,
    /// The permitted transfers.
    pub transfers: Transfers,
    /// The prices of transfers that are not free.
    pub prices: Vec<Price>,
    /// The classes by index.
    pub classes: Vec<Class>,
    /// The names of the classes by index.
    pub names: Vec<String>,
    /// The caps beside `window`, at most three.
    pub caps: Vec<CapTerms>,
    /// The names of the caps by index.
    pub cap_names: Vec<String>,
    /// The index of the default class.
    pub standard: u32,
    /// The ranges of validators and their modes.
    pub ranges: Ranges,
    /// The classes of single riders.
    pub riders: Riders,
    /// The zone, if the table names one.
    pub zone: Option<Zone>,
    /// How long windows are, and when a day starts.
    pub window: WindowSpan,
}

impl Tariff {
    /// The tariff of these parts.
    pub fn new(parts: TariffParts) -> Tariff
        requires { AreSound parts }
        ensures { result ≡ view_of parts }
    {
        Tariff { parts }
    }

    pub(crate) fn clock(&self) -> Clock
        ensures { result ≡ self.now.zone }
    {
        Clock::new(rule(&self.parts.zone))
    }

    /// The mode of a validator, or `None` if no range has it.
    #[inline(always)]
    pub fn mode_of(&self, validator: u32) -> Option<Mode>
        ensures mode { option_map (λ m. m.position) result ≡ mode_in self.now.meaning validator }
        ensures within { IfSome result (λ m. m.position < length self.now.meaning.modes) }
        ensures few { length self.now.meaning.modes ≤ 32 }
    {
        let rest = self.parts.ranges.at(validator)?;
        Some(Mode {
            position: rest.mode,
        })
    }

    /// Whether a ride of the first mode includes a transfer to the second. It reads one bit.
    pub fn permits(&self, from: Mode, to: Mode) -> bool
        requires from { from.position < length self.now.meaning.modes }
        requires to { to.position < length self.now.meaning.modes }
        ensures { result ≡ is_permitted self.now.meaning from.position to.position }
    {
        self.parts.transfers.permits(from.position, to.position)
    }

    /// What a transfer from the first mode to the second pays, if it is not free.
    pub fn price_of(&self, from: Mode, to: Mode) -> Option<Pays>
        ensures price { result ≡ price_of self.now.meaning from.position to.position }
        ensures bounds { IfSome result IsBoundedPays }
    {
        price_in(&self.parts.prices, from.position, to.position)
    }

    /// The mode's name.
    pub fn mode_name(&self, mode: Mode) -> &str
        requires { mode.position < length self.now.meaning.modes }
        ensures { slice_get self.now.meaning.modes mode.position ≡ Some result.now }
    {
        self.parts.modes[mode.position as usize].as_str()
    }

    /// The index of the token's own class, else of the default one, for the look-ups below.
    pub fn class_of(&self, token: &[u8]) -> u32
        requires { length token.now ≡ 16 }
        ensures class { result ≡ class_of self.now.meaning token.now }
        ensures there { result < length self.now.meaning.classes }
    {
        match self.parts.riders.class_of(token) {
            Some(class) => class,
            None => self.parts.standard,
        }
    }

    /// What the class at the index pays for a ride on the mode, in cents.
    pub fn ride_terms(&self, class: u32, mode: Mode) -> Terms
        requires class { class < length self.now.meaning.classes }
        requires mode { mode.position < length self.now.meaning.modes }
        ensures terms { result ≡ ride_terms self.now.meaning class mode.position }
        ensures bounds { AreBoundedTerms result }
    {
        let class = &self.parts.classes[class as usize];
        Terms {
            fare: class.fares[mode.position as usize],
            rides: class.terms.rides,
            ceiling: class.terms.ceiling,
        }
    }

    /// The ceiling of the class for the cap at the index, in cents.
    pub fn cap_ceiling(&self, class: u32, cap: usize) -> u32
        requires { class < length self.now.meaning.classes }
        ensures ceiling { result ≡ cap_ceiling self.now.meaning class cap }
        ensures high { result ≤ 100_000_000 }
    {
        match self.parts.classes[class as usize].caps.get(cap) {
            Some(ceiling) => *ceiling,
            None => NO_CEILING,
        }
    }

    /// What the rides of the class at the index give: a number of taps, and a time.
    pub fn transfer_terms(&self, class: u32) -> TransferTerms
        requires { class < length self.now.meaning.classes }
        ensures terms { result ≡ transfer_terms self.now.meaning class }
        ensures taps { result.taps ≤ 255 }
        ensures time { result.time ≤ 86_400_000 }
    {
        self.parts.classes[class as usize].transfers
    }

    /// The names of the modes by index.
    pub fn mode_names(&self) -> &[String]
        ensures names { map string_bytes result.now ≡ self.now.meaning.modes }
        ensures few { length result.now ≤ 32 }
    {
        self.parts.modes.as_slice()
    }

    /// The classes by index.
    pub fn classes(&self) -> &[Class]
        ensures classes { result.now ≡ self.now.meaning.classes }
        ensures bounds { All IsBoundedClass result.now }
    {
        self.parts.classes.as_slice()
    }

    /// The names of the classes by index, in their byte order.
    pub fn class_names(&self) -> &[String]
        ensures names { map string_bytes result.now ≡ self.now.meaning.names }
        ensures each { length result.now ≡ length self.now.meaning.classes }
    {
        self.parts.names.as_slice()
    }

    /// The index of the class of all riders that have none of their own.
    pub fn default_class(&self) -> u32
        ensures class { result ≡ self.now.meaning.standard }
        ensures there { result < length self.now.meaning.classes }
    {
        self.parts.standard
    }

    /// The caps beside `window` by index.
    pub fn caps(&self) -> &[CapTerms]
        ensures caps { result.now ≡ self.now.meaning.caps }
        ensures few { length result.now ≤ 3 }
        ensures bounds { All (λ cap. IsBoundedLength cap.length) result.now }
    {
        self.parts.caps.as_slice()
    }

    /// The names of the caps by index, in their byte order.
    pub fn cap_names(&self) -> &[String]
        ensures names { map string_bytes result.now ≡ self.now.meaning.cap_names }
        ensures each { length result.now ≡ length self.now.meaning.caps }
    {
        self.parts.cap_names.as_slice()
    }

    /// The pairs of indices of modes with a transfer, each once, in the order of the text.
    pub fn pairs(&self) -> &[(u8, u8)]
        ensures { result.now ≡ self.now.meaning.transfers }
    {
        self.parts.transfers.all()
    }

    /// The prices of transfers that are not free, in the order of the text.
    pub fn prices(&self) -> &[Price]
        ensures prices { result.now ≡ self.now.meaning.prices }
        ensures bounds { All IsBoundedPrice result.now }
    {
        self.parts.prices.as_slice()
    }

    /// The ranges of validators, each by its first number, strictly increasing.
    pub fn ranges(&self) -> &[(u32, RangeRest)]
        ensures { result.now ≡ self.now.meaning.ranges }
    {
        self.parts.ranges.all()
    }

    /// The indices of the classes of riders that have their own, by their tokens, increasing.
    pub fn riders(&self) -> &BTreeMap<Token, u32>
        ensures { by_bytes result.now.entries ≡ self.now.meaning.riders }
    {
        self.parts.riders.all()
    }

    /// The text of the zone, if the table names one.
    pub fn zone_text(&self) -> Option<&str>
        ensures { option_map (λ text. text.now) result ≡ self.now.meaning.zone }
    {
        text_of(&self.parts.zone)
    }

    /// How long windows are, and when a day starts.
    pub fn window_span(&self) -> WindowSpan
        ensures window { result ≡ self.now.meaning.window }
        ensures bounds { IsBoundedSpan result }
    {
        self.parts.window
    }

    /// What a token's rider pays, in cents, on a mode without its own fare.
    pub fn terms_of(&self, token: &[u8]) -> Terms
        requires { length token.now ≡ 16 }
        ensures terms { result ≡ terms_at self.now.meaning token.now }
        ensures bounds { AreBoundedTerms result }
    {
        self.parts.classes[self.class_of(token) as usize].terms
    }
}

fn price_in(prices: &[Price], from: u8, to: u8) -> Option<Pays>
    requires { All IsBoundedPrice prices.now }
    ensures price { result ≡ price_in prices.now from to }
    ensures bounds { IfSome result IsBoundedPays }
{
    for price in prices {
        if price.from == from && price.to == to {
            return Some(price.pays);
        }
    }
    None
}

fn text_of(zone: &Option<Zone>) -> Option<&str>
    ensures { option_map (λ text. text.now) result ≡ zone_text zone.now }
{
    match zone {
        Some(zone) => Some(zone.text.as_str()),
        None => None,
    }
}

fn rule(zone: &Option<Zone>) -> Option<TimeZone<'static>>
    ensures rule { rule_of result ≡ zone_rule zone.now }
    ensures has_rule { HasRule result }
{
    match zone {
        Some(zone) => Some(zone.rule),
        None => None,
    }
}
