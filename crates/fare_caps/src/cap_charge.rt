//! What decides the cents of a ride, or of a transfer, under caps.

ghost use Rattle.std.specs.Prelude.{◌≡◌};
ghost use Rattle.fare_caps.specs.Charges as spec;
ghost use Rattle.fare_caps.specs.Charges.{cap_cents, cap_paid};

use account_rule::Charge;

/// What decides the cents of a ride, or of a transfer that raises the price of its trip, under caps.
/// `position` is the number of rides before a ride in its window of `window`, and 0 of a transfer.
/// `cap` is the index of the cap that decides, of two the first.
#[derive(Clone, Copy, Debug, PartialEq, Eq)]
pub enum CapCharge {
    /// The caps leave as much as `window` does: it decides.
    ByWindow { charge: Charge },
    /// The cap leaves less than the fare and than `window` does, `cents`, and that is charged.
    CapCut { position: u32, cents: u32, cap: u8 },
    /// The taps that the cap counted have cost its ceiling or more.
    CapReached { position: u32, cap: u8 },
}

impl CapCharge {
    /// What it costs, in cents.
    pub fn cents(self) -> u32
        ensures { result ≡ cap_cents self }
    {
        match self {
            CapCharge::ByWindow { charge } => charge.cents(),
            CapCharge::CapCut {
                position: _,
                cents,
                cap: _,
            } => cents,
            CapCharge::CapReached {
                position: _,
                cap: _,
            } => 0,
        }
    }

    /// What is paid for a ride, in cents, or `None` if a limit is reached.
    pub fn paid(self) -> Option<u32>
        ensures { result ≡ cap_paid self }
    {
        match self {
            CapCharge::ByWindow { charge } => charge.paid(),
            CapCharge::CapCut {
                position: _,
                cents,
                cap: _,
            } => Some(cents),
            CapCharge::CapReached {
                position: _,
                cap: _,
            } => None,
        }
    }
}

/// Whether the limit of rides frees the ride.
pub(crate) fn is_freed(charge: CapCharge) -> bool
    ensures { result ≡ spec.is_freed charge }
{
    match charge {
        CapCharge::ByWindow { charge } => is_freed_by(charge),
        CapCharge::CapCut {
            position: _,
            cents: _,
            cap: _,
        } => false,
        CapCharge::CapReached {
            position: _,
            cap: _,
        } => false,
    }
}

fn is_freed_by(charge: Charge) -> bool
    ensures { result ≡ spec.is_freed_by charge }
{
    match charge {
        Charge::Full {
            position: _,
            cents: _,
        } => false,
        Charge::CeilingCut {
            position: _,
            cents: _,
        } => false,
        Charge::CeilingReached { position: _ } => false,
        Charge::RideLimitReached => true,
    }
}

/// The least that caps leave, in cents, and the index of the cap that leaves it.
#[derive(Clone, Copy)]
pub(crate) struct CapLeft {
    pub(crate) cents: u32,
    pub(crate) cap: u8,
}

/// The lesser of what caps before leave and what the cap at the index leaves: of two the first.
pub(crate) fn lesser(least: Option<CapLeft>, index: u8, left: Option<u32>) -> Option<CapLeft>
    ensures { result ≡ spec.lesser least index left }
{
    let Some(cents) = left else {
        return least;
    };
    match least {
        Some(least) => {
            if cents < least.cents {
                Some(CapLeft { cents, cap: index })
            } else {
                Some(least)
            }
        }
        None => Some(CapLeft { cents, cap: index }),
    }
}

/// The charge by `window`, lowered to what the caps leave.
pub(crate) fn lowered(least: Option<CapLeft>, charge: Charge) -> CapCharge
    ensures { result ≡ spec.lowered least charge }
{
    match charge {
        Charge::Full { position, cents } => lowered_by(charge, position, cents, least),
        Charge::CeilingCut { position, cents } => lowered_by(charge, position, cents, least),
        Charge::CeilingReached { position: _ } => CapCharge::ByWindow { charge },
        Charge::RideLimitReached => CapCharge::ByWindow { charge },
    }
}

fn lowered_by(charge: Charge, position: u32, cents: u32, least: Option<CapLeft>) -> CapCharge
    ensures { result ≡ spec.lowered_by charge position cents least }
{
    let Some(least) = least else {
        return CapCharge::ByWindow { charge };
    };
    if least.cents == 0 {
        return CapCharge::CapReached {
            position,
            cap: least.cap,
        };
    }
    if least.cents < cents {
        return CapCharge::CapCut {
            position,
            cents: least.cents,
            cap: least.cap,
        };
    }
    CapCharge::ByWindow { charge }
}
