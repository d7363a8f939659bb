//! What the rides of a window cost, one after the other.

ghost use Rattle.tariffs.specs.Terms.{AreBoundedTerms};

use crate::names::mode_name;
use account_rule::cents_at;
use fare_table::{ANY_RIDE_TRANSFERS, Class, FareTable, Terms};
use std::alloc::AllocError;
use toml::Table;

const MINUTE_MS: u32 = 60_000;

fn fare_on(fares: &FareTable, class: &Class, name: &str) -> u32 {
    for (position, cents) in class.fares.iter().enumerate() {
        if mode_name(fares, position) == name {
            return *cents;
        }
    }
    0
}

/// Appends a line for each mode of which the class names a fare.
pub(crate) fn push_fares(
    text: &mut String,
    name: &str,
    fares: &FareTable,
    class: &Class,
    named: &Table,
) -> Result<(), AllocError> {
    for (mode, _cents) in named {
        let mode = mode.as_str();
        let cents = fare_on(fares, class, mode);
        write!(text, "fare {name} {mode} cents {cents}\n")?;
    }
    Ok(())
}

/// Appends a line of how many transfers a ride of the class gives, and for how many minutes, if the
/// keys of the class say it.
pub(crate) fn push_ride_transfers(
    text: &mut String,
    name: &str,
    class: &Class,
    keys: &Table,
) -> Result<(), AllocError> {
    if !keys.contains_key("transfers") && !keys.contains_key("transfer_minutes") {
        return Ok(());
    }
    let taps = class.transfers.taps;
    let minutes = class.transfers.time / MINUTE_MS;
    if taps == ANY_RIDE_TRANSFERS {
        return write!(text, "gives {name} transfers any minutes {minutes}\n");
    }
    write!(text, "gives {name} transfers {taps} minutes {minutes}\n")
}

/// Appends a line for each ride of a window, up to the first one past the limit, that costs other
/// cents than the ride before it.
pub(crate) fn push_prices(text: &mut String, name: &str, terms: Terms) -> Result<(), AllocError>
    requires { AreBoundedTerms terms }
{
    let mut last = None;
    for position in 0..terms.rides + 1 {
        let cents = cents_at(terms, position);
        if last != Some(cents) {
            let ride = position + 1;
            write!(text, "price {name} from {ride} cents {cents}\n")?;
        }
        last = Some(cents);
    }
    Ok(())
}
