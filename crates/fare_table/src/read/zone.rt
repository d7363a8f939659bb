//! The key `zone`: a text, and the rule that it reads as.
ghost use Rattle.fare_table.specs.{Zone.IsZoneOf, inside.OrFault.Answers};
ghost use Rattle.jiff.specs.ZoneView.{plain_zone};
ghost use Rattle.std.specs.Prelude.{◌≡◌, IfOk, Some, string_bytes};
ghost use Rattle.tariffs.specs.{PosixRule.posix_rule, Zone.zone_rule, Zone.zone_text};
ghost use Rattle.toml.specs.View.{view, table_view};
ghost use Rattle.fare_table.specs.Zone as spec;

use super::members::{of_kind, optional};
use crate::fault::{Key, TableFault};
use jiff::tz::TimeZone;
use std::alloc::Global;
use tariffs::Zone;
use toml::{Table, Value};

#[tactic(auto, unfolding(crate::specs::Zone::zone_of))]
pub(crate) fn zone_of(alloc: Global, table: &Table) -> Result<Option<Zone>, TableFault>
    ensures answer { Answers zone_text result (spec.zone_of (table_view table.now)) }
    ensures rule { IfOk result (λ z. IsZoneOf (zone_text z) (zone_rule z)) }
{
    match optional(table, "zone") {
        Some(value) => Ok(Some(zone_in(alloc, value)?)),
        None => Ok(None),
    }
}

fn zone_in(alloc: Global, value: &Value) -> Result<Zone, TableFault>
    ensures answer { Answers (λ z. Some (string_bytes z.text)) result
        (spec.zone_in (Some (view value.now))) }
    ensures rule { IfOk result (λ z. IsZoneOf (Some (string_bytes z.text))
        (posix_rule (plain_zone z.rule))) }
{
    let text = of_kind(value.as_str(), Key::Zone)?;
    let Ok(rule) = TimeZone::posix(text) else {
        return Err(TableFault::Zone);
    };
    Ok(Zone {
        text: String::from_str(alloc, text)?,
        rule,
    })
}
