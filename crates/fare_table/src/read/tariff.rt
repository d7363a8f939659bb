//! All keys of a text, in their order.
ghost use Rattle.fare_table.specs.{Meaning.IsClockOf, TableMeaning.meaning_of_tree};
ghost use Rattle.fare_table.specs.inside.OrFault.{Answers};
ghost use Rattle.std.specs.Prelude.{IfOk};
ghost use Rattle.toml.specs.View.{table_view};

use super::caps::caps_of;
use super::class_names::names_of;
use super::classes::{classes_from, classes_of, default_of};
use super::modes::modes_of;
use super::riders::riders_of;
use super::transfers::transfers_of;
use super::validators::ranges_of;
use super::window::window_of;
use super::zone::zone_of;
use crate::fault::TableFault;
use std::alloc::Global;
use tariffs::{Tariff, TariffParts};
use toml::Table;

#[tactic(auto, unfolding(crate::specs::TableMeaning::meaning_of_tree))]
pub(crate) fn tariff_of(alloc: Global, table: &Table) -> Result<Tariff, TableFault>
    ensures answer { Answers (λ t. t.meaning) result (meaning_of_tree (table_view table.now)) }
    ensures zone { IfOk result (λ t. IsClockOf t.meaning t.zone) }
{
    let modes = modes_of(alloc, table)?;
    let listed = transfers_of(alloc, &modes, table)?;
    let capped = caps_of(alloc, &modes, table)?;
    let members = classes_of(table)?;
    let classes = classes_from(alloc, &modes, &capped.names, members)?;
    let names = names_of(alloc, members)?;
    let standard = default_of(members, table)?;
    let ranges = ranges_of(alloc, &modes, table)?;
    let riders = riders_of(alloc, members, table)?;
    let zone = zone_of(alloc, table)?;
    let window = window_of(table)?;
    let parts = TariffParts {
        modes,
        transfers: listed.transfers,
        prices: listed.prices,
        classes,
        names,
        caps: capped.caps,
        cap_names: capped.names,
        standard,
        ranges,
        riders,
        zone,
        window,
    };
    Ok(Tariff::new(parts))
}
