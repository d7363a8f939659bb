//! The names of the classes by index.
ghost use Rattle.fare_table.specs.{Classes.count_of, Members.names_in};
ghost use Rattle.fare_table.specs.declared.fault.TableFault.{TableFault};
ghost use Rattle.fare_table.specs.inside.{ByteOrder.in_byte_order, OrFault.Answers};
ghost use Rattle.std.specs.Prelude.{◌≡◌, ◌<◌, true, IfErr, IfOk, map, string_bytes, vec_len};
ghost use Rattle.toml.specs.View.{table_view};
ghost use Rattle.fare_table.specs.Classes as spec;

use super::classes::class_named;
use crate::fault::TableFault;
use std::alloc::Global;
use toml::Table;

/// The names of the classes by index, in which a name is found by binary search.
#[derive(Drop)]
pub(crate) struct ClassNames<'t> {
    pub classes: &'t Table,
    pub names: Vec<&'t str>,
    pub ghost listed: { map (λ name. name.now) names.items ≡ names_in (table_view classes.now) },
    pub ghost increasing: { in_byte_order (table_view classes.now) ≡ true },
}

impl<'t> ClassNames<'t> {
    pub(crate) fn new(alloc: Global, classes: &'t Table) -> Result<ClassNames<'t>, TableFault>
        ensures same { IfOk result (λ c. table_view c.classes.now ≡ table_view classes.now) }
        ensures refused { IfErr result (λ e. e ≡ TableFault.NoMemory) }
    {
        let mut names = Vec::with_capacity(alloc, classes.len())?;
        for (name, _value) in classes {
            names.push(name.as_str())?;
        }
        Ok(ClassNames { classes, names })
    }

    /// An index that `u32` does not hold counts as an allocation failure: no memory holds so many.
    pub(crate) fn position_of(&self, name: &str) -> Result<u32, TableFault>
        ensures position { Answers (λ position. position) result
            (spec.class_named (table_view self.now.classes.now) name.now) }
        ensures there { IfOk result
            (λ position. position < count_of (table_view self.now.classes.now)) }
    {
        match self.names.as_slice().binary_search(&name) {
            Ok(position) => short_position(position),
            // proof: no class has the name. A linear search, so that no proof need say that a
            // binary search finds each name.
            Err(_) => class_named(self.classes, name),
        }
    }
}

fn short_position(position: usize) -> Result<u32, TableFault>
    ensures same { IfOk result (λ short. short ≡ position) }
    ensures refused { IfErr result (λ e. e ≡ TableFault.NoMemory) }
{
    if position > u32::MAX as usize {
        return Err(TableFault::NoMemory);
    }
    Ok(position as u32)
}

pub(crate) fn names_of(alloc: Global, classes: &Table) -> Result<Vec<String>, TableFault>
    ensures names { IfOk result
        (λ names. map string_bytes names.items ≡ names_in (table_view classes.now)) }
    ensures count { IfOk result (λ names. vec_len names ≡ count_of (table_view classes.now)) }
    ensures refused { IfErr result (λ e. e ≡ TableFault.NoMemory) }
{
    let mut names = Vec::with_capacity(alloc, classes.len())?;
    for (name, _value) in classes {
        names.push(String::from_str(alloc, name.as_str())?)?;
    }
    Ok(names)
}
