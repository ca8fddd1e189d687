// Arrays, element by element.
ghost use Rattle.std.specs.Prelude.{◌≡◌};
ghost use Rattle.toml.specs.View.{view, items_view};
ghost use Rattle.market_tables.specs.Given.{Gives};
ghost use Rattle.market_tables.specs.Arrays.{each};

use crate::TableFault;
use item_lists::Items;
use std::alloc::Global;
use toml::Value;

/// Reads the elements of an array, or looks for one kind of fault in each.
pub trait Element {
    ghost use Rattle.std.specs.Prelude.{◌≡◌, Result};
    ghost use Rattle.toml.specs.Data.{Data};
    ghost use Rattle.toml.specs.View.{view};
    ghost use Rattle.market_tables.specs.declared.fault.MarketKind.{MarketKind};
    ghost use Rattle.market_tables.specs.Given.{Gives};

    /// The result of an element.
    type Made: Drop;

    /// The result of an element, or its fault.
    ghost made: { Self → Data → Result Self.Made MarketKind };

    /// Reads an element.
    ///
    /// # Errors
    ///
    /// Its fault, or `NoMemory`.
    fn element(&self, value: &Value) -> Result<Self::Made, TableFault>
        ensures { Gives (λ made. made) result (made self.now (view value.now)) };
}

/// Returns the results of the elements of an array, in order.
///
/// # Errors
///
/// The first fault, or `NoMemory`.
pub fn each<E: Element>(
    alloc: Global,
    reader: &E,
    items: &[Value],
) -> Result<Items<E::Made>, TableFault>
    ensures { Gives (λ list. list) result (each (E.made reader.now) (items_view items.now)) }
{
    let mut made = Items::new(alloc);
    for item in items {
        made.push(reader.element(item)?)?;
    }
    Ok(made)
}
