// A market's objects, made on a new desk.
ghost use Rattle.std.specs.Prelude.{◌≡◌, ◌<◌, ◌∷◌, [], length, IfOk};
ghost use Rattle.desk_terms.specs.Reading.{Calc};
ghost use Rattle.desk_terms.specs.declared.kind.Kind.TheVariants.{Today};
ghost use Rattle.desk_model.specs.Sound.{IsSound};
ghost use Rattle.desk_model.specs.Unheld.{HoldsNothing};
ghost use Rattle.market_file.specs.Standing.{AreInOrder};
ghost use Rattle.market_desk.specs.Making.{desk_with, names_with};

use crate::naming::names_of;
use day_number::Day;
use desk_names::NameList;
use lazy_objects::Desk;
use market_file::MadeList;
use std::alloc::{AllocError, Global};

/// A desk that has this evaluation date and the market's objects. No price is computed, and nothing is frozen or
/// deferred. It fails for want of memory alone.
pub fn desk_of(alloc: Global, today: Day, made: MadeList) -> Result<Desk, AllocError>
    requires order { AreInOrder (Today ∷ []) made.items }
    requires room { length made.items < 4096 }
    ensures desk { IfOk result (λ desk. desk ≡ desk_with today made.items) }
    ensures sound { IfOk result (λ desk. (calc : Calc) → IsSound calc desk) }
    ensures unheld { IfOk result HoldsNothing }
{
    let mut desk = Desk::new(alloc, today)?;
    for (_, terms) in made {
        desk.add(terms)?;
    }
    Ok(desk)
}

/// A desk of a market's objects, and the names that these have, by their numbers.
#[derive(Drop)]
pub struct NamedDesk {
    pub desk: Desk,
    pub of_object: NameList,
}

/// The desk of a market with the names of its objects. It fails for want of memory alone.
pub fn named_desk(alloc: Global, today: Day, made: MadeList) -> Result<NamedDesk, AllocError>
    requires order { AreInOrder (Today ∷ []) made.items }
    requires room { length made.items < 4096 }
    ensures desk { IfOk result (λ named. named.desk ≡ desk_with today made.items) }
    ensures names { IfOk result (λ named. named.of_object ≡ names_with made.items) }
    ensures sound { IfOk result (λ named. (calc : Calc) → IsSound calc named.desk) }
    ensures unheld { IfOk result (λ named. HoldsNothing named.desk) }
{
    let of_object = names_of(alloc, &made)?;
    let desk = desk_of(alloc, today, made)?;
    Ok(NamedDesk { desk, of_object })
}
