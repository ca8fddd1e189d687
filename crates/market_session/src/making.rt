// A market's objects, made in a new session.
ghost use Rattle.std.specs.Prelude.{◌≡◌, ◌<◌, false, length, None, Some, IfOk, OnOk};
ghost use Rattle.desk_terms.specs.Reading.{Calc, AreInRange};
ghost use Rattle.desk_model.specs.Links.{AreOfKind};
ghost use Rattle.desk_model.specs.Sound.{IsSound};
ghost use Rattle.session_model.specs.Standing.{start_with, object_named, is_full};
ghost use Rattle.session_core.specs.Steps.{with_object};
ghost use Rattle.market_file.specs.Standing.{IsReady};

use day_number::Day;
use desk_names::{NameId, Names};
use desk_terms::Terms;
use market_file::MadeList;
use session_commands::Actions;
use session_core::{MakeFault, Session};
use std::alloc::{AllocError, Global};

/// A session that has these names, this evaluation date, these actions and the market's objects. Each object has the
/// number of its name, as `today`, the first name, has 0. No price is computed. It fails for want of memory alone.
pub fn session_of(
    alloc: Global,
    names: Names,
    today: Day,
    made: MadeList,
    actions: Actions,
) -> Result<Session, AllocError>
    requires ready { IsReady names made.items }
    ensures start { IfOk result (λ session. session ≡ start_with today names made.items actions) }
    ensures sound { IfOk result (λ session. (calc : Calc) → IsSound calc session.state) }
{
    let mut session = Session::new(alloc, names, today, actions)?;
    for (name, terms) in made {
        make_next(&mut session, name, terms)?;
    }
    Ok(session)
}

// Makes an object whose name is free, where there is room.
fn make_next(session: &mut Session, name: NameId, terms: Terms) -> Result<(), AllocError>
    requires running { session.old.stopped ≡ false }
    requires named { name < length session.old.names }
    requires free { object_named session.old name ≡ None }
    requires room { is_full session.old.state.market ≡ false }
    requires ranged { AreInRange terms }
    requires inputs { AreOfKind session.old.state.market (Some terms) }
    ensures made { OnOk result (session.new ≡ with_object name terms session.old) }
    ensures sound { (calc : Calc) → IsSound calc session.old.state → IsSound calc session.new.state }
{
    match session.make(name, terms) {
        Ok(_) => Ok(()),
        Err(MakeFault::NoMemory) => Err(AllocError),
        // The name is free, and there is room.
        Err(MakeFault::Refused(_)) => unreachable!(),
    }
}
