// An ask of an object of a session, which changes nothing that an object shows.
ghost use Rattle.std.specs.Prelude.{◌≡◌, true, IfOk};
ghost use Rattle.desk_model.specs.Links.{IsWhole, is_lazy_at};
ghost use Rattle.desk_model.specs.Sound.{IsSound};
ghost use Rattle.bump_model.specs.Asking.{ask_of, Asks};
ghost use Rattle.session_why.specs.Computed.{IsAsked};

use desk_names::ObjId;
use desk_terms::{Asked, Bench};
use session_rounds::WatchedSession;
use std::alloc::AllocError;
use watch_rounds::Picker;

// Asks a priced object.
pub(crate) fn ask<P: Picker, B: Bench>(
    session: &mut WatchedSession<P>,
    object: ObjId,
    bench: &mut B,
) -> Result<Asked, AllocError>
    requires lazy { is_lazy_at session.old.standing.state.market object ≡ true }
    requires sound { IsSound (B.calc bench.old) session.old.standing.state }
    ensures answer { IfOk result (IsAsked (B.calc bench.old) object session.old.standing session.new.standing) }
    ensures asks { Asks (ask_of (B.calc bench.old) object session.old.standing.state) result session.new.standing.state
        (B.count bench.old) (B.count bench.new) (B.log bench.old) (B.log bench.new) }
    ensures stays { session.new ≡ record session.old { standing = record session.old.standing { state = session.new.standing.state } } }
    ensures market { session.new.standing.state.market ≡ session.old.standing.state.market }
    ensures sound { IsSound (B.calc bench.old) session.new.standing.state }
    ensures same { B.calc bench.new ≡ B.calc bench.old }
    ensures before { IsWhole session.old.standing.state }
    ensures after { IsWhole session.new.standing.state }
{
    session.shape();
    let asked = session.ask(object, bench);
    session.shape();
    asked
}
