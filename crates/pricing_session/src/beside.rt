// The data that a session with its bench keeps beside the session.
ghost use Rattle.std.specs.Prelude.{◌≡◌, length};

use desk_names::{NameFault, NameId};
use live_session::Lines;
use session_rounds::WatchedSession;
use watch_rounds::Picker;

/// Data beside a session, which knows the session's names and actions.
pub trait Beside<P: Picker> {
    ghost use Rattle.std.specs.Prelude.{◌≡◌, ◌↔◌, false, true, length, IfOk, OnOk, OnErr, IsOk, IsErrOf};
    ghost use Rattle.desk_names.specs.Name.{is_name, IsName};
    ghost use Rattle.desk_names.specs.Names.{has_text, place_of, most_names};
    ghost use Rattle.desk_terms.specs.Reading.{Calc};
    ghost use Rattle.desk_model.specs.Sound.{IsSound};
    ghost use Rattle.session_model.specs.Course.{Running};
    ghost use Rattle.session_model.specs.Grown.{interned_in};

    /// It fits this session: what it reports of names and actions is true.
    ghost stands: { Running P → Self → Type 0 };

    /// The new one reports the same as the old one.
    ghost keeps: { Self → Self → Type 0 };

    /// Returns how many actions the session has.
    fn actions(&self, session: &WatchedSession<P>) -> usize
        requires stands { stands session.now self.now }
        ensures { result ≡ length session.now.standing.actions };

    /// Returns the number of a name of the session. A new name is appended.
    ///
    /// # Errors
    ///
    /// Those of `WatchedSession::intern`.
    fn intern(&mut self, session: &mut WatchedSession<P>, text: &[u8]) -> Result<NameId, NameFault>
        requires stands { stands session.old self.old }
        ensures place { IfOk result (λ name. name ≡ place_of session.old.standing.names text.now) }
        ensures kept { OnOk result (session.new ≡ interned_in text.now session.old) }
        ensures beside { OnOk result (keeps self.old self.new) }
        ensures same { OnErr result ((session.new ≡ session.old) × (self.new ≡ self.old)) }
        ensures known { has_text session.old.standing.names text.now ≡ true → IsOk result }
        ensures form { IsErrOf result NameFault.Form ↔ (is_name text.now ≡ false) }
        ensures full { IsErrOf result NameFault.Full ↔ (IsName text.now
            × (length session.old.standing.names ≡ most_names) × (has_text session.old.standing.names text.now ≡ false)) }
        ensures sound { (calc : Calc) → IsSound calc session.old.standing.state → IsSound calc session.new.standing.state }
        ensures stands { stands session.new self.new };

    /// It fits each session with the same names and actions.
    ghost stays: { (r new : Running P) (beside : Self) → new.standing.names ≡ r.standing.names
        → new.standing.actions ≡ r.standing.actions → stands r beside → stands new beside };
}

/// How many actions a session has.
#[derive(Drop)]
pub struct ActionCount {
    pub(crate) actions: usize,
}

impl<P: Picker> Beside<P> for ActionCount {
    ghost use Rattle.std.specs.Prelude.{◌≡◌, length};
    ghost use Rattle.std.proofs.Common.{◌∙◌, sym, ap};

    ghost stands = { λ r count. count.actions ≡ length r.standing.actions };

    ghost keeps = { λ old new. new ≡ old };

    ghost stays = { λ _ _ _ _ actions stands. stands ∙ sym (ap length actions) };

    fn actions(&self, _: &WatchedSession<P>) -> usize {
        self.actions
    }

    fn intern(
        &mut self,
        session: &mut WatchedSession<P>,
        text: &[u8],
    ) -> Result<NameId, NameFault> {
        session.intern(text)
    }
}

impl<P: Picker> Beside<P> for Lines {
    ghost use Rattle.live_session.specs.Lines.{StandBy};
    ghost use Rattle.live_session.proofs.Beside.{stays_beside};
    ghost use Rattle.pricing_session.specs.Beside.{IsAsSaid};

    ghost stands = { StandBy P };

    ghost keeps = { IsAsSaid };

    ghost stays = { stays_beside P };

    fn actions(&self, session: &WatchedSession<P>) -> usize {
        Lines::actions(self, session)
    }

    fn intern(
        &mut self,
        session: &mut WatchedSession<P>,
        text: &[u8],
    ) -> Result<NameId, NameFault> {
        Lines::intern(self, session, text)
    }
}
