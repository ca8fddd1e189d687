// What a command takes in the place of a name.
ghost use Rattle.std.specs.Prelude.{◌≡◌};
ghost use Rattle.session_model.specs.Place.{takes};

use desk_terms::{Kind, Wanted};

/// The objects that a command takes in the place of a name.
#[derive(Clone, Copy)]
pub enum Place {
    /// What terms may name for this.
    Input(Wanted),
    /// A quote.
    Quote,
    /// A composite.
    Composite,
    /// A handle, of quotes or of curves.
    Handle,
    /// A bond, a swap or a forward rate agreement.
    Flows,
    /// A lazy object: one that is priced, and keeps its value.
    Priced,
    /// Any object but `today`.
    Droppable,
    /// A watcher.
    Watcher,
    /// What a watcher may be registered with: any object but a watcher.
    Observable,
}

impl Place {
    /// Whether an object of this kind is taken.
    pub fn takes(self, kind: Kind) -> bool
        ensures { result ≡ takes self kind }
    {
        match self {
            Place::Input(wanted) => kind.serves(wanted),
            Place::Quote => matches!(kind, Kind::Quote),
            Place::Composite => matches!(kind, Kind::Composite),
            Place::Handle => matches!(kind, Kind::QuoteHandle | Kind::CurveHandle),
            Place::Flows => matches!(kind, Kind::Flows),
            Place::Priced => matches!(
                kind,
                Kind::Curve | Kind::Implied | Kind::Stock | Kind::Composite | Kind::Flows
            ),
            Place::Droppable => !matches!(kind, Kind::Today),
            Place::Watcher => matches!(kind, Kind::Watcher),
            Place::Observable => !matches!(kind, Kind::Watcher),
        }
    }
}
