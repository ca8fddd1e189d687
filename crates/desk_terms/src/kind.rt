// What an object is, and what it may be named for.
ghost use Rattle.std.specs.Prelude.{◌≡◌};
ghost use Rattle.desk_terms.specs.Kind.{serves};

/// What an object of a session is. Every question 'is it a ..' is asked of its kind.
#[derive(Clone, Copy, PartialEq, Eq)]
pub enum Kind {
    /// The evaluation date (QuantLib's `Settings::evaluationDate`).
    Today,
    Quote,
    /// A sum or a difference.
    Derived,
    QuoteHandle,
    CurveHandle,
    Index,
    Engine,
    Curve,
    Implied,
    Stock,
    Composite,
    /// A bond, a swap or a forward rate agreement.
    Flows,
    Watcher,
}

/// What terms want of an object that they name.
#[derive(Clone, Copy, PartialEq, Eq)]
pub enum Wanted {
    /// A rate: a quote, a sum or difference, or a handle of these.
    QuoteInput,
    /// A curve: a curve, an implied curve, or a handle of these.
    CurveInput,
    /// What a handle of quotes may be linked to.
    QuoteTarget,
    /// What a handle of curves may be linked to.
    CurveTarget,
    /// An instrument.
    Member,
    Engine,
    Index,
}

impl Kind {
    /// Whether an object of this kind is what is wanted.
    pub fn serves(self, wanted: Wanted) -> bool
        ensures { result ≡ serves self wanted }
    {
        match wanted {
            Wanted::QuoteInput => matches!(self, Kind::Quote | Kind::Derived | Kind::QuoteHandle),
            Wanted::CurveInput => matches!(self, Kind::Curve | Kind::Implied | Kind::CurveHandle),
            Wanted::QuoteTarget => matches!(self, Kind::Quote | Kind::Derived),
            Wanted::CurveTarget => matches!(self, Kind::Curve | Kind::Implied),
            Wanted::Member => matches!(self, Kind::Stock | Kind::Composite | Kind::Flows),
            Wanted::Engine => matches!(self, Kind::Engine),
            Wanted::Index => matches!(self, Kind::Index),
        }
    }
}
