// The terms of an object: what makes it that object, and what may be changed of it.
ghost use Rattle.std.specs.Prelude.{◌≡◌};
ghost use Rattle.desk_terms.specs.Terms.{kind_of};

use crate::Kind;
use curve_terms::CurveTerms;
use day_number::Day;
use desk_names::ObjId;
use fixed_amount::Rate;
use flow_terms::{Fixings, FlowTerms, IndexTerms};
use item_lists::Items;

/// A member of a composite, with its weight.
#[derive(Clone, Copy)]
pub struct Part {
    pub weight: i64,
    pub member: ObjId,
}

/// The parts of a composite, in order.
pub type PartList = Items<Part>;

/// What a handle stands for.
#[derive(Clone, Copy, PartialEq, Eq)]
pub enum HandleKind {
    Quote,
    Curve,
}

/// The terms of an object of a session.
pub enum Terms {
    /// A quote with its value, or with none (QuantLib's `SimpleQuote`).
    Quote(Option<Rate>),
    /// The sum or, with `minus`, the difference of two quotes (QuantLib's `CompositeQuote`).
    Derived {
        minus: bool,
        first: ObjId,
        second: ObjId,
    },
    /// A handle with its target (QuantLib's `RelinkableHandle`).
    Handle {
        target_kind: HandleKind,
        target: Option<ObjId>,
    },
    /// A curve that is built from the rates of its helpers (QuantLib's `PiecewiseYieldCurve`).
    Curve(CurveTerms),
    /// A curve seen from a later day (QuantLib's `ImpliedTermStructure`).
    Implied {
        curve: ObjId,
        reference: Day,
    },
    /// An index with its stored rates (QuantLib's `IborIndex`).
    Index(IndexTerms, Fixings),
    /// A pricing engine over a discount curve (QuantLib's `DiscountingSwapEngine`).
    Engine {
        curve: ObjId,
    },
    /// A stock, whose price is that of a quote (QuantLib's `Stock`).
    Stock {
        quote: ObjId,
    },
    /// A weighted sum of instruments (QuantLib's `CompositeInstrument`).
    Composite(PartList),
    /// A bond, swap or forward rate agreement: its flows, and its engine if it has one (QuantLib's `Instrument`).
    Flows(FlowTerms, Option<ObjId>),
}

// Who lets terms go calls this at each exit, and does not let their parts go one by one.
impl Drop for Terms {
    fn drop(self) {
        match self {
            Terms::Quote(_) => {}
            Terms::Derived {
                minus: _,
                first: _,
                second: _,
            } => {}
            Terms::Handle {
                target_kind: _,
                target: _,
            } => {}
            Terms::Curve(_) => {}
            Terms::Implied {
                curve: _,
                reference: _,
            } => {}
            Terms::Index(_, _) => {}
            Terms::Engine { curve: _ } => {}
            Terms::Stock { quote: _ } => {}
            Terms::Composite(_) => {}
            Terms::Flows(_, _) => {}
        }
    }
}

impl Terms {
    /// What an object with these terms is.
    pub fn kind(&self) -> Kind
        ensures { result ≡ kind_of self.now }
    {
        match self {
            Terms::Quote(_) => Kind::Quote,
            Terms::Derived { .. } => Kind::Derived,
            Terms::Handle {
                target_kind: HandleKind::Quote,
                ..
            } => Kind::QuoteHandle,
            Terms::Handle {
                target_kind: HandleKind::Curve,
                ..
            } => Kind::CurveHandle,
            Terms::Curve(_) => Kind::Curve,
            Terms::Implied { .. } => Kind::Implied,
            Terms::Index(..) => Kind::Index,
            Terms::Engine { .. } => Kind::Engine,
            Terms::Stock { .. } => Kind::Stock,
            Terms::Composite(_) => Kind::Composite,
            Terms::Flows(..) => Kind::Flows,
        }
    }
}
