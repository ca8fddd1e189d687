// What an ask would find.
ghost use Rattle.std.specs.Prelude.{◌≡◌};
ghost use Rattle.desk_terms.specs.Kind.{role};
ghost use Rattle.session_graph.specs.Node.{found_in, finding_of};

use desk_terms::{Asked, Kind};
use graph_dot::Finding;

// What an ask of an object of a kind would find, where this is what it answers without a computation.
pub(crate) fn finding_of(kind: Kind, held: Option<Asked>) -> Finding
    ensures { result ≡ finding_of (role kind) held }
{
    match kind {
        Kind::Today
        | Kind::Quote
        | Kind::Derived
        | Kind::QuoteHandle
        | Kind::CurveHandle
        | Kind::Index
        | Kind::Engine
        | Kind::Watcher => Finding::Unasked,
        Kind::Curve | Kind::Implied | Kind::Stock | Kind::Composite | Kind::Flows => found_in(held),
    }
}

// What an ask of a priced object would find.
fn found_in(held: Option<Asked>) -> Finding
    ensures { result ≡ found_in held }
{
    match held {
        None => Finding::NotCurrent,
        Some(
            Asked {
                cause: None,
                mark,
                ..
            },
        ) => Finding::Kept(mark),
        Some(
            Asked {
                cause: Some(_),
                mark,
                ..
            },
        ) => Finding::Missing(mark),
    }
}
