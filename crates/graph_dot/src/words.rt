// The words and signs of a node.
ghost use Rattle.std.specs.Prelude.{◌≡◌};
ghost use Rattle.graph_dot.specs.Dot.{kind_word, node_word, shape_of, colour_of};

use crate::node::{Finding, FlowKind};
use desk_terms::{Kind, Mark};

// The word of an object of a kind, and of what it is among the instruments of flows.
pub(crate) fn node_word(kind: Kind, flows: Option<FlowKind>) -> &'static [u8]
    ensures { result.now ≡ node_word kind flows }
{
    match flows {
        None => kind_word(kind),
        Some(FlowKind::Bond) => b"bond",
        Some(FlowKind::Swap) => b"swap",
        Some(FlowKind::Agreement) => b"forward rate agreement",
    }
}

// The word of a kind.
fn kind_word(kind: Kind) -> &'static [u8]
    ensures { result.now ≡ kind_word kind }
{
    match kind {
        Kind::Today => b"evaluation date",
        Kind::Quote => b"quote",
        Kind::Derived => b"derived quote",
        Kind::QuoteHandle => b"quote handle",
        Kind::CurveHandle => b"curve handle",
        Kind::Index => b"index",
        Kind::Engine => b"engine",
        Kind::Curve => b"curve",
        Kind::Implied => b"implied curve",
        Kind::Stock => b"stock",
        Kind::Composite => b"composite",
        Kind::Flows => b"cash flows",
        Kind::Watcher => b"watcher",
    }
}

// The shape of a kind, by how it takes a notice.
pub(crate) fn shape_of(kind: Kind) -> &'static [u8]
    ensures { result.now ≡ shape_of kind }
{
    match kind {
        Kind::Today | Kind::Quote => b"ellipse",
        Kind::Derived | Kind::QuoteHandle | Kind::CurveHandle | Kind::Index | Kind::Engine =>
            b"hexagon",
        Kind::Curve | Kind::Implied | Kind::Stock | Kind::Composite | Kind::Flows => b"box",
        Kind::Watcher => b"octagon, style=\"filled,dotted\"",
    }
}

// The colour of what an ask would find.
pub(crate) fn colour_of(finding: Finding) -> &'static [u8]
    ensures { result.now ≡ colour_of finding }
{
    match finding {
        Finding::Unasked => b"",
        Finding::NotCurrent => b", fillcolor=\"#d9d9d9\"",
        Finding::Kept(Mark::Fresh) => b", fillcolor=\"#b7e1a1\"",
        Finding::Kept(Mark::Frozen) => b", fillcolor=\"#a9cdf2\"",
        Finding::Kept(Mark::Late) => b", fillcolor=\"#ffc680\"",
        Finding::Kept(Mark::Held) => b", fillcolor=\"#fff2a8\"",
        Finding::Kept(Mark::Recalc) => b", fillcolor=\"#b7e1a1\"",
        Finding::Missing(_) => b", fillcolor=\"#f4a6a6\"",
    }
}
