//! Notices that are held back while deferral is on (QuantLib's `ObservableSettings::disableUpdates`, deferred), over a
//! graph of observers. What changes under deferral becomes a marked source of the graph; what lies above a source is late.
//!
//! `Deferral`. Words of `specs/`: those of observer_graph (`IsLateOf`, `IsClear`, `Tells`), `LendsGraph`.
#![tactic(auto)]

mod deferral;

pub use deferral::Deferral;
