//! What the objects of a session are made of, what a price is computed from, and the bench that computes it: every
//! price of the session goes through one trait, `Bench`, whose meaning is a function of the job alone.
//!
//! `Terms` and its parts, `Kind`, `Wanted`, `Reference`; `Value`, `Input`, `InputList`; `Cause`; `Job`, `IndexUse`,
//! `Bench`, `BenchFault`; `Asked`, `Mark`; `discount_of`, `point_cause`.
#![tactic(auto)]

mod asked;
mod bench;
mod cause;
mod examples;
mod job;
mod kind;
mod point;
mod reference;
mod terms;
mod value;

pub use asked::{Asked, Mark};
pub use bench::{Bench, BenchFault};
pub use cause::Cause;
pub use curve_terms::{CurveStart, CurveTerms, Helper, HelperList};
pub use flow_terms::{
    FixFault, Fixings, FlowTerm, FlowTermList, FlowTerms, IndexTerms, IndexUse, Period, expired,
    needs_forecast,
};
pub use job::Job;
pub use kind::{Kind, Wanted};
pub use point::{discount_of, point_cause};
pub use reference::{Reference, ReferenceList};
pub use terms::{HandleKind, Part, PartList, Terms};
pub use value::{Input, InputList, Value};
