// The flows of a bond, a swap or a forward rate agreement.
ghost use Rattle.std.specs.Prelude.{◌≡◌};
ghost use Rattle.flow_terms.specs.Flows.{paid_on, fixed_on, is_expired, is_forecast, needs_forecast};

use crate::Fixings;
use day_number::Day;
use desk_names::ObjId;
use fixed_amount::{Amount, Rate};
use item_lists::Items;
use year_parts::YearParts;

/// The day from which the interest of a coupon accrues, and the later one up to which it does (QuantLib's
/// `accrualStartDate` and `accrualEndDate`).
pub type Period = (Day, Day);

/// One flow, paid on a day (QuantLib's `CashFlow`).
#[derive(Clone, Copy)]
pub enum FlowTerm {
    /// An amount that is known: a coupon at a rate, with the period that it accrues over, or a redemption, without one
    /// (QuantLib's `FixedRateCoupon`, `Redemption`). No price reads the period.
    Known {
        paid: Day,
        amount: Amount,
        period: Option<Period>,
    },
    /// Interest on a notional at an index's rate and a spread, for a part of a year (QuantLib's `IborCoupon`).
    Float {
        paid: Day,
        notional: Amount,
        spread: Rate,
        parts: YearParts,
        fixing: Day,
    },
    /// The settlement of a forward rate agreement on a notional (QuantLib's `ForwardRateAgreement`).
    Forward {
        paid: Day,
        notional: Amount,
        strike: Rate,
        fixing: Day,
    },
}

impl FlowTerm {
    /// The day on which it is paid.
    pub fn paid(&self) -> Day
        ensures { result ≡ paid_on self.now }
    {
        match self {
            FlowTerm::Known { paid, .. } => *paid,
            FlowTerm::Float { paid, .. } => *paid,
            FlowTerm::Forward { paid, .. } => *paid,
        }
    }

    /// The day on which the index's rate is taken; none where it is on no index.
    pub fn fixing(&self) -> Option<Day>
        ensures { result ≡ fixed_on self.now }
    {
        match self {
            FlowTerm::Known { .. } => None,
            FlowTerm::Float { fixing, .. } => Some(*fixing),
            FlowTerm::Forward { fixing, .. } => Some(*fixing),
        }
    }
}

/// The flows of an instrument, in order.
pub type FlowTermList = Items<FlowTerm>;

/// The flows of an instrument, and the index that some of them are on.
#[derive(Drop)]
pub struct FlowTerms {
    pub flows: FlowTermList,
    pub index: Option<ObjId>,
}

/// Whether each flow is paid on or before today (QuantLib's `Instrument::isExpired`).
pub fn expired(flows: &FlowTerms, today: Day) -> bool
    ensures { result ≡ is_expired flows.now.flows today }
{
    flows.flows.items().iter().all(|flow| flow.paid() <= today)
}

// Whether a rate that is taken on this day has to be forecast.
fn is_forecast(fixings: &Fixings, today: Day, fixed: Option<Day>) -> bool
    ensures { result ≡ is_forecast fixings.now today fixed }
{
    match fixed {
        None => false,
        Some(day) => day > today || (day >= today && fixings.get(day).is_none()),
    }
}

/// Whether some flow is paid after today at a rate that has to be forecast: one of a later day, or of today where none
/// is stored (QuantLib's `InterestRateIndex::fixing`).
pub fn needs_forecast(flows: &FlowTerms, fixings: &Fixings, today: Day) -> bool
    ensures { result ≡ needs_forecast flows.now.flows fixings.now today }
{
    flows.flows.items().iter().any(|flow| flow.paid() > today
        && is_forecast(fixings, today, flow.fixing()))
}
