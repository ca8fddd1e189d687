// Whether the terms of a curve are in range.
ghost use Rattle.std.specs.Prelude.{◌≡◌, ◌↔◌, pos, IsTrue};
ghost use Rattle.std.specs.List.{All};
ghost use Rattle.day_number.specs.Tenor.{IsTenor, unit_limit};
ghost use Rattle.curve_terms.specs.Terms.{CountsMonths, IsOfMonths, IsHelper, IsStart, IsInRange};

use crate::{CurveStart, CurveTerms, Helper};
use day_number::{Tenor, Unit};

/// Whether terms are in range: at most 30 settlement days of a moving start, 1 to 64 helpers, and each helper's tenors within the limits of
/// their units, those of a swap in months or years.
pub fn is_in_range(terms: &CurveTerms) -> bool
    ensures { IsTrue result ↔ IsInRange terms.now }
{
    let count = terms.helpers.len();
    is_start(terms.start) && count >= 1 && count <= 64 && are_helpers(terms.helpers.items())
}

// Whether a start has at most 30 settlement days; a day of its own is always in range.
fn is_start(start: CurveStart) -> bool
    ensures { IsTrue result ↔ IsStart start }
{
    match start {
        CurveStart::Moving(settlement) => settlement <= 30,
        CurveStart::Fixed(_) => true,
    }
}

// Whether each helper's tenors are within their limits.
fn are_helpers(helpers: &[Helper]) -> bool
    ensures { IsTrue result ↔ All IsHelper helpers.now }
{
    helpers.iter().all(|helper| is_helper(helper))
}

// Whether a helper's tenors are within their limits.
fn is_helper(helper: &Helper) -> bool
    ensures { IsTrue result ↔ IsHelper helper.now }
{
    match helper.every {
        None => is_tenor(helper.tenor),
        Some(every) => is_of_months(helper.tenor) && is_of_months(every),
    }
}

// Whether a tenor is of months or years, and its count is from 1 to its unit's limit.
fn is_of_months(tenor: Tenor) -> bool
    ensures { IsTrue result ↔ IsOfMonths tenor }
{
    is_tenor(tenor) && counts_months(tenor.unit)
}

// Whether a unit counts months.
fn counts_months(unit: Unit) -> bool
    ensures { IsTrue result ↔ CountsMonths unit }
{
    match unit {
        Unit::Days | Unit::Weeks => false,
        Unit::Months | Unit::Years => true,
    }
}

// Whether a tenor's count is from 1 to its unit's limit.
fn is_tenor(tenor: Tenor) -> bool
    ensures { IsTrue result ↔ IsTenor tenor }
{
    tenor.count >= 1 && tenor.count <= limit(tenor.unit)
}

// The greatest count of a unit.
fn limit(unit: Unit) -> i32
    ensures { result ≡ pos (unit_limit unit) }
{
    match unit {
        Unit::Days => 22_000,
        Unit::Weeks => 3_100,
        Unit::Months => 720,
        Unit::Years => 60,
    }
}
