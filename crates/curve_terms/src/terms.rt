// What a curve is built from, its rates apart.
use day_number::{Convention, Day, Tenor};
use desk_names::ObjId;
use holiday_calendars::Calendar;
use item_lists::Items;
use year_parts::Counter;

/// A deposit, or a swap at par, whose rate a quote gives (QuantLib's `DepositRateHelper` and `SwapRateHelper`).
#[derive(Clone, Copy)]
pub struct Helper {
    /// The quote, or the object that stands for one.
    pub quote: ObjId,
    /// How long it runs from the curve's reference day.
    pub tenor: Tenor,
    /// How often a swap pays coupons, in months or years. None for a deposit, which pays one at its end.
    pub every: Option<Tenor>,
    /// How each of its days is adjusted.
    pub conv: Convention,
    /// Whether a day from a month's end leads to a month's end.
    pub eom: bool,
    /// How the days of a coupon's period are counted as a part of a year.
    pub counter: Counter,
}

/// Helpers in the order of their ends.
pub type HelperList = Items<Helper>;

/// On which day a curve starts.
#[derive(Clone, Copy)]
pub enum CurveStart {
    /// So many business days after the evaluation date, with which it moves (QuantLib's `settlementDays`).
    Moving(u8),
    /// On this day as it is, whatever the evaluation date; it may be a holiday (QuantLib's `referenceDate`).
    Fixed(Day),
}

/// What a curve is built from, the quotes' rates and the evaluation date apart (QuantLib's `PiecewiseYieldCurve`).
#[derive(Drop)]
pub struct CurveTerms {
    /// The calendar of a moving start and of all helpers.
    pub cal: Calendar,
    /// The reference day.
    pub start: CurveStart,
    /// The helpers, in the order of their ends.
    pub helpers: HelperList,
}
