// The ways to move a day to a business day.

/// How a day that is no business day is moved to one.
#[derive(Clone, Copy, PartialEq, Eq)]
pub enum Convention {
    /// The day stays.
    Unadjusted,
    /// To the next business day.
    Following,
    /// To the previous business day.
    Preceding,
    /// To the next business day, or to the previous one where the next lies in another month.
    ModifiedFollowing,
    /// To the previous business day, or to the next one where the previous lies in another month.
    ModifiedPreceding,
    /// As `ModifiedFollowing`, and also to the previous one where the next crosses the middle of the month, between the
    /// days 15 and 16.
    HalfMonthModifiedFollowing,
    /// To the nearest business day, and to the later of two at one distance.
    Nearest,
}
