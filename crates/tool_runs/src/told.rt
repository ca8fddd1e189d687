// What a step tells of an ask.

// What a step tells of an ask, in units of 10^-6.
#[derive(Clone, Copy)]
pub(crate) enum Told {
    /// It shows no money.
    Nothing,
    /// It shows this, and no step before it shows money.
    Value(i128),
    /// It shows this much more than the last step before it that shows money.
    Gain(i128),
}
