// Curves that are built from the helpers of `helpers.csv`, and from those of `cases.csv`, which were worked out by hand and by
// an independent model.
pub(crate) mod built;
mod calendars;
mod terms;
