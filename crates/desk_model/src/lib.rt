//! What a session is and what its values are, said without the code that keeps them: the market, what a price uses, the
//! price afresh, the state with its stored values, what an ask shows and computes, what each change does, and when a
//! state is sound.
//!
//! `Slot`, `Kept`; `Entry`, `Next`. Words of `specs/`: `Market`, `edges`, `uses`, `fresh`; `State`, `seen_outcome`, `now`,
//! `is_late`, `is_clear`, `shows`, `mark_of`; `told`, `tell`; `runs`, `asked`, `reruns`, `recalced`; the changes of
//! `Effect`; `IsWhole`, `IsKinded`, `IsSound`, `KeepsCurrent`. Functions without a body are laws: their contracts are
//! what is proved, for every bench and every market.
#![tactic(auto)]

mod entry;
mod examples;
mod kept;
mod laws;
mod slot;

pub use entry::{Entry, Next};
pub use kept::Kept;
pub use laws::{
    a_clear_object_shows_its_price_afresh, a_current_object_shows_its_last_value,
    a_late_object_has_a_least_source, benches_leave_a_state_sound, changes_keep_what_is_current,
    fixed_curves_take_no_notice_of_the_day, marks_say_what_is_held_back, no_bound_matters,
    readings_are_well_formed, the_price_afresh_is_priced, uses_are_local, walks_find_paths,
    what_is_kept_is_sound, what_is_not_held_is_fresh,
};
pub use slot::Slot;
