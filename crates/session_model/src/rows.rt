// The definitions checked against sessions that were worked through by hand.
ghost use Rattle.session_model.specs.Rows.{AreRefused, AreUnset, AreMembers, AreDropped, AreFrozen, AreRecalculated, AreDeferred, AreLinked, AreOfAMarket};

/// Each refusal comes in its order.
pub fn refusals_are_worked_through()
    ensures { AreRefused }
{}

/// A quote without a value refuses the price, and a value that is taken away does so again.
pub fn unset_quotes_are_worked_through()
    ensures { AreUnset }
{}

/// A composite is computed after its members, and after a move those alone that it reached.
pub fn members_are_worked_through()
    ensures { AreMembers }
{}

/// A composite reaches itself by no path, and an object that is used is not dropped.
pub fn drops_and_cycles_are_worked_through()
    ensures { AreDropped }
{}

/// A frozen object answers its last value, and none is told of it.
pub fn frozen_objects_are_worked_through()
    ensures { AreFrozen }
{}

/// A recalculation is refused where the object is late, else it prices the object over what is seen of its inputs.
pub fn recalculation_is_worked_through()
    ensures { AreRecalculated }
{}

/// Under deferral a late object answers its last value, until the notices that are held back are given.
pub fn deferral_is_worked_through()
    ensures { AreDeferred }
{}

/// A handle stands for nothing, then for a target of its kind that does not reach it.
pub fn handles_are_worked_through()
    ensures { AreLinked }
{}

/// Discount factors, engines, the evaluation date, fixings and handles of curves.
pub fn objects_of_a_market_are_worked_through()
    ensures { AreOfAMarket }
{}
