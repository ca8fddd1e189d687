// The definitions on small sessions: each gives what a hand works out.
ghost use Rattle.desk_model.specs.Examples.{AreQuotes, AreMembers, AreHandles, AreShared, AreFlows};
ghost use Rattle.desk_model.specs.HeldExamples.{
  AreDeferred,
  AreFrozen,
  AreFrozenBetween,
  AreRecalculated,
  AreLinkedAway,
  AreWatched,
};
ghost use Rattle.desk_model.specs.WatcherExamples.{
  AreUnderSeveral,
  AreUnregistered,
  AreHandedOut,
  AreUnderFrozen,
  AreHeldBack,
  AreUnderHandle,
};

// A quote without a value, set, unset, and a stock on it that is frozen.
fn quotes_are_worked_through()
    ensures { AreQuotes }
{}

// A composite of two stocks before and after one moves.
fn members_are_worked_through()
    ensures { AreMembers }
{}

// A handle without a target, linked, and a link that would close a cycle.
fn handles_are_worked_through()
    ensures { AreHandles }
{}

// A member that two composites share is computed once; a sum that is too large.
fn shared_members_are_worked_through()
    ensures { AreShared }
{}

// A bond without an engine, and one that is expired above a curve that is not current.
fn flows_are_worked_through()
    ensures { AreFlows }
{}

// A quote that moves under deferral.
fn deferral_is_worked_through()
    ensures { AreDeferred }
{}

// A frozen member.
fn frozen_members_are_worked_through()
    ensures { AreFrozen }
{}

// A late object that is late no more because one in the middle is frozen.
fn an_object_frozen_between_is_worked_through()
    ensures { AreFrozenBetween }
{}

// A frozen object that is priced on demand.
fn recalculation_is_worked_through()
    ensures { AreRecalculated }
{}

// A handle that is linked away from a deferred source.
fn links_under_deferral_are_worked_through()
    ensures { AreLinkedAway }
{}

// A watcher that is told of moves.
fn watchers_are_worked_through()
    ensures { AreWatched }
{}

// Several watchers under one object, and one under several.
fn several_watchers_are_worked_through()
    ensures several { AreUnderSeveral }
    ensures unregistered { AreUnregistered }
    ensures handed_out { AreHandedOut }
{}

// Watchers of a frozen object, of one that is held back, and of a handle.
fn notices_of_watchers_are_worked_through()
    ensures frozen { AreUnderFrozen }
    ensures held_back { AreHeldBack }
    ensures handle { AreUnderHandle }
{}
