// What is proved of the definitions, for every bench and every market.
ghost use Rattle.desk_model.specs.Laws.{
  AsksKeep,
  AsksStore,
  ChangesKeep,
  ChangesKeepKinds,
  ClearIsFresh,
  CurrentIsShown,
  FreshHasNoBound,
  FreshIsPriced,
  InputsHaveNoBound,
  KeptIsSound,
  LateHasLeastSource,
  NeedsAreLazy,
  ReadingsAreWellFormed,
  RecalcsKeep,
  RevisionsKeep,
  RunsHaveNoBound,
  SeenHasNoBound,
  SeenIsPriced,
  SeenIsValued,
  ShownIsSeen,
  StartsAreSound,
  UsesAreLocal,
  WalksAreLeast,
};
ghost use Rattle.desk_model.specs.FixedCurves.{FixedCurvesStay, FlowsAreTold};
ghost use Rattle.desk_model.specs.Registrations.{RegistrationsAreASet};
ghost use Rattle.desk_model.specs.Unheld.{MarksAreExact, OthersHoldNothing, UnheldIsFresh};

/// No bound of a recursion above the number of objects matters: neither to prices afresh and to what is seen, nor to
/// what an input gives, nor to what an ask computes.
pub fn no_bound_matters()
    ensures fresh { FreshHasNoBound }
    ensures seen { SeenHasNoBound }
    ensures inputs { InputsHaveNoBound }
    ensures runs { RunsHaveNoBound }
{}

/// What is late, clear, near, reached and told is so by a path of edges, whatever its length.
pub fn walks_find_paths()
    ensures { WalksAreLeast }
{}

/// Registrations are a set of pairs: each change of them changes who is registered with whom and nothing else.
pub fn registrations_are_a_set()
    ensures { RegistrationsAreASet }
{}

/// The price afresh is the price over the prices afresh.
pub fn the_price_afresh_is_priced()
    ensures { FreshIsPriced }
{}

/// What an object uses, and what its price reads, depends on itself and on what is near it.
pub fn uses_are_local()
    ensures { UsesAreLocal }
{}

/// Where each object names others of the right kinds, a bench is asked for well-formed readings alone, what an ask shows
/// of an object is a value that it may have, and what a price needs is priced by the bench.
pub fn readings_are_well_formed()
    ensures readings { ReadingsAreWellFormed }
    ensures values { SeenIsValued }
    ensures needs { NeedsAreLazy }
{}

/// Each change keeps the shape of a state, the kinds, and, over data alone, all that is current.
pub fn changes_keep_what_is_current()
    ensures terms { RevisionsKeep }
    ensures commands { ChangesKeep }
    ensures kinds { ChangesKeepKinds }
{}

/// What keeps all that is current keeps a state sound, for every bench.
pub fn what_is_kept_is_sound()
    ensures { KeptIsSound }
{}

/// An ask, and a recalculation of an object that is not late, leave a state whole, and sound for the bench that was
/// asked; a new session is sound for every bench.
pub fn benches_leave_a_state_sound()
    ensures start { StartsAreSound }
    ensures asks { AsksKeep }
    ensures recalcs { RecalcsKeep }
{}

/// A current object that is not held shows its last value.
pub fn a_current_object_shows_its_last_value()
    ensures current { CurrentIsShown }
    ensures after { AsksStore }
{}

/// Where neither an object nor anything beneath it is frozen or a deferred source, an ask shows the price afresh from
/// the market of that moment.
pub fn a_clear_object_shows_its_price_afresh()
    ensures clear { ClearIsFresh }
    ensures shown { ShownIsSeen }
    ensures priced { SeenIsPriced }
{}

/// An object is late exactly where a deferred source makes it late, and the least such source is named.
pub fn a_late_object_has_a_least_source()
    ensures { LateHasLeastSource }
{}

/// An answer is marked frozen exactly where the object is frozen; else late exactly where a deferred source is the object
/// or lies beneath it, no frozen object between; fresh exactly where neither the object nor any beneath it is held back.
pub fn marks_say_what_is_held_back()
    ensures { MarksAreExact }
{}

/// Where no object is frozen and no notice is held back, each ask shows the price afresh, marked fresh; and nothing but
/// a freeze and a deferral leads away from there.
pub fn what_is_not_held_is_fresh()
    ensures fresh { UnheldIsFresh }
    ensures others { OthersHoldNothing }
{}

/// A move of the evaluation date leaves all that is kept of a curve with a reference day of its own as it is, and tells
/// each bond, swap and forward rate agreement, whatever its curve.
pub fn fixed_curves_take_no_notice_of_the_day()
    ensures curves { FixedCurvesStay }
    ensures flows { FlowsAreTold }
{}
