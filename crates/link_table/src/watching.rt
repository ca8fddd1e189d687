// The pair of a holder and its target, if it has one.
ghost use Rattle.std.specs.Prelude.{◌≡◌, ◌<◌, ◌+◌, ℕ, Some, true, is_some, if◌then◌else◌};
ghost use Rattle.observer_graph.specs.GraphView.{IsLive, IsPair};
ghost use Rattle.link_table.specs.Links.{Leaves, Joins};

use desk_names::ObjId;
use observer_graph::Graph;

/// The holder observes the target, if there is one, by a spare place.
pub fn watch_target(graph: &mut Graph, target: Option<ObjId>, holder: ObjId)
    requires live { IsLive graph.old holder }
    requires target { (t : ℕ) → target ≡ Some t → IsLive graph.old t }
    requires new { (t : ℕ) → target ≡ Some t → IsPair graph.old t holder → ⊥ }
    requires room { is_some target ≡ true → 0 < graph.old.spare }
    ensures joins { Joins graph.old graph.new holder target }
    ensures spare { graph.new.spare + (if is_some target then 1 else 0) ≡ graph.old.spare }
{
    if let Some(target) = target {
        graph.watch_spare(target, holder);
    }
}

/// The holder does not observe the target, if there is one, which leaves a spare place.
pub fn unwatch_target(graph: &mut Graph, target: Option<ObjId>, holder: ObjId)
    requires live { IsLive graph.old holder }
    requires target { (t : ℕ) → target ≡ Some t → IsLive graph.old t × IsPair graph.old t holder }
    ensures leaves { Leaves graph.old graph.new holder target }
    ensures spare { graph.new.spare ≡ graph.old.spare + (if is_some target then 1 else 0) }
{
    if let Some(target) = target {
        graph.unwatch(target, holder);
    }
}
