// Lists of distinct nodes.
ghost use Rattle.std.specs.Prelude.{◌≡◌, ◌↔◌, ◌==◌, position, ◌+◌, ℕ, length, IsTrue, vec_capacity};
ghost use Rattle.walks.specs.Walk.{Among, IsOnce};
ghost use Rattle.observer_graph.specs.Notice.{lesser};

use desk_names::ObjId;

/// Removes a node from a list and returns whether it was there.
pub fn take_out(list: &mut Vec<ObjId>, node: ObjId) -> bool
    requires once { IsOnce list.old.items }
    ensures was { IsTrue result ↔ Among node list.old.items }
    ensures left { (o : ℕ) → Among o list.new.items ↔ (Among o list.old.items × (o ≡ node → ⊥)) }
    ensures once { IsOnce list.new.items }
    ensures len { IsTrue result → length list.new.items + 1 ≡ length list.old.items }
    ensures capacity { vec_capacity list.new ≡ vec_capacity list.old }
{
    match place_of(list, node) {
        None => false,
        Some(at) => {
            list.remove(at);
            true
        }
    }
}

// Returns the first place of a node in a list.
fn place_of(list: &[ObjId], node: ObjId) -> Option<usize>
    ensures { result ≡ position (λ x. x == node) list.now }
{
    list.iter().position(|other| *other == node)
}

/// Returns the lesser of two nodes, or the node if there is only one.
pub fn lesser(least: Option<ObjId>, node: ObjId) -> ObjId
    ensures { result ≡ lesser least node }
{
    match least {
        Some(found) => {
            if node.place() < found.place() {
                node
            } else {
                found
            }
        }
        None => node,
    }
}
