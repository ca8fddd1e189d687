// Rows `nodes: steps`, `;` between the steps: changes of a graph whose notices may be held back, and questions about it with
// their answers. The letters of a row are its nodes by number: s a source, f a forwarder, l a lazy node, w a watcher.
ghost use Rattle.std.specs.Prelude.{◌≡◌, ◌+◌, ◌<◌, [], length, OnOk};
ghost use Rattle.observer_graph.specs.GraphView.{IsWhole};

use deferred_sources::Deferral;
use desk_names::ObjId;
use observer_graph::{Flags, Graph, Role};

/// How many nodes a row has at most.
const MOST_LETTERS: usize = 1_000;

/// Whether each step of a row agrees in a graph without nodes. None where one is no step of its graph, or where memory is
/// wanting.
pub(crate) fn steps_agree(held: &mut Deferral, row: &str) -> Option<bool>
    requires { held.old.graph.nodes ≡ [] }
{
    let mut parts = row.split(": ");
    let letters = parts.next()?;
    let steps = parts.next()?;
    add_nodes(&mut held.graph, letters.as_bytes())?;
    let mut agree = true;
    for step in steps.split(';') {
        agree = step_agrees(held, step)? && agree;
    }
    Some(agree)
}

// Adds nodes in these roles to a graph without any.
fn add_nodes(graph: &mut Graph, letters: &[u8]) -> Option<()>
    requires { graph.old.nodes ≡ [] }
{
    if letters.len() > MOST_LETTERS {
        return None;
    }
    for letter in letters {
        graph.add(role_of(*letter)?).ok()?;
    }
    Some(())
}

fn role_of(letter: u8) -> Option<Role> {
    match letter {
        b's' => Some(Role::Source),
        b'f' => Some(Role::Forwarder),
        b'l' => Some(Role::Lazy),
        b'w' => Some(Role::Watcher),
        _ => None,
    }
}

// Whether a step agrees: a question by its answer, and a change by being done.
fn step_agrees(held: &mut Deferral, step: &str) -> Option<bool> {
    let mut words = step.split(' ');
    let verb = words.next()?;
    let first = words.next().unwrap_or("");
    let second = words.next().unwrap_or("");
    let third = words.next().unwrap_or("");
    match verb {
        "defer" => {
            held.defer();
            Some(held.is_on())
        }
        "resume" => {
            held.resume();
            Some(!held.is_on())
        }
        "told" => Some(held.graph().next_told() == node_or_none(first)?),
        "link" | "unlink" | "pair" | "reaches" => {
            pair_agrees(held, verb, node_of(first)?, node_of(second)?, third)
        }
        "watching" | "user" | "late" | "clear" | "current" => {
            answer_agrees(held, verb, node_of(first)?, second)
        }
        _ => change(held, verb, node_of(first)?),
    }
}

// Whether a question about two nodes, or a change of their pair, agrees.
fn pair_agrees(
    held: &mut Deferral,
    verb: &str,
    first: ObjId,
    second: ObjId,
    answer: &str,
) -> Option<bool> {
    let graph = held.graph();
    if !graph.is_live(first) || !graph.is_live(second) {
        return None;
    }
    match verb {
        "link" => link(graph, first, second),
        "unlink" => Some(graph.unwatch(first, second) == is_yes(answer)?),
        "pair" => Some(graph.has_pair(first, second) == is_yes(answer)?),
        _ => Some(graph.reaches(first, second) == is_yes(answer)?),
    }
}

// A subject is observed by an observer that did not observe it; whether it is then.
fn link(graph: &mut Graph, subject: ObjId, observer: ObjId) -> Option<bool> {
    if !graph.is_live(subject) || !graph.is_live(observer) {
        return None;
    }
    if graph.has_pair(subject, observer) {
        return Some(false);
    }
    graph.watch(subject, observer).ok()?;
    Some(true)
}

// Whether a question about one node agrees.
fn answer_agrees(held: &mut Deferral, verb: &str, node: ObjId, answer: &str) -> Option<bool> {
    if !held.graph.is_live(node) {
        return None;
    }
    match verb {
        "watching" => Some(held.graph.has_subject(node) == is_yes(answer)?),
        "user" => Some(held.graph.least_observer(node) == node_or_none(answer)?),
        "late" => Some(held.late(node) == node_or_none(answer)?),
        "clear" => Some(held.clear(node) == is_yes(answer)?),
        _ => Some(held.graph.is_current(node) == is_yes(answer)?),
    }
}

// A change of one node.
fn change(held: &mut Deferral, verb: &str, node: ObjId) -> Option<bool> {
    if !held.graph.is_live(node) {
        return None;
    }
    match verb {
        "change" => held.changed(node),
        "forget" => held.forget(node),
        "drop" => held.graph().remove(node),
        _ => {
            let flags = flags_by(verb, held.graph.flags(node))?;
            set(held.graph(), node, flags)?;
        }
    }
    Some(true)
}

// The flags of a lazy node.
fn set(graph: &mut Graph, node: ObjId, flags: Flags) -> Option<bool> {
    if !graph.is_lazy(node) {
        return None;
    }
    graph.set_flags(node, flags);
    Some(true)
}

// The flags of a lazy node after a step.
fn flags_by(verb: &str, flags: Flags) -> Option<Flags> {
    match verb {
        "freeze" => Some(Flags {
            frozen: true,
            ..flags
        }),
        "thaw" => Some(Flags {
            frozen: false,
            ..flags
        }),
        "forward" => Some(Flags {
            forward: true,
            ..flags
        }),
        "backward" => Some(Flags {
            forward: false,
            ..flags
        }),
        "settle" => Some(Flags {
            current: true,
            ..flags
        }),
        _ => None,
    }
}

fn node_of(word: &str) -> Option<ObjId> {
    Some(ObjId(word.parse().ok()?))
}

// The node that an answer names; none for `none`.
fn node_or_none(word: &str) -> Option<Option<ObjId>> {
    if word == "none" {
        return Some(None);
    }
    Some(Some(node_of(word)?))
}

// Whether a word is `yes` and not `no`.
fn is_yes(word: &str) -> Option<bool> {
    match word {
        "yes" => Some(true),
        "no" => Some(false),
        _ => None,
    }
}
