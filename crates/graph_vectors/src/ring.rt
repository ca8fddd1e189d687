// A ring of 65,536 nodes, each of them observed by the sixteen after it.
ghost use Rattle.edge_lists.specs.EdgesView.{IsLive};

use desk_names::ObjId;
use edge_lists::{Edges, MOST_NODES};
use std::alloc::AllocError;
use std::io;

const NODES: u32 = 65_536;

// By how many nodes after it each node is observed.
const REACH: u32 = 16;

/// Links the 1,048,576 pairs of the ring, walks the observers of every node ten times, takes the pairs of the last step out
/// again, drops every node, and prints what it counted.
pub(crate) fn show(rt: &HostRuntime) -> io::Result<()> {
    let mut edges = Edges::new(rt.alloc());
    show_ring(rt, &mut edges)
}

// The same on a graph that is empty yet.
fn show_ring(rt: &impl Print, edges: &mut Edges) -> io::Result<()> {
    match filled(edges) {
        Ok(linked) => println!(rt; "nodes: {}, pairs: {linked}", live_count(edges))?,
        Err(_) => println!(rt; "memory is wanting")?,
    }
    let mut found = 0u64;
    for _ in 0..10 {
        found = found.saturating_add(walked(edges));
    }
    println!(rt; "observers in ten walks: {found}")?;
    let unlinked = unlink_step(edges, REACH);
    println!(rt; "unlinked: {unlinked}, observers left: {}", walked(edges))?;
    drop_all(edges);
    println!(rt;
        "nodes left: {}, observers left: {}",
        live_count(edges),
        walked(edges)
    )
}

// Makes the ring; how many pairs it has.
fn filled(edges: &mut Edges) -> Result<u64, AllocError> {
    add_nodes(edges)?;
    link_ring(edges)
}

// The nodes of the ring.
fn add_nodes(edges: &mut Edges) -> Result<(), AllocError> {
    for _ in 0..NODES {
        if edges.len() < MOST_NODES {
            edges.add_node()?;
        }
    }
    Ok(())
}

// Links each node to those after it; how many pairs were linked.
fn link_ring(edges: &mut Edges) -> Result<u64, AllocError> {
    let mut linked = 0u64;
    for step in 1..=REACH {
        for node in 0..NODES {
            if link_new(edges, ObjId(node), observer_of(node, step))? {
                linked = linked.saturating_add(1);
            }
        }
    }
    Ok(linked)
}

// The node so many steps after a node.
fn observer_of(node: u32, step: u32) -> ObjId {
    ObjId(node.wrapping_add(step) % NODES)
}

// Links a pair of live nodes, unless it is there; whether it was linked.
fn link_new(edges: &mut Edges, subject: ObjId, observer: ObjId) -> Result<bool, AllocError> {
    if !edges.is_live(subject) || !edges.is_live(observer) || edges.has_pair(subject, observer) {
        return Ok(false);
    }
    edges.link(subject, observer)?;
    Ok(true)
}

// How many observers the walks of all live nodes give.
fn walked(edges: &Edges) -> u64 {
    let mut found = 0u64;
    for node in 0..NODES {
        if edges.is_live(ObjId(node)) {
            found = found.saturating_add(observers_of(edges, ObjId(node)));
        }
    }
    found
}

// How many observers the walk of a node gives.
fn observers_of(edges: &Edges, node: ObjId) -> u64
    requires { IsLive edges.now node }
{
    let mut found = 0u64;
    let mut at = edges.first_observer(node);
    while let Some(edge) = at {
        found = found.saturating_add(1);
        at = edges.next_observer(edge);
    }
    found
}

// Takes the pairs of one step out; how many were there.
fn unlink_step(edges: &mut Edges, step: u32) -> u64 {
    let mut unlinked = 0u64;
    for node in 0..NODES {
        let subject = ObjId(node);
        let observer = observer_of(node, step);
        if !edges.is_live(subject) || !edges.is_live(observer) {
            continue;
        }
        if edges.unlink(subject, observer) {
            unlinked = unlinked.saturating_add(1);
        }
    }
    unlinked
}

// Drops every node.
fn drop_all(edges: &mut Edges) {
    for node in 0..NODES {
        if edges.is_live(ObjId(node)) {
            edges.drop_node(ObjId(node));
        }
    }
}

// How many nodes live.
fn live_count(edges: &Edges) -> u32 {
    let mut live = 0u32;
    for node in 0..NODES {
        if edges.is_live(ObjId(node)) {
            live = live.saturating_add(1);
        }
    }
    live
}
