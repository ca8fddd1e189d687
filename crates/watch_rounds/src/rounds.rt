// The due watchers of a round, and the runs of each name.
ghost use Rattle.std.specs.Prelude.{◌≡◌, ◌↔◌, ℕ, IsTrue, true, ◌+◌, ◌<◌, ◌≤◌, ◌*◌, ◌==◌, length, OnOk, OnErr, OnSome, if◌then◌else◌, ◌++◌, replicate, vec_capacity, slice_index_or, slice_set, max};
ghost use Rattle.watch_rounds.specs.declared.notice.Notice.TheVariants.{Due};
ghost use Rattle.watch_rounds.specs.Due.{IsOnly, IsRising, IsPlace, with_due, without, is_at};
ghost use Rattle.watch_rounds.specs.Round.{no_rounds, grown, roomy, with_name, begun, tally_at, with_notice, notice_of, watcher_at, with_run, gone, runs_left, IsRound, blank, one_more};
ghost use Rattle.watch_rounds.specs.Stands.{IsTracked};
ghost use Rattle.std.specs.VecDeque.{deque_capacity};

use crate::notice::Notice;
use crate::picker::Picker;
use crate::tally::{MOST_RUNS, Tally};
use desk_names::{NameId, ObjId};
use std::alloc::{AllocError, Global};
use std::collections::VecDeque;
use std::marker::Model;

/// A watcher that is due, with the name that it was told by.
#[derive(Clone, Copy)]
pub struct DueWatcher {
    pub watcher: ObjId,
    pub name: NameId,
}

/// The due watchers of a round by creation, and the runs of each name in it. A clause sees a `RoundsView`.
pub struct Rounds {
    due: VecDeque<DueWatcher>,
    // Where the watcher that is told next may stand among the due: behind the one that was told last.
    near: usize,
    tallies: Vec<Tally>,
    // The names of which a run began, each once: what `begin` has to clear.
    ran: Vec<NameId>,
    // Watchers below this number have room.
    nodes: usize,
    // So many names have room.
    names: usize,
}

// One call at each exit of who lets it go.
impl Drop for Rounds {
    fn drop(self) {
        let Rounds {
            due: _,
            near: _,
            tallies: _,
            ran: _,
            nodes: _,
            names: _,
        } = self;
    }
}

impl Model for Rounds {
    ghost use Rattle.std.specs.Prelude.{◌≤◌, length, vec_capacity};
    ghost use Rattle.std.specs.VecDeque.{deque_capacity};
    ghost use Rattle.watch_rounds.specs.Round.{RoundsView};
    ghost use Rattle.watch_rounds.specs.Stands.{Stands};

    ghost Value = { RoundsView };

    ghost view = { λ r. record {
      round = record { due = r.due.items; tallies = r.tallies.items };
      nodes = r.nodes;
      names = r.names;
    } };

    ghost invariant = { λ r. Stands r.due.items r.tallies.items r.ran.items r.nodes
        × (r.nodes ≤ deque_capacity r.due) × (length r.tallies.items ≤ r.names)
        × (r.names ≤ vec_capacity r.tallies) × (r.names ≤ vec_capacity r.ran) };
}

impl Rounds {
    /// Room for no name and no watcher. Later calls take memory from the allocator given here.
    pub fn new(alloc: Global) -> Rounds
        ensures { result ≡ no_rounds }
    {
        Rounds {
            due: VecDeque::new(alloc),
            near: 0,
            tallies: Vec::new(alloc),
            ran: Vec::new(alloc),
            nodes: 0,
            names: 0,
        }
    }

    /// Finds the room for so many names, which are counted from then on, and for the watchers below this number. It lowers
    /// neither. Where memory is wanting, nothing is changed. No other call but `reserve` takes memory.
    pub fn grow(&mut self, names: u32, nodes: u32) -> Result<(), AllocError>
        ensures ok { OnOk result (self.new ≡ grown names nodes self.old) }
        ensures err { OnErr result (self.new ≡ self.old) }
    {
        let more = (names as usize).saturating_sub(self.tallies.len());
        let nodes = greater(self.nodes, nodes as usize);
        let names = greater(self.names, names as usize);
        find_room(&mut self.tallies, &mut self.ran, names)?;
        self.due.reserve(nodes - self.due.len())?;
        self.nodes = nodes;
        self.names = names;
        extend(&mut self.tallies, more);
        Ok(())
    }

    /// Whether the watcher of a number has room.
    pub fn has_room_for(&self, watcher: u32) -> bool
        ensures { IsTrue result ↔ (watcher < self.now.nodes) }
    {
        (watcher as usize) < self.nodes
    }

    /// Finds the room for so many names, none of which is counted before `count_name`. Where memory is wanting, nothing is
    /// changed.
    pub fn reserve(&mut self, names: u32) -> Result<(), AllocError>
        ensures ok { OnOk result (self.new ≡ roomy names self.old) }
        ensures err { OnErr result (self.new ≡ self.old) }
    {
        let names = greater(self.names, names as usize);
        find_room(&mut self.tallies, &mut self.ran, names)?;
        self.names = names;
        Ok(())
    }

    /// A name more is counted, of which no run began.
    pub fn count_name(&mut self)
        requires room { length self.old.round.tallies < self.old.names }
        ensures counted { self.new ≡ record self.old { round = with_name self.old.round } }
    {
        self.tallies.push_reserved(Tally::default());
    }

    /// The due watchers, by creation.
    pub fn due(&self) -> &VecDeque<DueWatcher>
        ensures due { result.now.items ≡ self.now.round.due }
        // At all times each of them has room and a run left, and no name has run more than 8 times.
        ensures round { IsRound self.now }
    {
        &self.due
    }

    /// A round begins: nobody is due, no name has run, and none is over. Takes time in proportion to the names that ran
    /// in the round before, however many there are.
    pub fn begin(&mut self)
        ensures { self.new ≡ begun self.old }
    {
        clear_all(&mut self.tallies, &self.ran);
        self.ran.clear();
        self.due.clear();
    }

    /// A notice to a watcher, whose name this is: it is due, or its name has run as often as it may in this round. No
    /// other due watcher was told by this name, and where this one is due, it was told by this name.
    pub fn told(&mut self, watcher: ObjId, name: NameId) -> Notice
        requires low { watcher < self.old.nodes }
        requires named { name < length self.old.round.tallies }
        requires only { IsOnly watcher name self.old.round.due }
        ensures notice { result ≡ notice_of (tally_at self.old.round name) }
        ensures told { self.new ≡ record self.old { round = with_notice watcher name self.old.round } }
        ensures left { runs_left self.new.round ≡ runs_left self.old.round }
    {
        let tally = self.tallies[name.place()];
        if tally.runs < MOST_RUNS {
            let at = place_near(&self.due, watcher, self.near);
            put_in(&mut self.due, at, DueWatcher { watcher, name });
            self.near = at + 1;
            return Notice::Due;
        }
        if tally.over {
            return Notice::OverAgain;
        }
        self.tallies[name.place()] = Tally {
            runs: tally.runs,
            over: true,
        };
        Notice::OverFirst
    }

    /// Whether a watcher is seen to be due already, behind the watcher that was told last: a notice to it changes nothing then.
    pub fn stays_due(&mut self, watcher: ObjId) -> bool
        ensures same { self.new ≡ self.old }
        ensures due { result ≡ true → (name : ℕ) → IsOnly watcher name self.old.round.due
            → (notice_of (tally_at self.old.round name) ≡ Due) × (with_notice watcher name self.old.round ≡ self.old.round) }
    {
        if !is_at(&self.due, self.near, watcher) {
            return false;
        }
        self.near += 1;
        true
    }

    /// The watcher that runs next, if one is due: it is due no more, and a run more of its name has begun.
    pub fn next_due<P: Picker>(&mut self, picker: &mut P) -> Option<ObjId>
        ensures due { result ≡ watcher_at (P.at picker.old (length self.old.round.due)) self.old.round }
        ensures ran { self.new ≡ record self.old {
          round = with_run (P.at picker.old (length self.old.round.due)) self.old.round;
        } }
        ensures picker { picker.new
            ≡ (if length self.old.round.due == 0 then picker.old else P.after picker.old (length self.old.round.due)) }
        // Every round ends: a run takes one of the runs that are left, of which each name has 8 at first.
        ensures left { OnSome result (runs_left self.new.round + 1 ≡ runs_left self.old.round) }
        ensures most { runs_left self.old.round ≤ 8 * length self.old.round.tallies }
        ensures round { IsRound self.new }
    {
        if self.due.is_empty() {
            return None;
        }
        let at = picker.pick(self.due.len() as u32) as usize;
        match self.due.remove(at) {
            Some(next) => {
                count_run(&mut self.tallies, &mut self.ran, next.name);
                Some(next.watcher)
            }
            None => unreachable!(),
        }
    }

    /// The watcher is not due: it was dropped, or has no registration left.
    pub fn gone(&mut self, watcher: ObjId)
        requires { watcher < self.old.nodes }
        ensures gone { self.new ≡ record self.old { round = gone watcher self.old.round } }
        ensures left { runs_left self.new.round ≡ runs_left self.old.round }
    {
        take_out(&mut self.due, watcher);
    }
}

// A run more of a name has begun.
fn count_run(tallies: &mut Vec<Tally>, ran: &mut Vec<NameId>, name: NameId)
    requires named { name < length tallies.old.items }
    requires left { (slice_index_or tallies.old.items name blank).runs < 8 }
    requires tracks { IsTracked tallies.old.items ran.old.items }
    requires room { length tallies.old.items ≤ vec_capacity ran.old }
    ensures counted { tallies.new.items
        ≡ slice_set tallies.old.items name (one_more (slice_index_or tallies.old.items name blank)) }
    ensures tracks { IsTracked tallies.new.items ran.new.items }
    ensures room { vec_capacity ran.new ≡ vec_capacity ran.old }
    ensures counts { vec_capacity tallies.new ≡ vec_capacity tallies.old }
{
    let tally = tallies[name.place()];
    if tally.runs == 0 {
        ran.push_reserved(name);
    }
    tallies[name.place()] = Tally {
        runs: tally.runs + 1,
        over: tally.over,
    };
}

// The greater of two numbers.
fn greater(one: usize, other: usize) -> usize
    ensures { result ≡ max one other }
{
    if one < other { other } else { one }
}

// Finds the room for so many names.
fn find_room(
    tallies: &mut Vec<Tally>,
    ran: &mut Vec<NameId>,
    names: usize,
) -> Result<(), AllocError>
    requires tallies { length tallies.old.items ≤ names }
    requires ran { length ran.old.items ≤ names }
    ensures tallies { tallies.new.items ≡ tallies.old.items }
    ensures ran { ran.new.items ≡ ran.old.items }
    ensures kept { (vec_capacity tallies.old ≤ vec_capacity tallies.new) × (vec_capacity ran.old ≤ vec_capacity ran.new) }
    ensures room { OnOk result ((names ≤ vec_capacity tallies.new) × (names ≤ vec_capacity ran.new)) }
{
    tallies.reserve(names - tallies.len())?;
    ran.reserve(names - ran.len())
}

// So many names more, none of which has run.
fn extend(tallies: &mut Vec<Tally>, more: usize)
    requires room { length tallies.old.items + more ≤ vec_capacity tallies.old }
    ensures items { tallies.new.items ≡ tallies.old.items ++ replicate more blank }
    ensures room { vec_capacity tallies.new ≡ vec_capacity tallies.old }
{
    for _ in 0..more {
        tallies.push_reserved(Tally::default());
    }
}

// None of these names has run.
fn clear_all(tallies: &mut Vec<Tally>, names: &[NameId])
    requires { IsTracked tallies.old.items names.now }
    ensures items { tallies.new.items ≡ replicate (length tallies.old.items) blank }
    ensures room { vec_capacity tallies.new ≡ vec_capacity tallies.old }
{
    for name in names {
        tallies[name.place()] = Tally::default();
    }
}

// Lists of due watchers stand in the order of their creation. At both ends one is put in and taken out without a move of the others.

// Puts a watcher in at its place, unless it is there.
fn put_in(due: &mut VecDeque<DueWatcher>, at: usize, entry: DueWatcher)
    requires place { IsPlace due.old.items entry.watcher at }
    requires room { length (with_due entry due.old.items) ≤ deque_capacity due.old }
    ensures items { due.new.items ≡ with_due entry due.old.items }
    ensures room { deque_capacity due.old ≤ deque_capacity due.new }
{
    if !is_at(due, at, entry.watcher) {
        match due.insert(at, entry) {
            Ok(()) => {}
            Err(_) => unreachable!(),
        }
    }
}

// Takes a watcher out, if it is there.
fn take_out(due: &mut VecDeque<DueWatcher>, watcher: ObjId)
    requires rising { IsRising due.old.items }
    ensures items { due.new.items ≡ without watcher due.old.items }
    ensures room { deque_capacity due.new ≡ deque_capacity due.old }
{
    let at = place_of(due, watcher);
    if is_at(due, at, watcher) {
        match due.remove(at) {
            Some(_) => {}
            None => unreachable!(),
        }
    }
}

// How many of them were created before a watcher. Whether it stands at the place that is guessed is seen first.
fn place_near(due: &VecDeque<DueWatcher>, watcher: ObjId, guess: usize) -> usize
    requires { IsRising due.now.items }
    ensures { IsPlace due.now.items watcher result }
{
    if is_at(due, guess, watcher) {
        return guess;
    }
    if is_last(due, watcher) {
        return due.len();
    }
    place_of(due, watcher)
}

// Whether a watcher stands at a place.
fn is_at(due: &VecDeque<DueWatcher>, at: usize, watcher: ObjId) -> bool
    ensures { result ≡ is_at due.now.items at watcher }
{
    match due.get(at) {
        Some(entry) => entry.watcher == watcher,
        None => false,
    }
}

// Whether all of them were created before a watcher.
fn is_last(due: &VecDeque<DueWatcher>, watcher: ObjId) -> bool
    requires { IsRising due.now.items }
    ensures { result ≡ true → IsPlace due.now.items watcher (length due.now.items) }
{
    match due.back() {
        Some(last) => last.watcher.place() < watcher.place(),
        None => true,
    }
}

// How many of them were created before a watcher.
fn place_of(due: &VecDeque<DueWatcher>, watcher: ObjId) -> usize
    requires { IsRising due.now.items }
    ensures { IsPlace due.now.items watcher result }
{
    let mut low: usize = 0;
    let mut high: usize = due.len();
    while low < high {
        let middle = low + (high - low) / 2;
        if due[middle].watcher.place() < watcher.place() {
            low = middle + 1;
        } else {
            high = middle;
        }
    }
    low
}
