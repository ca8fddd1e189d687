// The values of objects and the graph of observers: the flags are in the graph, the last values beside it. Notifications may be
// deferred.
ghost use Rattle.std.specs.Prelude.{◌≡◌, ◌<◌, ◌^◌, ℕ, [], true, false, Some, None, length, is_some, OnOk, OnErr, slice_index_or, slice_set};
ghost use Rattle.std.specs.Option.{option_copied};
ghost use Rattle.walks.specs.Walk.{Among};
ghost use Rattle.observer_graph.specs.declared.node.Role.TheVariants as role;
ghost use Rattle.desk_terms.specs.declared.value.Value.TheVariants.{Money};
ghost use Rattle.desk_model.specs.State.{unpriced};
ghost use Rattle.desk_model.specs.Visit.{with_value};
ghost use Rattle.object_store.specs.Slots.{is_now, is_at_hand};
ghost use Rattle.object_store.specs.Late.{IsMarkOf};
ghost use Rattle.observer_graph.specs.GraphView.{node_at, is_source};
ghost use Rattle.object_store.specs.Shape.{role_at, shape_of, kept_as};
ghost use Rattle.object_store.specs.Store.{AddsObject, TakesObject, Notices, stored_at, marked, stored_as};

use deferred_sources::Deferral;
use desk_names::ObjId;
use desk_terms::{Mark, Value};
use fixed_amount::Amount;
use observer_graph::{Flags, Graph, Role, Standing};
use std::alloc::{AllocError, Global};
use std::marker::Model;
use std::ops::Deref;

/// The last values by number, the graph of observers, and its deferral.
#[derive(Drop)]
pub struct Store {
    /// The graph of observers, whose notifications may be deferred.
    pub deferral: Deferral,
    lasts: Vec<Option<Value>>,
}

impl Model for Store {
    ghost use Rattle.std.specs.Prelude.{◌≡◌, length};
    ghost use Rattle.object_store.specs.Shape.{kept_of, shape_of};
    ghost use Rattle.object_store.specs.Store.{StoreView};

    ghost Value = { StoreView };

    ghost view = { λ s. record { kept = kept_of s.deferral.graph s.lasts.items; shape = shape_of s.deferral.graph; deferring = s.deferral.on; noticed = s.deferral.graph.noticed } };

    ghost invariant = { λ s. (length s.deferral.graph.nodes ≡ length s.lasts.items) × (length s.deferral.graph.sources ≡ length s.lasts.items) };
}

impl Deref for Store {
    type Target = Graph;

    /// Returns the graph of observers.
    fn deref(&self) -> &Graph
        ensures shape { shape_of result.now ≡ self.now.shape }
        ensures kept { (o : ℕ) → stored_at self.now o ≡ kept_as (node_at result.now o) (is_source result.now o) (stored_at self.now o).last }
    {
        &self.deferral.graph
    }
}

impl Store {
    /// Starts without objects, and with deferral off.
    pub fn new(alloc: Global) -> Store
        ensures kept { result.kept ≡ [] }
        ensures switch { result.deferring ≡ false }
        ensures roles { result.shape.roles ≡ [] }
        ensures subjects { result.shape.subjects ≡ [] }
        ensures told { result.noticed ≡ [] }
    {
        Store {
            deferral: Deferral::new(Graph::new(alloc)),
            lasts: Vec::new(alloc),
        }
    }

    /// Adds an object without a value, which observes these objects.
    ///
    /// # Errors
    ///
    /// `AllocError` where memory runs out. Then nothing has changed.
    pub fn add(&mut self, role: Role, named: &[ObjId]) -> Result<(), AllocError>
        requires room { length self.old.kept < 2 ^ 16 }
        requires live { (x : ℕ) → Among x named.now → is_some (role_at self.old.shape x) ≡ true }
        ensures added { OnOk result (AddsObject role named.now self.old self.new) }
        ensures same { OnErr result (self.new ≡ self.old) }
    {
        self.lasts.reserve(1)?;
        self.deferral.graph.add_watching(role, named)?;
        self.lasts.push_reserved(None);
        Ok(())
    }

    /// Forgets the value of an object and removes all its pairs from the graph.
    pub fn forget(&mut self, object: ObjId)
        requires { is_some (role_at self.old.shape object) ≡ true }
        ensures { TakesObject object self.old self.new }
    {
        self.deferral.graph.remove(object);
        self.lasts[object.place()] = None;
    }

    /// Returns the last value of an object, if it has one.
    pub fn last(&self, object: ObjId) -> Option<&Value>
        ensures { option_copied result ≡ (slice_index_or self.now.kept object unpriced).last }
    {
        last_in(&self.lasts, object)
    }

    /// Stores the value of a lazy object, which is current from now on.
    #[inline(always)]
    pub fn keep(&mut self, object: ObjId, value: Value)
        requires { role_at self.old.shape object ≡ Some role.Lazy }
        ensures kept { self.new.kept ≡ slice_set self.old.kept object (with_value (slice_index_or self.old.kept object unpriced) (Some value)) }
        ensures shape { self.new.shape ≡ self.old.shape }
        ensures switch { self.new.deferring ≡ self.old.deferring }
        ensures told { self.new.noticed ≡ self.old.noticed }
    {
        self.deferral.graph.settle(object);
        self.lasts[object.place()] = Some(value);
    }

    /// Stores an amount as the value of a lazy object, which is current from now on.
    #[inline(always)]
    pub fn keep_money(&mut self, object: ObjId, amount: Amount)
        requires { role_at self.old.shape object ≡ Some role.Lazy }
        ensures kept { self.new.kept ≡ slice_set self.old.kept object (with_value (slice_index_or self.old.kept object unpriced) (Some (Money amount))) }
        ensures shape { self.new.shape ≡ self.old.shape }
        ensures switch { self.new.deferring ≡ self.old.deferring }
        ensures told { self.new.noticed ≡ self.old.noticed }
    {
        self.deferral.graph.settle(object);
        put_money(&mut self.lasts[object.place()], amount);
    }

    /// Thaws an object and returns whether it was frozen. Notifies nobody.
    pub fn thaw(&mut self, object: ObjId) -> bool
        requires { role_at self.old.shape object ≡ Some role.Lazy }
        ensures answer { result ≡ (stored_at self.old object).frozen }
        ensures thawed { result ≡ true → self.new ≡ stored_as object (record (stored_at self.old object) { frozen = false }) self.old }
        ensures same { result ≡ false → self.new ≡ self.old }
    {
        let flags = self.deferral.graph.flags(object);
        if flags.frozen {
            self.deferral
                .graph
                .set_flags(object, frozen_as(flags, false));
        }
        flags.frozen
    }

    /// Reports a change of an object: all that its notification reaches are out of date. While deferral is on, the object is marked
    /// instead and nobody is notified. Takes no memory. The cost grows with the number of notified objects.
    pub fn changed(&mut self, object: ObjId)
        requires { is_some (role_at self.old.shape object) ≡ true }
        ensures switch { self.new.deferring ≡ self.old.deferring }
        ensures held { self.old.deferring ≡ true → self.new ≡ marked object self.old }
        ensures told { self.old.deferring ≡ false → Notices (marked object self.old) self.new }
    {
        self.deferral.changed(object);
    }

    /// Returns whether an object is frozen.
    pub fn is_frozen(&self, object: ObjId) -> bool
        ensures { result ≡ (slice_index_or self.now.kept object unpriced).frozen }
    {
        if !self.deferral.graph.is_live(object) {
            return false;
        }
        self.deferral.graph.flags(object).frozen
    }

    /// Returns whether an object that depends on this one uses its last value without asking it.
    pub fn is_at_hand(&self, object: ObjId) -> bool
        ensures { result ≡ is_at_hand self.now.kept object }
    {
        self.is_current(object) || self.is_frozen(object)
    }

    /// Returns the mark of an ask of this object (frozen, late, held or fresh), and whether its value is current. The cost grows
    /// with its dependencies. It is constant if no object is frozen or a deferred source.
    #[inline(always)]
    pub fn met(&mut self, object: ObjId) -> (Mark, bool)
        requires { is_some (role_at self.old.shape object) ≡ true }
        ensures mark { IsMarkOf self.old object result.0 }
        ensures current { result.1 ≡ is_now self.old.kept object }
        ensures same { self.new ≡ self.old }
    {
        let mark = match self.deferral.graph.standing(object) {
            Standing::Frozen => Mark::Frozen,
            Standing::Late => Mark::Late,
            Standing::Held => Mark::Held,
            Standing::Clear => Mark::Fresh,
        };
        (mark, self.deferral.graph.is_current(object))
    }
}

// Makes an amount the last value, in its place if there is one.
#[inline(always)]
fn put_money(last: &mut Option<Value>, amount: Amount)
    ensures { last.new ≡ Some (Money amount) }
{
    match last {
        Some(Value::Money(held)) => *held = amount,
        Some(Value::Curve(_)) => *last = Some(Value::Money(amount)),
        None => *last = Some(Value::Money(amount)),
    }
}

// Returns the last value of an object, if it has one.
fn last_in(lasts: &[Option<Value>], object: ObjId) -> Option<&Value>
    ensures { option_copied result ≡ slice_index_or lasts.now object None }
{
    match lasts.get(object.place()) {
        Some(last) => last.as_ref(),
        None => None,
    }
}

// Returns flags of which the one for frozen is set or cleared.
fn frozen_as(flags: Flags, on: bool) -> Flags
    ensures { result ≡ record flags { frozen = on } }
{
    Flags {
        frozen: on,
        ..flags
    }
}
