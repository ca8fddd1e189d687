// The objects of a session, and the calls that read them. In clauses a desk is its state.
ghost use Rattle.std.specs.Prelude.{◌≡◌, Option, ◌<◌, ◌^◌, [], true, Some, None, length, IfOk, ◌≤◌};
ghost use Rattle.std.specs.Option.{option_copied};
ghost use Rattle.desk_terms.specs.Reading.{Calc};
ghost use Rattle.desk_model.specs.Market.{kind_at, terms_at, slot_at, is_watcher, is_observable, least_user};
ghost use Rattle.desk_model.specs.Told.{is_registered, is_watching};
ghost use Rattle.desk_model.specs.Uses.{index_at, fixings_in};
ghost use Rattle.desk_model.specs.State.{kept_at, is_frozen};
ghost use Rattle.desk_model.specs.Sound.{IsSound};
ghost use Rattle.desk_model.specs.Links.{AreRanged, IsKinded, IsWhole};
ghost use Rattle.desk_model.specs.Effect.{start, watching};
ghost use Rattle.flow_terms.specs.Fixings.{fixing_on};
ghost use Rattle.object_store.specs.Objects.{bare};
ghost use Rattle.desk_terms.specs.declared.kind.Kind.TheVariants as kind;
ghost use Rattle.desk_terms.specs.declared.terms.Terms.TheVariants as terms;

use ask_walk::Books;
use day_number::Day;
use desk_names::ObjId;
use desk_terms::{InputList, Kind, Value};
use fixed_amount::Rate;
use object_store::{Market, Objects, Scratch, Store, index_of};
use observer_graph::Role;
use std::alloc::{AllocError, Global};
use std::marker::Model;
use std::ops::Deref;

/// The objects of a session by number, with their values and their observers. It allocates from the allocator that it was
/// made with. While deferral is on, a change notifies nobody until `resume`. A notified watcher is remembered until
/// `next_told` returns it.
pub struct Desk {
    pub(crate) market: Market,
    pub(crate) books: Books,
}

// Each exit of an owner of a desk calls this once, instead of dropping each field.
impl Drop for Desk {
    fn drop(self) {
        let Desk {
            market: _,
            books: _,
        } = self;
    }
}

/// The state of an object's value (QuantLib's `LazyObject`).
#[derive(Clone, Copy)]
pub struct Marks {
    /// No dependency has changed since the value was computed (`calculated_`).
    pub current: bool,
    /// The object returns its last value until it is thawed (`frozen_`).
    pub frozen: bool,
    /// The object changed while notifications are deferred, and has notified nobody yet: it is a deferred source.
    pub source: bool,
}

impl Model for Desk {
    ghost use Rattle.desk_model.specs.State.{State};
    ghost use Rattle.object_store.specs.Market.{market_in, state_in};
    ghost use Rattle.object_store.specs.Shape.{IsJoined};
    ghost use Rattle.lazy_objects.specs.Stands.{Stands};

    ghost Value = { State };

    ghost view = { λ d. state_in d.market d.books.store };

    ghost invariant = { λ d. Stands (state_in d.market d.books.store) d.books.scratch × IsJoined (market_in d.market) d.books.store.shape };
}

// The calls that read objects by number: `kind`, `terms`, `quote`, `len`.
impl Deref for Desk {
    type Target = Objects;

    fn deref(&self) -> &Objects
        ensures { result.now ≡ self.now.market.objects }
    {
        let _ = &self.books;
        &self.market.objects
    }
}

impl Desk {
    /// Makes a desk of `today` alone.
    ///
    /// # Errors
    ///
    /// `AllocError` where memory runs out.
    pub fn new(alloc: Global, today: Day) -> Result<Desk, AllocError>
        ensures start { IfOk result (λ desk. desk ≡ start today) }
        ensures sound { IfOk result (λ desk. (calc : Calc) → IsSound calc desk) }
    {
        let objects = Objects::new(alloc)?;
        let mut store = Store::new(alloc);
        store.add(Role::Source, &[])?;
        let mut scratch = Scratch::new(alloc);
        scratch.reserve()?;
        scratch.grow();
        Ok(Desk {
            market: Market { today, objects },
            books: Books {
                store,
                scratch,
                inputs: InputList::new(alloc),
                waiting: Vec::new(alloc),
            },
        })
    }

    /// Returns whether an object is a watcher that is registered with another. Takes no memory. The cost grows with the number of
    /// the watcher's registrations.
    pub fn is_registered(&self, watcher: ObjId, object: ObjId) -> bool
        ensures { result ≡ is_registered self.now watcher object }
    {
        if !self.books.store.is_live(object) {
            return false;
        }
        if !self.is_watcher(watcher) {
            return false;
        }
        self.books.store.has_pair(object, watcher)
    }

    /// Returns whether an object is a watcher with at least one registration.
    pub fn watching(&self, object: ObjId) -> bool
        ensures { result ≡ is_watching self.now object }
    {
        let books = &self.books;
        self.is_watcher(object) && books.store.has_subject(object)
    }

    // Returns whether an object is a watcher.
    fn is_watcher(&self, object: ObjId) -> bool
        ensures { result ≡ is_watcher (slot_at self.now.market object) }
    {
        let _ = &self.books;
        matches!(self.market.objects.kind(object), Some(Kind::Watcher))
    }

    /// Returns the least object that depends on another, if there is one. Watchers do not count.
    pub fn user_of(&self, object: ObjId) -> Option<ObjId>
        ensures { result ≡ least_user self.now.market object }
    {
        if !self.books.store.is_live(object) {
            return None;
        }
        self.books.store.least_observer(object)
    }

    /// Returns the last value of an object, if it has one.
    pub fn last(&self, object: ObjId) -> Option<&Value>
        ensures { option_copied result ≡ (kept_at self.now object).last }
    {
        self.books.store.last(object)
    }

    /// Returns the state of an object's value. All fields are false if no object has the number.
    pub fn marks(&self, object: ObjId) -> Marks
        ensures current { result.current ≡ (kept_at self.now object).current }
        ensures frozen { result.frozen ≡ (kept_at self.now object).frozen }
        ensures source { result.source ≡ (kept_at self.now object).source }
    {
        Marks {
            current: self.books.store.is_current(object),
            frozen: self.books.store.is_frozen(object),
            source: self.books.store.is_source(object),
        }
    }

    /// A law, which does nothing: in every desk each object names others of the right kinds, and its terms are in range.
    pub fn shape(&self)
        ensures whole { IsWhole self.now }
        ensures kinds { IsKinded self.now.market }
        ensures ranged { AreRanged self.now.market }
    {
        let _ = &self.books;
    }

    /// Returns the evaluation date.
    pub fn today(&self) -> Day
        ensures { result ≡ self.now.market.today }
    {
        let _ = &self.books;
        self.market.today
    }

    /// Returns the fixing that an index has for a day. `None` if it has none, or the object is no index.
    pub fn fixing(&self, index: ObjId, day: Day) -> Option<Rate>
        ensures { result ≡ fixing_on (fixings_in (index_at self.now.market (Some index))) day }
    {
        match index_of(&self.market.objects, index) {
            Some(index) => index.fixings.get(day),
            None => None,
        }
    }

    /// Returns how many numbers were given, with that of `today`.
    pub fn numbers(&self) -> u32
        ensures number { result ≡ length self.now.market.objects }
        ensures limit { result ≤ 2 ^ 16 }
    {
        self.market.objects.len() as u32
    }
}
