// The calls of a desk that take `&mut self`: they make, change, link, remove, watch, freeze, defer and compute objects.
ghost use Rattle.std.specs.Prelude.{◌≡◌, ◌≢◌, ◌↔◌, ℕ, ℤ, List, Option, Err, ◌⊎◌, ◌<◌, ◌^◌, ◌==◌, not, if◌then◌else◌, true, false, pos, Some, None, length, IsOk, IfOk, OnOk, OnErr, ◌≤◌, unsigned_abs, slice_index_or, ◌||◌, [], ◌∷◌, is_some, IfSome, IfNone};
ghost use Rattle.desk_terms.specs.Reading.{Calc, AreInRange, IsFitting};
ghost use Rattle.desk_model.specs.Market.{kind_at, terms_at, slot_at, is_given, is_watcher, is_observable, least_user};
ghost use Rattle.desk_model.specs.Told.{is_registered};
ghost use Rattle.desk_model.specs.Uses.{index_at, fixings_in, input_at};
ghost use Rattle.desk_model.specs.State.{kept_at, held_outcome, is_frozen, is_late, least_source};
ghost use Rattle.desk_model.specs.Sound.{IsSound, KeepsCurrent};
ghost use Rattle.desk_model.specs.Links.{AreOfKind, Serve, is_lazy_at, reaches, serves_as, CanTell, IsValued};
ghost use Rattle.desk_model.specs.Effect.{made, quote_set, relinked, engine_set, member_set, fixing_added, today_set, dropped, watching, registered_with, unregistered, frozen_set, thawed, forward_set, deferred, resumed, with_terms, revised, notified, handed_out};
ghost use Rattle.desk_terms.specs.declared.kind.Kind.TheVariants.{Quote, Index, Composite, Flows};
ghost use Rattle.desk_terms.specs.declared.kind.Wanted.TheVariants.{Member, Engine};
ghost use Rattle.desk_terms.specs.Terms.{optional_reference};
ghost use Rattle.flow_terms.specs.Fixings.{IsRate, fixing_on};
ghost use Rattle.flow_terms.specs.declared.fixings.FixFault.TheVariants.{Exists};
ghost use Rattle.desk_terms.specs.declared.terms.HandleKind.{HandleKind};
ghost use Rattle.desk_terms.specs.declared.terms.Terms.TheVariants.{Handle, Quote};
ghost use Rattle.desk_terms.specs.declared.terms.Terms.TheVariants as terms_of;
ghost use Rattle.desk_terms.specs.declared.terms.Part.{Part};
ghost use Rattle.desk_model.specs.Laws.{MayLink};
ghost use Rattle.object_store.specs.Slots.{is_handle, outdated};
ghost use Rattle.object_store.specs.Objects.{has_quote};
ghost use Rattle.object_store.specs.Parts.{parts_in};
ghost use Rattle.desk_model.specs.Changeable.{weight_of, has_member, with_member};
ghost use Rattle.ask_walk.specs.Recalcs.{RecalcEnds, RecalcStops};
ghost use Rattle.lazy_objects.specs.Untold.{TellsNobody};
ghost use Rattle.desk_model.specs.declared.slot.Slot.TheVariants.{Live, Free};
ghost use Rattle.object_store.specs.Market.{market_in, state_in};
ghost use Rattle.object_store.specs.Shape.{registrations_of, IsJoined};
ghost use Rattle.object_store.specs.Store.{HasNoMarkWhereOff};
ghost use Rattle.desk_terms.specs.declared.value.Value as priced;
ghost use Rattle.ask_walk.specs.Asks.{Asks, Stops, AnswersIdly, held_answer};

use crate::Desk;
use crate::links::{link_of, watch_instead};
use crate::room::make_room;
use crate::weights::{has_weight, place_of, weigh};
use ask_walk::{AtOnce, Recalced};
use day_number::Day;
use desk_model::Entry;
use desk_names::ObjId;
use desk_terms::{Asked, Bench, FixFault, Terms, Value};
use fixed_amount::Rate;
use object_store::{Market, Store, TODAY, engine_of, parts_of, watched};
use observer_graph::Flags;
use std::alloc::AllocError;

impl Desk {
    /// Makes an object with these terms and returns its number, which is the count of numbers given before. Its inputs must be
    /// live and of the kinds that the terms require, and the terms of a curve, an index or flows within their limits.
    ///
    /// # Errors
    ///
    /// `AllocError` where memory runs out. Then nothing has changed.
    pub fn add(&mut self, terms: Terms) -> Result<ObjId, AllocError>
        requires ranged { AreInRange terms }
        requires kinds { AreOfKind self.old.market (Some terms) }
        requires room { length self.old.market.objects < 2 ^ 16 }
        ensures number { IfOk result (λ object. object ≡ length self.old.market.objects) }
        ensures added { OnOk result (self.new ≡ made terms self.old) }
        ensures same { OnErr result (self.new ≡ self.old) }
        ensures keeps { KeepsCurrent self.old self.new }
        ensures sound { (calc : Calc) → IsSound calc self.old → IsSound calc self.new }
    {
        let object = ObjId(self.market.objects.len() as u32);
        let watched = watched(self.books.scratch.alloc(), &terms)?;
        self.books.scratch.reserve()?;
        make_room(&mut self.books.store, &terms, self.market.objects.len())?;
        self.market
            .objects
            .add(terms, &mut self.books.store, &watched)?;
        self.books.scratch.grow();
        Ok(object)
    }

    /// Sets the value of a quote, or unsets it with `None`. A changed value notifies the observers of the quote.
    pub fn set_quote(&mut self, quote: ObjId, value: Option<Rate>)
        requires { kind_at self.old.market quote ≡ Some Quote }
        ensures set { self.new ≡ quote_set quote value self.old }
        ensures keeps { KeepsCurrent self.old self.new }
        ensures sound { (calc : Calc) → IsSound calc self.old → IsSound calc self.new }
    {
        if self.market.objects.set(quote, value) {
            tell_changed(&self.market, &mut self.books.store, quote);
        }
    }

    /// Links a handle to another target, or to none (QuantLib's `RelinkableHandle::linkTo`). The target must be live, of the
    /// handle's kind, and must not depend on the handle. Linking the current target again notifies nobody. Takes no memory. The
    /// cost grows with the number of notified objects.
    pub fn relink(&mut self, handle: ObjId, target: Option<ObjId>)
        requires handle { is_handle (terms_at self.old.market handle) ≡ true }
        requires kinds { (kind : HandleKind) (held : Option ℕ) → terms_at self.old.market handle ≡ Some (Handle kind held) → AreOfKind self.old.market (Some (Handle kind target)) }
        requires open { MayLink self.old.market handle target }
        ensures set { self.new ≡ relinked handle target self.old }
        ensures keeps { KeepsCurrent self.old self.new }
        ensures sound { (calc : Calc) → IsSound calc self.old → IsSound calc self.new }
    {
        let link = link_of(&self.market.objects, handle);
        if link.target == target {
            return;
        }
        watch_instead(&mut self.books.store, &link.target, &target, handle);
        revise(
            &mut self.market,
            &mut self.books.store,
            handle,
            Terms::Handle {
                target_kind: link.kind,
                target,
            },
        );
    }

    /// Sets or removes the pricing engine of an instrument (QuantLib's `Instrument::setPricingEngine`). The instrument becomes
    /// out of date and its observers are notified, even if the engine is the current one. Takes no memory. The cost grows with
    /// the number of notified objects.
    pub fn set_engine(&mut self, instrument: ObjId, engine: Option<ObjId>)
        requires instrument { kind_at self.old.market instrument ≡ Some Flows }
        requires engine { Serve self.old.market (optional_reference Engine engine) }
        ensures set { self.new ≡ engine_set instrument engine self.old }
        ensures keeps { KeepsCurrent self.old self.new }
        ensures sound { (calc : Calc) → IsSound calc self.old → IsSound calc self.new }
    {
        let held = engine_of(&self.market.objects, instrument);
        watch_instead(&mut self.books.store, &held, &engine, instrument);
        self.market.objects.set_engine(instrument, engine);
        tell_changed(&self.market, &mut self.books.store, instrument);
    }

    /// Stores a fixing of an index for a day without one, and notifies the observers of the index (QuantLib's
    /// `Index::addFixing`). The rate is at most 10 (1,000 per cent) in size.
    ///
    /// # Errors
    ///
    /// `FixFault::Exists` with the stored rate where the day has a fixing, and `NoMemory` where memory runs out. Then
    /// nothing has changed.
    pub fn add_fixing(&mut self, index: ObjId, day: Day, rate: Rate) -> Result<(), FixFault>
        requires index { kind_at self.old.market index ≡ Some Index }
        requires rate { IsRate rate }
        ensures exists { (kept : ℤ) → (result ≡ Err (Exists kept)) ↔ (fixing_on (fixings_in (index_at self.old.market (Some index))) day ≡ Some kept) }
        ensures added { OnOk result (self.new ≡ fixing_added index day rate self.old) }
        ensures same { OnErr result (self.new ≡ self.old) }
        ensures keeps { KeepsCurrent self.old self.new }
        ensures sound { (calc : Calc) → IsSound calc self.old → IsSound calc self.new }
    {
        self.market.objects.store_fixing(index, day, rate)?;
        tell_changed(&self.market, &mut self.books.store, index);
        Ok(())
    }

    /// Sets the evaluation date. If the day differs, all its observers are notified.
    pub fn set_today(&mut self, day: Day)
        ensures set { self.new ≡ today_set day self.old }
        ensures keeps { KeepsCurrent self.old self.new }
        ensures sound { (calc : Calc) → IsSound calc self.old → IsSound calc self.new }
    {
        if self.market.today == day {
            return;
        }
        self.market.today = day;
        self.books.store.changed(TODAY);
    }

    /// Sets the weight of a member of a composite (QuantLib's `CompositeInstrument::add`). A new member is appended, an existing
    /// one keeps its place, and weight 0 removes it. A new member must not depend on the composite. The weight is at most
    /// 1,000,000 in size, and the composite has at most 4,096 members. Setting the current weight again notifies nobody.
    ///
    /// # Errors
    ///
    /// `AllocError` where memory runs out. Then nothing has changed. `ready` says when it cannot.
    pub fn set_member(
        &mut self,
        composite: ObjId,
        member: ObjId,
        weight: i64,
    ) -> Result<(), AllocError>
        requires composite { kind_at self.old.market composite ≡ Some Composite }
        requires member { serves_as (kind_at self.old.market member) Member ≡ true }
        requires open { (weight ≡ pos 0) ⊎ ((member ≢ composite) × (reaches self.old.market member composite ≡ false)) }
        requires limit { unsigned_abs weight ≤ 1_000_000 }
        requires count { (parts : List Part) → terms_at self.old.market composite ≡ Some (terms_of.Composite parts) → length (with_member parts member weight) ≤ 4096 }
        ensures set { OnOk result (self.new ≡ member_set composite member weight self.old) }
        ensures same { OnErr result (self.new ≡ self.old) }
        // The current weight, and another one of a member that stays, take no memory.
        ensures ready { weight_of (parts_in (slot_at self.old.market composite)) member ≡ weight → IsOk result }
        ensures stays { has_member (parts_in (slot_at self.old.market composite)) member ≡ true → weight ≢ pos 0 → IsOk result }
        ensures keeps { KeepsCurrent self.old self.new }
        ensures sound { (calc : Calc) → IsSound calc self.old → IsSound calc self.new }
    {
        let is_member = self.books.store.has_pair(member, composite);
        let parts = parts_of(&self.market.objects, composite);
        let place = place_of(parts, is_member, member);
        if has_weight(parts, member, place, weight) {
            return Ok(());
        }
        weigh(
            self.books.scratch.alloc(),
            &mut self.market.objects,
            &mut self.books.store,
            composite,
            member,
            weight,
            place,
        )?;
        tell_changed(&self.market, &mut self.books.store, composite);
        Ok(())
    }

    /// Removes an object that no object observes, or a watcher, with its value and its registrations. Its number is not used
    /// again.
    pub fn remove(&mut self, object: ObjId)
        requires live { is_given (slot_at self.old.market object) ≡ true }
        requires apart { object ≢ 0 }
        requires unused { least_user self.old.market object ≡ None }
        ensures removed { self.new ≡ dropped object self.old }
        ensures keeps { KeepsCurrent self.old self.new }
        ensures sound { (calc : Calc) → IsSound calc self.old → IsSound calc self.new }
    {
        self.market.objects.remove(object);
        self.books.store.forget(object);
    }

    /// Makes a watcher without registrations and returns its number, which is the count of numbers given before.
    ///
    /// # Errors
    ///
    /// `AllocError` where memory runs out. Then nothing has changed.
    pub fn add_watcher(&mut self) -> Result<ObjId, AllocError>
        requires room { length self.old.market.objects < 2 ^ 16 }
        ensures number { IfOk result (λ watcher. watcher ≡ length self.old.market.objects) }
        ensures added { OnOk result (self.new ≡ watching self.old) }
        ensures same { OnErr result (self.new ≡ self.old) }
        ensures keeps { KeepsCurrent self.old self.new }
        ensures sound { (calc : Calc) → IsSound calc self.old → IsSound calc self.new }
    {
        let watcher = ObjId(self.market.objects.len() as u32);
        self.books.scratch.reserve()?;
        self.market.objects.add_watcher(&mut self.books.store)?;
        self.books.scratch.grow();
        Ok(watcher)
    }

    /// Registers a watcher with an object that is no watcher (QuantLib's `Observer::registerWith`). Returns false, and changes
    /// nothing, exactly if it was registered already. A registration is no dependency: it keeps no object from being removed, and
    /// is part of no cycle. The cost grows with the number of the watcher's registrations.
    ///
    /// # Errors
    ///
    /// `AllocError` where memory runs out. Then nothing has changed.
    pub fn register(&mut self, watcher: ObjId, object: ObjId) -> Result<bool, AllocError>
        requires watcher { is_watcher (slot_at self.old.market watcher) ≡ true }
        requires subject { is_observable (slot_at self.old.market object) ≡ true }
        ensures was { IfOk result (λ is_new. is_new ≡ not (is_registered self.old watcher object)) }
        ensures set { IfOk result (λ is_new. self.new ≡ (if is_new then registered_with watcher object self.old else self.old)) }
        ensures same { OnErr result (self.new ≡ self.old) }
        ensures keeps { KeepsCurrent self.old self.new }
        ensures sound { (calc : Calc) → IsSound calc self.old → IsSound calc self.new }
    {
        if self.books.store.has_pair(object, watcher) {
            return Ok(false);
        }
        let store = &mut self.books.store;
        store.deferral.graph.watch(object, watcher)?;
        Ok(true)
    }

    /// Removes a registration and returns whether there was one (QuantLib's `Observer::unregisterWith`). Deferred notifications
    /// stay. Takes no memory.
    pub fn unregister(&mut self, watcher: ObjId, object: ObjId) -> bool
        requires watcher { is_watcher (slot_at self.old.market watcher) ≡ true }
        requires subject { is_observable (slot_at self.old.market object) ≡ true }
        ensures was { result ≡ is_registered self.old watcher object }
        ensures set { self.new ≡ unregistered watcher object self.old }
        ensures keeps { KeepsCurrent self.old self.new }
        ensures sound { (calc : Calc) → IsSound calc self.old → IsSound calc self.new }
    {
        let store = &mut self.books.store;
        store.deferral.graph.unwatch(object, watcher)
    }

    /// Freezes a lazy object (QuantLib's `LazyObject::freeze`): until it is thawed it returns its last value and passes on no
    /// notification. Notifies nobody and takes no memory.
    pub fn freeze(&mut self, object: ObjId)
        requires lazy { is_lazy_at self.old.market object ≡ true }
        ensures set { self.new ≡ frozen_set object self.old }
        ensures keeps { KeepsCurrent self.old self.new }
        ensures sound { (calc : Calc) → IsSound calc self.old → IsSound calc self.new }
    {
        let store = &mut self.books.store;
        let flags = store.deferral.graph.flags(object);
        let frozen = Flags {
            frozen: true,
            ..flags
        };
        store.deferral.graph.set_flags(object, frozen);
    }

    /// Thaws a lazy object and notifies its observers, at once or deferred (QuantLib's `LazyObject::unfreeze`). Does nothing if
    /// it is not frozen. Takes no memory. The cost grows with the number of notified objects.
    pub fn thaw(&mut self, object: ObjId)
        requires lazy { is_lazy_at self.old.market object ≡ true }
        ensures set { self.new ≡ thawed object self.old }
        ensures keeps { KeepsCurrent self.old self.new }
        ensures sound { (calc : Calc) → IsSound calc self.old → IsSound calc self.new }
    {
        if self.books.store.thaw(object) {
            self.books.store.changed(object);
        }
    }

    /// Sets whether a lazy object passes on each notification, even while it is out of date (QuantLib's
    /// `LazyObject::alwaysForwardNotifications`). Notifies nobody and takes no memory.
    pub fn forward(&mut self, object: ObjId, on: bool)
        requires lazy { is_lazy_at self.old.market object ≡ true }
        ensures set { self.new ≡ forward_set object on self.old }
        ensures keeps { KeepsCurrent self.old self.new }
        ensures sound { (calc : Calc) → IsSound calc self.old → IsSound calc self.new }
    {
        let store = &mut self.books.store;
        let flags = store.deferral.graph.flags(object);
        let forwarding = Flags {
            forward: on,
            ..flags
        };
        store.deferral.graph.set_flags(object, forwarding);
    }

    /// Turns deferral on (QuantLib's `ObservableSettings::disableUpdates`, deferred): each object that changes from now on
    /// becomes a deferred source, which notifies its observers on `resume`. Takes no memory.
    pub fn defer(&mut self)
        ensures set { self.new ≡ deferred self.old }
        ensures keeps { KeepsCurrent self.old self.new }
        ensures sound { (calc : Calc) → IsSound calc self.old → IsSound calc self.new }
    {
        let store = &mut self.books.store;
        store.deferral.defer();
    }

    /// Turns deferral off (QuantLib's `ObservableSettings::enableUpdates`): all deferred sources notify together. Does nothing if
    /// deferral is off. Takes no memory. The cost grows with the number of notified objects.
    pub fn resume(&mut self)
        ensures set { self.new ≡ resumed self.old }
        ensures keeps { KeepsCurrent self.old self.new }
        ensures sound { (calc : Calc) → IsSound calc self.old → IsSound calc self.new }
    {
        let store = &mut self.books.store;
        store.deferral.resume();
    }

    /// Recomputes a lazy object from its inputs, whatever its flags are, and notifies its observers, at once or deferred. Returns
    /// a refusal if a deferred source makes the object late.
    ///
    /// # Errors
    ///
    /// `AllocError` where memory runs out. Then inputs that were recomputed keep their values, and the object is as before.
    pub fn recalc<B: Bench>(&mut self, object: ObjId, bench: &mut B) -> Result<Recalced, AllocError>
        requires lazy { is_lazy_at self.old.market object ≡ true }
        requires sound { IsSound (B.calc bench.old) self.old }
        ensures same { B.calc bench.new ≡ B.calc bench.old }
        ensures ends { IfOk result (λ answer. RecalcEnds (B.calc bench.old) object self.old self.new answer
            (B.count bench.old) (B.count bench.new) (B.log bench.old) (B.log bench.new)) }
        ensures stops { OnErr result (RecalcStops (B.calc bench.old) object self.old self.new
            (B.count bench.old) (B.count bench.new) (B.log bench.old) (B.log bench.new)) }
        // Out of memory, its flags and its last value are as before, and nobody was notified.
        ensures kept { OnErr result (kept_at self.new object ≡ kept_at self.old object) }
        ensures untold { OnErr result (TellsNobody self.old self.new) }
        ensures sound { IsSound (B.calc bench.old) self.new }
    {
        self.books.recalc(&self.market, object, bench)
    }

    /// Takes the first notified watcher, by creation, and forgets its notification. A watcher that was notified several times is
    /// returned once. `None` if there is none. Takes no memory.
    pub fn next_told(&mut self) -> Option<ObjId>
        ensures none { IfNone result ((self.old.noticed ≡ []) × (self.new ≡ self.old)) }
        ensures some { IfSome result (λ watcher. (self.old.noticed ≡ watcher ∷ self.new.noticed)
            × (self.new ≡ record self.old { noticed = self.new.noticed })) }
        ensures handed { IfSome result (λ watcher. self.new ≡ handed_out watcher self.old) }
        ensures watcher { IfSome result (λ watcher. is_watcher (slot_at self.old.market watcher) ≡ true) }
        ensures keeps { KeepsCurrent self.old self.new }
        ensures sound { (calc : Calc) → IsSound calc self.old → IsSound calc self.new }
    {
        let store = &mut self.books.store;
        store.deferral.graph.next_told()
    }

    /// Asks for the value of a lazy object. Recomputes only what the object uses and is out of date.
    ///
    /// # Errors
    ///
    /// `AllocError` where memory runs out. Then objects that were recomputed keep their values.
    pub fn ask<B: Bench>(&mut self, object: ObjId, bench: &mut B) -> Result<Asked, AllocError>
        requires lazy { is_lazy_at self.old.market object ≡ true }
        requires sound { IsSound (B.calc bench.old) self.old }
        ensures same { B.calc bench.new ≡ B.calc bench.old }
        ensures asks { IfOk result (λ answer. Asks (B.calc bench.old) object self.old self.new answer
            (B.count bench.old) (B.count bench.new) (B.log bench.old) (B.log bench.new)) }
        ensures stops { OnErr result (Stops (B.calc bench.old) object self.old self.new
            (B.count bench.old) (B.count bench.new) (B.log bench.old) (B.log bench.new)) }
        // An ask of a frozen, late or current object takes no memory.
        ensures ready { (held_outcome self.old object ≢ None) ⊎ ((kept_at self.old object).current ≡ true) → IsOk result }
        ensures few { IfOk result (λ answer. answer.runs < 2 ^ 17) }
        // The last value is one of the object's kind.
        ensures valued { (value : priced.Value) → (kept_at self.new object).last ≡ Some value → IsValued (terms_at self.new.market object) object value }
        ensures sound { IsSound (B.calc bench.old) self.new }
    {
        self.books.ask(&self.market, object, bench)
    }

    /// Returns the result of an ask of a frozen, late or current object: its last value, or that it has none. `None` exactly if
    /// the object is none of these. Computes nothing and takes no memory.
    pub fn ask_held(&mut self, object: ObjId) -> Option<Asked>
        requires lazy { is_lazy_at self.old.market object ≡ true }
        ensures answer { result ≡ held_answer self.old object }
        ensures none { is_some result ≡ (is_frozen self.old object || (is_late self.old object || (kept_at self.old object).current)) }
        // An ask returns the same, for every bench for which the desk is sound.
        ensures asks { (calc : Calc) → IsFitting calc → IsSound calc self.old → IfSome result (AnswersIdly calc object self.old) }
        ensures same { self.new ≡ self.old }
    {
        match self.books.at_once(object) {
            AtOnce::Answers(answer) => Some(answer),
            AtOnce::Walks(_) => None,
        }
    }

    /// Returns the least deferred source that makes an object late, if there is one. Takes no memory.
    pub fn late(&mut self, object: ObjId) -> Option<ObjId>
        requires lazy { is_lazy_at self.old.market object ≡ true }
        ensures answer { result ≡ least_source self.old object }
        ensures same { self.new ≡ self.old }
    {
        let store = &mut self.books.store;
        store.deferral.late(object)
    }

    /// Returns whether `from` is `to` or depends on it, by any number of steps.
    pub fn reaches(&mut self, from: ObjId, to: ObjId) -> bool
        ensures answer { result ≡ ((from == to) || reaches self.old.market from to) }
        ensures same { self.new ≡ self.old }
    {
        if from == to {
            return true;
        }
        let store = &mut self.books.store;
        if !store.deferral.graph.is_live(from) || !store.deferral.graph.is_live(to) {
            return false;
        }
        store.deferral.graph.reaches(from, to)
    }

    /// Returns what an object gives to those that name it: a quote its rate, a handle what its target gives, a lazy object itself.
    ///
    /// # Errors
    ///
    /// `AllocError` where memory runs out.
    pub fn given(&mut self, object: ObjId) -> Result<Entry, AllocError>
        requires within { object < length self.old.market.objects }
        ensures entry { IfOk result (λ entry. entry ≡ input_at self.old.market object) }
        ensures same { self.new ≡ self.old }
    {
        self.books.given(&self.market, object)
    }
}

// Replaces the terms of an object that is no quote. It becomes out of date, and its observers are notified, at once or
// deferred. The graph is that of the new terms. Takes no memory. The cost grows with the number of notified objects.
fn revise(market: &mut Market, store: &mut Store, object: ObjId, terms: Terms)
    requires within { object < length market.old.objects }
    requires plain { has_quote (slice_index_or market.old.objects object Free) ≡ false }
    requires new { has_quote (Live terms) ≡ false }
    requires kept { length store.old.kept ≡ length market.old.objects }
    requires joined { IsJoined (with_terms object terms (state_in market.old store.old)).market store.old.shape }
    requires sources { HasNoMarkWhereOff store.old }
    requires told { CanTell (with_terms object terms (state_in market.old store.old)).market (registrations_of store.old.shape) store.old.noticed }
    ensures state { state_in market.new store.new ≡ revised object terms (state_in market.old store.old) }
    ensures shape { store.new.shape ≡ store.old.shape }
    ensures long { length market.new.objects ≡ length market.old.objects }
{
    market.objects.replace(object, terms);
    tell_changed(market, store, object);
}

// Marks an object with changed terms as out of date and notifies its observers, at once or deferred. The graph is that of the
// new terms. Takes no memory. The cost grows with the number of notified objects.
fn tell_changed(market: &Market, store: &mut Store, object: ObjId)
    requires within { object < length market.now.objects }
    requires live { is_given (slice_index_or market.now.objects object Free) ≡ true }
    requires kept { length store.old.kept ≡ length market.now.objects }
    requires joined { IsJoined (market_in market.now) store.old.shape }
    requires sources { HasNoMarkWhereOff store.old }
    requires told { CanTell (market_in market.now) (registrations_of store.old.shape) store.old.noticed }
    ensures state { state_in market.now store.new ≡ notified object (outdated object (state_in market.now store.old)) }
    ensures shape { store.new.shape ≡ store.old.shape }
{
    store.deferral.graph.outdate(object);
    store.changed(object);
}
