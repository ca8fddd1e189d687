// The objects by number: their terms, and the values of quotes on a board of their own.
ghost use Rattle.std.specs.Prelude.{◌≡◌, ◌↔◌, ◌<◌, ◌^◌, ℕ, ℤ, Option, Err, ◌∷◌, ◌++◌, [], length, not, take, List, None, Some, false, true, is_some, IfOk, OnOk, OnErr, slice_index_or, slice_set};
ghost use Rattle.std.specs.Option.{option_copied};
ghost use Rattle.walks.specs.Walk.{Among};
ghost use Rattle.desk_terms.specs.declared.terms.Terms.TheVariants.{Quote, Index, Composite, Flows};
ghost use Rattle.desk_terms.specs.declared.terms.Part.{Part};
ghost use Rattle.desk_terms.specs.declared.kind.Kind.TheVariants as kind;
ghost use Rattle.flow_terms.specs.declared.indexes.IndexTerms.{IndexTerms};
ghost use Rattle.flow_terms.specs.declared.flows.FlowTerms.{FlowTerms};
ghost use Rattle.flow_terms.specs.declared.fixings.FixFault.TheVariants.{Exists};
ghost use Rattle.flow_terms.specs.Fixings.{IsRate, Stored, fixing_on, with_fixing};
ghost use Rattle.desk_model.specs.Changeable.{changeable};
ghost use Rattle.desk_model.specs.Market.{kind_in, terms_in, role_of};
ghost use Rattle.desk_model.specs.declared.slot.Slot.TheVariants.{Free, Today, Watcher, Live};
ghost use Rattle.observer_graph.specs.declared.node.Role.TheVariants as role;
ghost use Rattle.object_store.specs.Objects.{quoted, with_quote, bare, has_quote, has_own_terms};
ghost use Rattle.quote_board.specs.Board.{entry, IsPut, IsSame};
ghost use Rattle.object_store.specs.Shape.{node_role, role_at};
ghost use Rattle.object_store.specs.Parts.{parts_in};
ghost use Rattle.object_store.specs.Slots.{holds_value, has_fixings};
ghost use Rattle.object_store.specs.Store.{AddsObject};

use crate::edges::role_of;
use crate::engines::set_in;
use crate::fixings::store_in;
use crate::parts::{keep_in, push_in, put_in};
use crate::store::Store;
use day_number::Day;
use desk_model::Slot;
use desk_names::ObjId;
use desk_terms::{FixFault, Kind, Part, Terms};
use fixed_amount::Rate;
use observer_graph::Role;
use quote_board::Quotes;
use std::alloc::{AllocError, Global};
use std::marker::Model;

/// The objects by number. The values of quotes are on the board only.
#[derive(Drop)]
pub struct Objects {
    slots: Vec<Slot>,
    board: Quotes,
}

impl Model for Objects {
    ghost use Rattle.std.specs.Prelude.{List};
    ghost use Rattle.desk_model.specs.declared.slot.Slot.{Slot};
    ghost use Rattle.object_store.specs.Objects.{objects_of, IsBoarded};

    ghost Value = { List Slot };

    ghost view = { λ o. objects_of o.board o.slots.items };

    ghost invariant = { λ o. IsBoarded o.board o.slots.items };
}

impl Objects {
    /// Makes the evaluation date as the only object.
    ///
    /// # Errors
    ///
    /// `AllocError` where memory runs out.
    pub fn new(alloc: Global) -> Result<Objects, AllocError>
        ensures { IfOk result (λ objects. objects ≡ Today ∷ []) }
    {
        let mut slots: Vec<Slot> = Vec::new(alloc);
        slots.push(Slot::Today)?;
        Ok(Objects {
            slots,
            board: Quotes::new(alloc),
        })
    }

    /// Adds an object without a value, which observes these objects.
    ///
    /// # Errors
    ///
    /// `AllocError` where memory runs out. Then nothing has changed.
    pub fn add(
        &mut self,
        terms: Terms,
        store: &mut Store,
        watched: &[ObjId],
    ) -> Result<(), AllocError>
        requires room { length store.old.kept < 2 ^ 16 }
        requires fits { length self.old < 2 ^ 16 }
        requires live { (x : ℕ) → Among x watched.now → is_some (role_at store.old.shape x) ≡ true }
        ensures made { OnOk result (self.new ≡ self.old ++ (Live terms ∷ [])) }
        ensures added { OnOk result (AddsObject (node_role (role_of (Some terms))) watched.now store.old store.new) }
        ensures same { OnErr result (self.new ≡ self.old) }
        ensures unstored { OnErr result (store.new ≡ store.old) }
    {
        let object = ObjId(self.slots.len() as u32);
        let value = quoted(&terms);
        self.slots.reserve(1)?;
        make_room(&mut self.board, object, &value)?;
        store.add(role_of(&terms), watched)?;
        self.slots.push_reserved(Slot::Live(bare(terms)));
        put_any(&mut self.board, object, value);
        Ok(())
    }

    /// Adds a watcher, which observes nothing.
    ///
    /// # Errors
    ///
    /// `AllocError` where memory runs out. Then nothing has changed.
    pub fn add_watcher(&mut self, store: &mut Store) -> Result<(), AllocError>
        requires room { length store.old.kept < 2 ^ 16 }
        ensures made { OnOk result (self.new ≡ self.old ++ (Watcher ∷ [])) }
        ensures added { OnOk result (AddsObject role.Watcher [] store.old store.new) }
        ensures same { OnErr result (self.new ≡ self.old) }
        ensures unstored { OnErr result (store.new ≡ store.old) }
    {
        self.slots.reserve(1)?;
        store.add(Role::Watcher, &[])?;
        self.slots.push_reserved(Slot::Watcher);
        Ok(())
    }

    /// Returns how many numbers were given, with that of `today`.
    pub fn len(&self) -> usize
        ensures { result ≡ length self.now }
    {
        self.slots.len()
    }

    /// Returns the kind of an object. `None` if no live object has the number.
    pub fn kind(&self, object: ObjId) -> Option<Kind>
        ensures { result ≡ kind_in (slice_index_or self.now object Free) }
    {
        kind_of(&self.slots, object)
    }

    /// Returns the current terms of an object, with its links, members and fixings. Those of a quote are without its value, which
    /// `quote` returns. `None` for `today`, for a watcher, and if no live object has the number.
    pub fn terms(&self, object: ObjId) -> Option<&Terms>
        ensures { option_copied result ≡ bare (terms_in (slice_index_or self.now object Free)) }
    {
        terms_of(&self.slots, object)
    }

    /// Returns the terms of an object that is no quote.
    pub fn own_terms(&self, object: ObjId) -> &Terms
        requires { has_own_terms (slice_index_or self.now object Free) ≡ true }
        ensures { terms_in (slice_index_or self.now object Free) ≡ Some result.now }
    {
        match self.terms(object) {
            Some(terms) => terms,
            None => unreachable!(),
        }
    }

    /// Returns the value of a quote, if it has one. Takes no memory.
    pub fn quote(&self, quote: ObjId) -> Option<Rate>
        requires { kind_in (slice_index_or self.now quote Free) ≡ Some kind.Quote }
        ensures { terms_in (slice_index_or self.now quote Free) ≡ Some (Quote result) }
    {
        self.board.get(quote)
    }

    /// Sets or unsets a quote, and returns whether its value changed.
    pub fn set(&mut self, quote: ObjId, value: Option<Rate>) -> bool
        requires { has_quote (slice_index_or self.old quote Free) ≡ true }
        ensures changed { result ≡ not (holds_value value (slice_index_or self.old quote Free)) }
        ensures set { self.new ≡ slice_set self.old quote (Live (Quote value)) }
    {
        self.board.set(quote, value)
    }

    /// Replaces the terms of an object that is no quote by others that are no quote's.
    pub fn replace(&mut self, object: ObjId, terms: Terms)
        requires within { object < length self.old }
        requires old { has_quote (slice_index_or self.old object Free) ≡ false }
        requires new { has_quote (Live terms) ≡ false }
        ensures { self.new ≡ slice_set self.old object (Live terms) }
    {
        self.slots[object.place()] = Slot::Live(terms);
    }

    /// Sets or removes the engine of an instrument.
    pub fn set_engine(&mut self, instrument: ObjId, engine: Option<ObjId>)
        requires { kind_in (slice_index_or self.old instrument Free) ≡ Some kind.Flows }
        ensures { (flows : FlowTerms) (held : Option ℕ) → terms_in (slice_index_or self.old instrument Free) ≡ Some (Flows flows held) → self.new ≡ slice_set self.old instrument (Live (Flows flows engine)) }
    {
        set_in(&mut self.slots[instrument.place()], engine);
    }

    /// Stores a fixing of an index for a day without one.
    ///
    /// # Errors
    ///
    /// `FixFault::Exists` or `NoMemory`. Then nothing has changed.
    pub fn store_fixing(&mut self, index: ObjId, day: Day, rate: Rate) -> Result<(), FixFault>
        requires index { has_fixings (changeable (terms_in (slice_index_or self.old index Free))) ≡ true }
        requires rate { IsRate rate }
        ensures exists { (terms : IndexTerms) (fixings : Stored) → terms_in (slice_index_or self.old index Free) ≡ Some (Index terms fixings) → (kept : ℤ) → (result ≡ Err (Exists kept)) ↔ (fixing_on fixings day ≡ Some kept) }
        ensures added { OnOk result ((terms : IndexTerms) (fixings : Stored) → terms_in (slice_index_or self.old index Free) ≡ Some (Index terms fixings) → self.new ≡ slice_set self.old index (Live (Index terms (with_fixing fixings day rate)))) }
        ensures same { OnErr result (self.new ≡ self.old) }
    {
        store_in(&mut self.slots[index.place()], day, rate)
    }

    /// Appends a part to a composite.
    ///
    /// # Errors
    ///
    /// `AllocError` where memory runs out. Then nothing has changed.
    pub fn push_part(&mut self, composite: ObjId, part: Part) -> Result<(), AllocError>
        requires { kind_in (slice_index_or self.old composite Free) ≡ Some kind.Composite }
        ensures pushed { OnOk result ((parts : List Part) → terms_in (slice_index_or self.old composite Free) ≡ Some (Composite parts) → self.new ≡ slice_set self.old composite (Live (Composite (parts ++ part ∷ [])))) }
        ensures same { OnErr result (self.new ≡ self.old) }
    {
        push_in(&mut self.slots[composite.place()], part)
    }

    /// Keeps the first `len` parts of a composite, or all if there are no more.
    pub fn keep_parts(&mut self, composite: ObjId, len: usize)
        requires { kind_in (slice_index_or self.old composite Free) ≡ Some kind.Composite }
        ensures { (parts : List Part) → terms_in (slice_index_or self.old composite Free) ≡ Some (Composite parts) → self.new ≡ slice_set self.old composite (Live (Composite (take len parts))) }
    {
        keep_in(&mut self.slots[composite.place()], len);
    }

    /// Replaces the part at a place, from 0, of a composite. Takes no memory.
    pub fn put_part(&mut self, composite: ObjId, at: usize, part: Part)
        requires composite { kind_in (slice_index_or self.old composite Free) ≡ Some kind.Composite }
        requires within { at < length (parts_in (slice_index_or self.old composite Free)) }
        ensures { (parts : List Part) → terms_in (slice_index_or self.old composite Free) ≡ Some (Composite parts) → self.new ≡ slice_set self.old composite (Live (Composite (slice_set parts at part))) }
    {
        put_in(&mut self.slots[composite.place()], at, part);
    }

    /// Removes an object.
    pub fn remove(&mut self, object: ObjId)
        requires within { object < length self.old }
        ensures { self.new ≡ slice_set self.old object Free }
    {
        self.board.remove(object);
        self.slots[object.place()] = Slot::Free;
    }
}

// Returns the kind of the object with a number.
fn kind_of(slots: &[Slot], object: ObjId) -> Option<Kind>
    ensures { result ≡ kind_in (slice_index_or slots.now object Free) }
{
    match slots.get(object.place()) {
        Some(slot) => kind_in(slot),
        None => None,
    }
}

// Returns the kind of the object in a slot. `None` if it was dropped.
fn kind_in(slot: &Slot) -> Option<Kind>
    ensures { result ≡ kind_in slot.now }
{
    match slot {
        Slot::Free => None,
        Slot::Today => Some(Kind::Today),
        Slot::Watcher => Some(Kind::Watcher),
        Slot::Live(terms) => Some(terms.kind()),
    }
}

// Returns the terms of the object with a number, if it has any.
fn terms_of(slots: &[Slot], object: ObjId) -> Option<&Terms>
    ensures { option_copied result ≡ terms_in (slice_index_or slots.now object Free) }
{
    match slots.get(object.place()) {
        Some(slot) => terms_in(slot),
        None => None,
    }
}

// Returns the terms in a slot, if there are any.
fn terms_in(slot: &Slot) -> Option<&Terms>
    ensures { option_copied result ≡ terms_in slot.now }
{
    match slot {
        Slot::Free => None,
        Slot::Today => None,
        Slot::Watcher => None,
        Slot::Live(terms) => Some(terms),
    }
}

// Returns the value in a quote's terms.
fn quoted(terms: &Terms) -> Option<Option<Rate>>
    ensures { result ≡ quoted terms.now }
{
    match terms {
        Terms::Quote(value) => Some(*value),
        Terms::Derived { .. }
        | Terms::Handle { .. }
        | Terms::Curve(_)
        | Terms::Implied { .. }
        | Terms::Index(..)
        | Terms::Engine { .. }
        | Terms::Stock { .. }
        | Terms::Composite(_)
        | Terms::Flows(..) => None,
    }
}

// Returns terms without the value of a quote.
fn bare(terms: Terms) -> Terms
    ensures { result ≡ with_quote None terms }
{
    match quoted(&terms) {
        None => terms,
        Some(_) => Terms::Quote(None),
    }
}

// Makes room on the board for a quote, if there is one. The values on the board stay.
fn make_room(
    board: &mut Quotes,
    quote: ObjId,
    value: &Option<Option<Rate>>,
) -> Result<(), AllocError>
    ensures room { OnOk result (is_some value.now ≡ true → quote < length board.new) }
    ensures same { IsSame board.old board.new }
{
    match value {
        None => Ok(()),
        Some(_) => board.reserve(quote),
    }
}

// Puts a quote on the board, if there is one. Its number was not in use.
fn put_any(board: &mut Quotes, quote: ObjId, value: Option<Option<Rate>>)
    requires new { entry board.old quote ≡ None }
    requires room { is_some value ≡ true → quote < length board.old }
    ensures { IsPut quote value board.old board.new }
{
    match value {
        None => {}
        Some(value) => board.put(quote, value),
    }
}
