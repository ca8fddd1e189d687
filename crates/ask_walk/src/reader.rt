// The values that objects give to those that name them: of a quote at once, of all others with a stack and at most once.
ghost use Rattle.std.specs.Prelude.{◌≡◌, ◌<◌, length, None, Some, IfOk, slice_index_or};
ghost use Rattle.desk_model.specs.Market.{terms_in};
ghost use Rattle.desk_model.specs.declared.slot.Slot.TheVariants.{Free};
ghost use Rattle.desk_model.specs.Uses.{input_at, derived_entry, rate_entry};
ghost use Rattle.desk_model.specs.Links.{IsLinked};
ghost use Rattle.std.specs.Prelude.{ℤ, ◌-ℤ◌, ◌+ℤ◌, if◌then◌else◌};
ghost use Rattle.object_store.specs.Market.{market_in};
ghost use Rattle.object_store.specs.Objects.{quoted};
ghost use Rattle.ask_walk.specs.Reads.{recalled, Remembers, given_by, passed_to, quote_entry, and_sum, and_is};

use desk_model::Entry;
use desk_names::ObjId;
use desk_terms::{Cause, Terms};
use fixed_amount::Rate;
use object_store::{Market, Objects, Scratch};
use std::alloc::AllocError;

/// The result of one look at an object.
#[derive(Clone, Copy)]
pub enum Look {
    /// The object gives this.
    Is(Entry),
    /// This object has to be read first.
    First(ObjId),
}

/// Returns what an object gives to those that name it. What takes more than one look is remembered.
///
/// # Errors
///
/// `AllocError` where memory runs out.
pub fn read(market: &Market, scratch: &mut Scratch, object: ObjId) -> Result<Entry, AllocError>
    requires linked { IsLinked (market_in market.now) }
    requires within { object < length market.now.objects }
    requires remembers { Remembers (market_in market.now) scratch.old.entries }
    ensures entry { IfOk result (λ entry. entry ≡ input_at (market_in market.now) object) }
    ensures remembers { Remembers (market_in market.now) scratch.new.entries }
{
    let object = passed_to(&market.objects, object);
    match scratch.entry(object) {
        Some(entry) => return Ok(entry),
        None => {}
    }
    match look_at(&market.objects, scratch, object) {
        Look::Is(entry) => Ok(entry),
        Look::First(_) => read_through(market, scratch, object),
    }
}

// Follows handles, indexes and engines by one step: returns the object that they name, else the object itself.
fn passed_to(objects: &Objects, object: ObjId) -> ObjId
    ensures { result ≡ passed_to object (terms_in (slice_index_or objects.now object Free)) }
{
    match objects.terms(object) {
        None => object,
        Some(terms) => match terms {
            Terms::Handle { target, .. } => match target {
                None => object,
                Some(reached) => *reached,
            },
            Terms::Index(index, _) => index.curve,
            Terms::Engine { curve } => *curve,
            Terms::Quote(_)
            | Terms::Derived { .. }
            | Terms::Curve(_)
            | Terms::Implied { .. }
            | Terms::Stock { .. }
            | Terms::Composite(_)
            | Terms::Flows(..) => object,
        },
    }
}

// Returns what an object gives that is not remembered, and remembers it with all that was read for it.
fn read_through(market: &Market, scratch: &mut Scratch, object: ObjId) -> Result<Entry, AllocError>
    requires linked { IsLinked (market_in market.now) }
    requires within { object < length market.now.objects }
    requires remembers { Remembers (market_in market.now) scratch.old.entries }
    requires unread { recalled scratch.old.entries object ≡ None }
    ensures entry { IfOk result (λ entry. entry ≡ input_at (market_in market.now) object) }
    ensures remembers { Remembers (market_in market.now) scratch.new.entries }
{
    let mut stack: Vec<ObjId> = Vec::new(scratch.alloc());
    stack.push(object)?;
    while let Some(top) = stack.pop() {
        match look_at(&market.objects, scratch, top) {
            Look::First(needed) => {
                stack.push(top)?;
                stack.push(needed)?;
            }
            Look::Is(entry) => scratch.remember(top, entry)?,
        }
    }
    match scratch.entry(object) {
        Some(entry) => Ok(entry),
        None => unreachable!(),
    }
}

// Returns what an object gives by what is remembered, or the first object that has to be read before.
#[inline(always)]
fn look_at(objects: &Objects, scratch: &Scratch, object: ObjId) -> Look
    ensures { result ≡ given_by (recalled scratch.now.entries) object (terms_in (slice_index_or objects.now object Free)) }
{
    match objects.terms(object) {
        None => Look::Is(Entry::Refuses(Cause::Unset(object))),
        Some(terms) => match terms {
            Terms::Quote(_) => Look::Is(quoted(object, objects.quote(object))),
            Terms::Derived { .. }
            | Terms::Handle { .. }
            | Terms::Index(..)
            | Terms::Engine { .. }
            | Terms::Curve(_)
            | Terms::Implied { .. }
            | Terms::Stock { .. }
            | Terms::Composite(_)
            | Terms::Flows(..) => given_by(scratch, object, terms),
        },
    }
}

// Returns what a quote with this value gives.
fn quoted(object: ObjId, value: Option<Rate>) -> Entry
    ensures { result ≡ quote_entry object value }
{
    match value {
        None => Entry::Refuses(Cause::Unset(object)),
        Some(rate) => Entry::Gives(rate),
    }
}

// Returns what an object with these terms gives, which is no quote.
fn given_by(scratch: &Scratch, object: ObjId, terms: &Terms) -> Look
    requires { quoted terms.now ≡ None }
    ensures { result ≡ given_by (recalled scratch.now.entries) object (Some terms.now) }
{
    match terms {
        Terms::Quote(_) => unreachable!(),
        Terms::Derived {
            minus,
            first,
            second,
        } => summed(scratch, object, *minus, *first, *second),
        Terms::Handle { target, .. } => match target {
            None => Look::Is(Entry::Refuses(Cause::Empty(object))),
            Some(reached) => passed(scratch, *reached),
        },
        Terms::Index(index, _) => passed(scratch, index.curve),
        Terms::Engine { curve } => passed(scratch, *curve),
        Terms::Curve(_) => Look::Is(Entry::Needs(object)),
        Terms::Implied { .. } => Look::Is(Entry::Needs(object)),
        Terms::Stock { .. } => Look::Is(Entry::Needs(object)),
        Terms::Composite(_) => Look::Is(Entry::Needs(object)),
        Terms::Flows(..) => Look::Is(Entry::Needs(object)),
    }
}

// Returns what another object gives.
fn passed(scratch: &Scratch, object: ObjId) -> Look
    ensures { result ≡ and_is (recalled scratch.now.entries object) object }
{
    match scratch.entry(object) {
        Some(entry) => Look::Is(entry),
        None => Look::First(object),
    }
}

// Returns the sum or difference of what two objects give.
fn summed(scratch: &Scratch, object: ObjId, minus: bool, first: ObjId, second: ObjId) -> Look
    ensures { result ≡ and_sum object minus (recalled scratch.now.entries first) first (recalled scratch.now.entries second) second }
{
    match scratch.entry(first) {
        None => Look::First(first),
        Some(a) => match scratch.entry(second) {
            None => Look::First(second),
            Some(b) => Look::Is(derived(object, minus, &a, &b)),
        },
    }
}

// Returns the sum or difference of two inputs.
fn derived(object: ObjId, minus: bool, first: &Entry, second: &Entry) -> Entry
    ensures { result ≡ derived_entry object minus first.now second.now }
{
    match first {
        Entry::Refuses(cause) => Entry::Refuses(*cause),
        Entry::Gives(a) => match second {
            Entry::Refuses(cause) => Entry::Refuses(*cause),
            Entry::Gives(b) => combined(object, minus, *a, *b),
            Entry::Needs(_) => Entry::Refuses(Cause::Unset(object)),
        },
        Entry::Needs(_) => Entry::Refuses(Cause::Unset(object)),
    }
}

// Returns the sum or difference of two rates.
fn combined(object: ObjId, minus: bool, first: Rate, second: Rate) -> Entry
    ensures { result ≡ rate_entry object (if minus then first -ℤ second else first +ℤ second) }
{
    if minus {
        rated(object, first.0 - second.0)
    } else {
        rated(object, first.0 + second.0)
    }
}

// Returns a rate of these units, or that there is none.
fn rated(object: ObjId, units: i64) -> Entry
    ensures { result ≡ rate_entry object units }
{
    if -1_000_000_000_000_000_000 <= units && units <= 1_000_000_000_000_000_000 {
        Entry::Gives(Rate(units))
    } else {
        Entry::Refuses(Cause::TooLarge(object))
    }
}
