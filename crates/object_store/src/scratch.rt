// The memory of one ask, by object number. It is kept between asks and cleared where an ask touched it, so that an ask costs
// what it reads and not the whole market.
ghost use Rattle.std.specs.Prelude.{◌≡◌, ◌+◌, ◌<◌, ◌++◌, [], ◌∷◌, ℕ, None, Some, Option, length, OnOk, OnErr, slice_index_or, slice_set};
ghost use Rattle.object_store.specs.Scratch.{AreTouched, AreClear};

use desk_model::Entry;
use desk_names::ObjId;
use desk_terms::Cause;
use fixed_amount::Rate;
use std::alloc::{AllocError, Global};
use std::marker::Model;

/// The values of derived quotes and handles that an ask has worked out so far.
#[derive(Drop)]
pub struct Scratch {
    entries: Vec<Option<Entry>>,
    touched: Vec<ObjId>,
    alloc: Global,
}

impl Model for Scratch {
    ghost use Rattle.object_store.specs.Scratch.{ScratchView, AreTouched};
    ghost use Rattle.std.specs.Prelude.{◌-◌, length, vec_capacity};

    ghost Value = { ScratchView };

    ghost view = { λ s. record {
      entries = s.entries.items;
      touched = s.touched.items;
      spare = vec_capacity s.entries - length s.entries.items;
    } };

    ghost invariant = { λ s. AreTouched s.entries.items s.touched.items };
}

impl Scratch {
    /// Starts with no object.
    pub fn new(alloc: Global) -> Scratch
        ensures entries { result.entries ≡ [] }
        ensures touched { result.touched ≡ [] }
    {
        Scratch {
            entries: Vec::new(alloc),
            touched: Vec::new(alloc),
            alloc,
        }
    }

    /// Returns the allocator of an ask.
    pub fn alloc(&self) -> Global {
        self.alloc
    }

    /// Reserves room for one more object.
    ///
    /// # Errors
    ///
    /// `AllocError` where memory runs out.
    pub fn reserve(&mut self) -> Result<(), AllocError>
        ensures ok { OnOk result (0 < self.new.spare) }
        ensures entries { self.new.entries ≡ self.old.entries }
        ensures touched { self.new.touched ≡ self.old.touched }
    {
        let _rate: Option<Rate> = None;
        let _cause: Option<Cause> = None;
        self.entries.reserve(1)?;
        Ok(())
    }

    /// Adds an object of which nothing is remembered.
    pub fn grow(&mut self)
        requires { 0 < self.old.spare }
        ensures entries { self.new.entries ≡ self.old.entries ++ None ∷ [] }
        ensures touched { self.new.touched ≡ self.old.touched }
    {
        let _rate: Option<Rate> = None;
        let _cause: Option<Cause> = None;
        self.entries.push_reserved(None);
    }

    /// Returns what is remembered of an object.
    pub fn entry(&self, object: ObjId) -> Option<Entry>
        ensures { result ≡ slice_index_or self.now.entries object None }
    {
        match self.entries.get(object.place()) {
            Some(Some(entry)) => Some(*entry),
            Some(None) => None,
            None => None,
        }
    }

    /// Remembers what an object gives.
    ///
    /// # Errors
    ///
    /// `AllocError` where memory runs out.
    pub fn remember(&mut self, object: ObjId, entry: Entry) -> Result<(), AllocError>
        requires { object < length self.old.entries }
        ensures entries { OnOk result (self.new.entries ≡ slice_set self.old.entries object (Some entry)) }
        ensures err { OnErr result (self.new.entries ≡ self.old.entries) }
    {
        self.touched.push(object)?;
        self.entries[object.place()] = Some(entry);
        Ok(())
    }

    /// Forgets everything. The cost grows with the number of remembered objects.
    pub fn clear(&mut self)
        ensures { AreClear self.old self.new }
    {
        clear_all(&mut self.entries, &self.touched);
        self.touched.clear();
    }
}

// Forgets these objects.
fn clear_all(entries: &mut [Option<Entry>], touched: &[ObjId])
    requires within { AreTouched entries.old touched.now }
    ensures entries { (x : ℕ) → slice_index_or entries.new x None ≡ None }
    ensures long { length entries.new ≡ length entries.old }
{
    for at in 0..touched.len() {
        clear_one(entries, touched[at]);
    }
}

// Forgets an object.
fn clear_one(entries: &mut [Option<Entry>], object: ObjId)
    requires { object < length entries.old }
    ensures { entries.new ≡ slice_set entries.old object None }
{
    let _rate: Option<Rate> = None;
    let _cause: Option<Cause> = None;
    entries[object.place()] = None;
}
