// The names of a session, each once, by number.
ghost use Rattle.std.specs.Prelude.{◌≡◌, ◌<◌, ◌↔◌, [], true, false, length, slice_get, is_some, IfSome, IfOk, OnOk, OnErr, IsOk, IsSome, IsErrOf};
ghost use Rattle.desk_names.specs.declared.names.NameFault.TheVariants.{NoMemory};
ghost use Rattle.desk_names.specs.Name.{is_name, IsName};
ghost use Rattle.desk_names.specs.Names.{has_text, with_text, place_of, most_names, IsNames};

use crate::is_name;
use indexmap::IndexSet;
use std::alloc::{AllocError, AllocFailed, Global};
use std::marker::Model;
use thiserror::Error;

/// How many names a session may have.
pub const MOST_NAMES: u32 = 65_536;

/// The number of a name: its place among the names of a session.
#[derive(Clone, Copy, Debug, PartialEq, Eq, PartialOrd, Ord)]
pub struct NameId(pub u32);

impl Model for NameId {
    ghost use Rattle.std.specs.Prelude.{ℕ, ◌<◌, ◌^◌};

    ghost Value = { ℕ };

    ghost view = { λ n. n.0 };

    ghost invariant = { λ n. n.0 < 2 ^ 32 };

    ghost inverse = { λ number. record { 0 = number } };
}

impl NameId {
    /// The name's place among the names.
    pub fn place(self) -> usize
        ensures { result ≡ self }
    {
        self.0 as usize
    }
}

/// Why a text got no number.
#[derive(Clone, Copy, Debug, Error, PartialEq, Eq)]
pub enum NameFault {
    #[error("no name")]
    Form,
    #[error("too many names")]
    Full,
    #[error("out of memory")]
    NoMemory,
}

impl From<AllocError> for NameFault {
    ghost from_gives = { λ _ e. e ≡ NoMemory };

    fn from(_e: AllocError) -> NameFault {
        NameFault::NoMemory
    }
}

impl<T: Drop> From<AllocFailed<T>> for NameFault {
    ghost from_gives = { λ _ e. e ≡ NoMemory };

    fn from(_e: AllocFailed<T>) -> NameFault {
        NameFault::NoMemory
    }
}

/// The names of a session in order of first use: at most 65,536, each once. A clause sees the list of their texts.
pub struct Names {
    texts: IndexSet<Vec<u8>>,
    alloc: Global,
}

// One call at each exit of who lets it go.
impl Drop for Names {
    fn drop(self) {
        let Names { texts: _, alloc: _ } = self;
    }
}

impl Model for Names {
    ghost use Rattle.std.specs.Prelude.{List, ℕ, map};
    ghost use Rattle.desk_names.specs.Names.{IsNames};

    ghost Value = { List (List ℕ) };

    ghost view = { λ n. map (λ text. text.items) n.texts.keys };

    ghost invariant = { λ n. IsNames (map (λ text. text.items) n.texts.keys) };
}

impl Names {
    /// No names yet. The later calls take memory from the allocator given here.
    pub fn new(alloc: Global) -> Self
        ensures { result ≡ [] }
    {
        Names {
            texts: IndexSet::new(alloc),
            alloc,
        }
    }

    /// The number of names, at most 65,536.
    pub fn len(&self) -> u32
        ensures len { result ≡ length self.now }
        ensures names { IsNames self.now }
    {
        self.texts.len() as u32
    }

    /// The text of the name with this number.
    pub fn text(&self, name: NameId) -> &[u8]
        requires { name < length self.now }
        ensures text { slice_get self.now name ≡ Some result.now }
        ensures named { IsName result.now }
    {
        self.texts.as_slice()[name.place()].as_slice()
    }

    /// The number of the text, where it is one of the names. Takes no memory, and constant expected time in the number of names.
    pub fn find(&self, text: &[u8]) -> Option<NameId>
        ensures found { is_some result ≡ has_text self.now text.now }
        ensures place { IfSome result (λ name. name ≡ place_of self.now text.now) }
        ensures named { IsSome result → IsName text.now }
        ensures names { IsNames self.now }
    {
        let place = self.texts.get_index_of(text)?;
        Some(NameId(place as u32))
    }

    /// The number of the text, which is added last where it is new. Constant expected time in the number of names.
    ///
    /// `Form` where the text is no name, `Full` where it is new and 65,536 names are kept. A text that is known takes no memory.
    #[tactic(auto, using(crate::proofs::NameLaws::known_stays, crate::proofs::NameLaws::new_goes_last))]
    pub fn intern(&mut self, text: &[u8]) -> Result<NameId, NameFault>
        ensures place { IfOk result (λ name. name ≡ place_of self.old text.now) }
        ensures kept { OnOk result (self.new ≡ with_text self.old text.now) }
        ensures named { OnOk result (IsName text.now) }
        ensures known { has_text self.old text.now ≡ true → IsOk result }
        ensures form { IsErrOf result NameFault.Form ↔ (is_name text.now ≡ false) }
        ensures full { IsErrOf result NameFault.Full
            ↔ (IsName text.now × (length self.old ≡ most_names) × (has_text self.old text.now ≡ false)) }
        ensures err { OnErr result (self.new ≡ self.old) }
        ensures names { IsNames self.new }
    {
        if let Some(known) = self.find(text) {
            return Ok(known);
        }
        if !is_name(text) {
            return Err(NameFault::Form);
        }
        if self.len() == MOST_NAMES {
            return Err(NameFault::Full);
        }
        let (place, _) = self.texts.insert_full(text.to_vec(self.alloc)?)?;
        Ok(NameId(place as u32))
    }

    /// The same names by the same numbers, in memory of their own. It fails for want of memory alone, and takes time in
    /// proportion to the texts.
    pub fn copy(&self, alloc: Global) -> Result<Names, AllocError>
        ensures { IfOk result (λ copy. copy ≡ self.now) }
    {
        let texts = self.texts.clone()?;
        Ok(Names { texts, alloc })
    }
}
