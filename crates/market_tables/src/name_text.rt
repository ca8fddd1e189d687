// Texts that are names.
ghost use Rattle.std.specs.Prelude.{◌≡◌};
ghost use Rattle.desk_names.specs.Name.{IsName};
ghost use Rattle.market_tables.specs.Given.{Gives};
ghost use Rattle.market_tables.specs.Values.{name_of};

use crate::{MarketKind, TableFault};
use desk_names::is_name;
use std::alloc::Global;
use std::marker::Model;

/// A text that is a name. Clauses see its bytes.
pub struct NameText {
    text: Vec<u8>,
}

// Each exit of an owner calls this once.
impl Drop for NameText {
    fn drop(self) {
        let NameText { text: _ } = self;
    }
}

impl Model for NameText {
    ghost use Rattle.std.specs.Prelude.{List, ℕ};
    ghost use Rattle.desk_names.specs.Name.{IsName};

    ghost Value = { List ℕ };

    ghost view = { λ n. n.text.items };

    ghost invariant = { λ n. IsName n.text.items };
}

impl NameText {
    /// Copies a text that is a name.
    ///
    /// # Errors
    ///
    /// `Name` where it is none, or `NoMemory`.
    pub fn read(alloc: Global, text: &[u8]) -> Result<NameText, TableFault>
        ensures { Gives (λ name. name) result (name_of text.now) }
    {
        if !is_name(text) {
            return Err(TableFault::Kind(MarketKind::Name));
        }
        let text = text.to_vec(alloc)?;
        Ok(NameText { text })
    }

    /// Returns the bytes of the name.
    pub fn text(&self) -> &[u8]
        ensures text { result.now ≡ self.now }
        ensures named { IsName result.now }
    {
        &self.text
    }
}
