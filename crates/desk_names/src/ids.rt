// Numbers that stand for objects and for actions. A clause sees each as its number.
ghost use Rattle.std.specs.Prelude.{◌≡◌};

use std::marker::Model;

/// The number of an object, from 0 in order of creation. Object 0 is `today`.
#[derive(Clone, Copy, Debug, PartialEq, Eq, PartialOrd, Ord)]
pub struct ObjId(pub u32);

impl Model for ObjId {
    ghost use Rattle.std.specs.Prelude.{ℕ, ◌<◌, ◌^◌};

    ghost Value = { ℕ };

    ghost view = { λ o. o.0 };

    ghost invariant = { λ o. o.0 < 2 ^ 32 };

    ghost inverse = { λ number. record { 0 = number } };
}

impl ObjId {
    /// The object's place in a list that holds one item for each number given.
    pub fn place(self) -> usize
        ensures { result ≡ self }
    {
        self.0 as usize
    }
}

/// The number of an action: the place of its block among the blocks of a script, from 0.
#[derive(Clone, Copy, Debug, PartialEq, Eq, PartialOrd, Ord)]
pub struct ActionId(pub u32);

impl Model for ActionId {
    ghost use Rattle.std.specs.Prelude.{ℕ, ◌<◌, ◌^◌};

    ghost Value = { ℕ };

    ghost view = { λ a. a.0 };

    ghost invariant = { λ a. a.0 < 2 ^ 32 };

    ghost inverse = { λ number. record { 0 = number } };
}

impl ActionId {
    /// The action's place among the actions of its script.
    pub fn place(self) -> usize
        ensures { result ≡ self }
    {
        self.0 as usize
    }
}
