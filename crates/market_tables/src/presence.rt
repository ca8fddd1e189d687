// When a key is required in its table.
ghost use Rattle.std.specs.Prelude.{◌≡◌};
ghost use Rattle.market_tables.specs.Presence.{must_stand};

/// When a key is required, where no other key decides it.
#[derive(Clone, Copy, PartialEq, Eq)]
pub enum Presence {
    Always,
    Optional,
}

impl Presence {
    /// Returns whether the key is required.
    pub fn must_stand(self) -> bool
        ensures { result ≡ must_stand self }
    {
        match self {
            Presence::Always => true,
            Presence::Optional => false,
        }
    }
}
