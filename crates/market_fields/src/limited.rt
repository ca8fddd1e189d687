// Notionals and rates within the limits of terms.
ghost use Rattle.std.specs.Prelude.{◌≡◌};
ghost use Rattle.flow_terms.specs.Fixings.{IsRate};
ghost use Rattle.flow_terms.specs.Ranges.{IsNotional};
ghost use Rattle.market_tables.specs.Given.{Says};
ghost use Rattle.market_fields.specs.Limited.{signed, notional_of, rate_of};

use fixed_amount::{Amount, Rate};
use market_tables::{MarketKind, TableFault, decimal_of};
use std::marker::Model;

/// The greatest notional, in units of 10^-6.
const MOST_NOTIONAL: u64 = 1_000_000_000_000_000_000;

/// The greatest size of a rate, in units of 10^-9.
const MOST_RATE: u64 = 10_000_000_000;

/// The sign of payments: their own, or the opposite one.
#[derive(Clone, Copy, PartialEq, Eq)]
pub enum Sign {
    Plus,
    Minus,
}

impl Sign {
    ghost use Rattle.std.specs.Prelude.{◌≡◌};
    ghost use Rattle.market_fields.specs.Limited.{opposite};

    /// Returns the other sign.
    pub fn opposite(self) -> Sign
        ensures { result ≡ opposite self }
    {
        match self {
            Sign::Plus => Sign::Minus,
            Sign::Minus => Sign::Plus,
        }
    }
}

/// A notional from 1 to 10^18 units of 10^-6.
#[derive(Clone, Copy, PartialEq, Eq)]
pub struct Notional {
    units: i64,
}

impl Model for Notional {
    ghost use Rattle.std.specs.Prelude.{ℤ, pos, ◌≤ℤ◌, ◌^◌};

    ghost Value = { ℤ };

    ghost view = { λ n. n.units };

    ghost invariant = { λ n. (pos 1 ≤ℤ n.units) × (n.units ≤ℤ pos (10 ^ 18)) };

    ghost inverse = { λ units. record { units = units } };
}

impl Notional {
    ghost use Rattle.std.specs.Prelude.{◌≡◌};
    ghost use Rattle.flow_terms.specs.Ranges.{IsNotional};
    ghost use Rattle.market_tables.specs.Given.{Says};
    ghost use Rattle.market_fields.specs.Limited.{signed, notional_of};

    /// Reads a notional: a decimal with at most 6 places, above 0 and up to 10^18 units of 10^-6.
    ///
    /// # Errors
    ///
    /// `Number` where the text is none.
    pub(crate) fn read(text: &[u8]) -> Result<Notional, TableFault>
        ensures { Says (λ notional. notional) result (notional_of text.now) }
    {
        let units = decimal_of(text, 6, MOST_NOTIONAL)?;
        if units < 1 {
            return Err(TableFault::Kind(MarketKind::Number));
        }
        Ok(Notional { units })
    }

    /// Returns the notional with a sign.
    pub fn signed(self, sign: Sign) -> Amount
        ensures value { result ≡ signed sign self }
        ensures limit { IsNotional result }
    {
        let units = i128::from(self.units);
        match sign {
            Sign::Plus => Amount(units),
            Sign::Minus => Amount(-units),
        }
    }
}

/// A rate of at most 10 in size, in units of 10^-9.
#[derive(Clone, Copy, PartialEq, Eq)]
pub struct TermRate {
    units: i64,
}

impl Model for TermRate {
    ghost use Rattle.std.specs.Prelude.{ℤ};
    ghost use Rattle.flow_terms.specs.Fixings.{IsRate};

    ghost Value = { ℤ };

    ghost view = { λ r. r.units };

    ghost invariant = { λ r. IsRate r.units };

    ghost inverse = { λ units. record { units = units } };
}

impl TermRate {
    ghost use Rattle.std.specs.Prelude.{◌≡◌, pos};
    ghost use Rattle.flow_terms.specs.Fixings.{IsRate};
    ghost use Rattle.market_tables.specs.Given.{Says};
    ghost use Rattle.market_fields.specs.Limited.{rate_of};

    /// Reads a rate: a decimal with at most 9 places, of at most 10 in size.
    ///
    /// # Errors
    ///
    /// `Number` where the text is none.
    pub fn read(text: &[u8]) -> Result<TermRate, TableFault>
        ensures { Says (λ rate. rate) result (rate_of text.now) }
    {
        let units = decimal_of(text, 9, MOST_RATE)?;
        Ok(TermRate { units })
    }

    /// Returns the rate 0.
    pub fn zero() -> TermRate
        ensures { result ≡ pos 0 }
    {
        TermRate { units: 0 }
    }

    /// Returns the rate.
    pub fn rate(self) -> Rate
        ensures value { result ≡ self }
        ensures limit { IsRate result }
    {
        Rate(self.units)
    }
}
