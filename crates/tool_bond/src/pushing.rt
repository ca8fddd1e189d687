// Lines of a bond.
ghost use Rattle.std.specs.Prelude.{◌≡◌, ◌≤◌, ◌++◌, OnOk};
ghost use Rattle.tool_bond.specs.Lines as text;

use fixed_amount::print_decimal;
use std::alloc::{AllocError, Global};

// How many places an amount of money is printed with, and a rate.
pub(crate) const MONEY_PLACES: u8 = 6;

pub(crate) const RATE_PLACES: u8 = 9;

// Appends `NAME WORD VALUE` and a newline, the value in units of 10 to the minus `places`.
pub(crate) fn push_value(
    alloc: Global,
    name: &[u8],
    word: &[u8],
    units: i128,
    places: u8,
    out: &mut Vec<u8>,
) -> Result<(), AllocError>
    requires { places ≤ 18 }
    ensures { OnOk result (out.new.items ≡ out.old.items ++ text.value_line name.now word.now units places) }
{
    out.extend_from_slice(name)?;
    out.extend_from_slice(b" ")?;
    out.extend_from_slice(word)?;
    out.extend_from_slice(b" ")?;
    print_decimal(alloc, units, places, out)?;
    out.extend_from_slice(b"\n")
}

// Appends `NAME refused WORD` and a newline.
pub(crate) fn push_refused(name: &[u8], word: &[u8], out: &mut Vec<u8>) -> Result<(), AllocError>
    ensures { OnOk result (out.new.items ≡ out.old.items ++ text.refused_line name.now word.now) }
{
    out.extend_from_slice(name)?;
    out.extend_from_slice(b" refused ")?;
    out.extend_from_slice(word)?;
    out.extend_from_slice(b"\n")
}
