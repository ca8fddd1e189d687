// The lines of a bond's measures.
ghost use Rattle.std.specs.Prelude.{◌≡◌, true, ◌≤◌, ◌++◌, codes, OnOk};
ghost use Rattle.flow_terms.specs.Ranges.{AreFlowsInRange};
ghost use Rattle.bond_yield.specs.declared.yields.TheConstants.{MOST_YIELD};
ghost use Rattle.bond_yield.specs.Fixed.{is_fixed};
ghost use Rattle.bond_measure.specs.Measures as measure;
ghost use Rattle.tool_bond.specs.Lines as line;
ghost use Rattle.tool_bond.specs.MeasureLines as text;

use crate::pushing::{MONEY_PLACES, push_refused, push_value};
use bond_measure::{MeasureFault, bpv};
use day_number::Day;
use flow_terms::FlowTerms;
use std::alloc::{AllocError, Global};

// Appends the line of the basis-point value of a bond.
pub(crate) fn push_gain(
    alloc: Global,
    flows: &FlowTerms,
    name: &[u8],
    settle: Day,
    y: u64,
    out: &mut Vec<u8>,
) -> Result<(), AllocError>
    requires range { AreFlowsInRange flows.now }
    requires fixed { is_fixed flows.now.flows ≡ true }
    requires high { y ≤ MOST_YIELD }
    ensures { OnOk result (out.new.items
        ≡ out.old.items ++ text.measure_line name.now (codes "bpv") (measure.bpv flows.now.flows settle y) 6) }
{
    match bpv(flows, settle, y) {
        Ok(gain) => push_value(alloc, name, b"bpv", gain.units(), MONEY_PLACES, out),
        Err(fault) => push_fault(alloc, name, b"bpv", fault, out),
    }
}

// Appends the line of a measure.
pub(crate) fn push_measure(
    alloc: Global,
    name: &[u8],
    word: &[u8],
    found: Result<i128, MeasureFault>,
    places: u8,
    out: &mut Vec<u8>,
) -> Result<(), AllocError>
    requires { places ≤ 18 }
    ensures { OnOk result (out.new.items ≡ out.old.items ++ text.measure_line name.now word.now found places) }
{
    match found {
        Ok(value) => push_value(alloc, name, word, value, places, out),
        Err(fault) => push_fault(alloc, name, word, fault, out),
    }
}

// Appends the line of a measure that there is not.
fn push_fault(
    alloc: Global,
    name: &[u8],
    word: &[u8],
    fault: MeasureFault,
    out: &mut Vec<u8>,
) -> Result<(), AllocError>
    ensures { OnOk result (out.new.items
        ≡ out.old.items ++ line.refused_line name.now (word.now ++ codes " " ++ text.fault_word fault)) }
{
    let mut why = Vec::new(alloc);
    why.extend_from_slice(word)?;
    why.extend_from_slice(b" ")?;
    why.extend_from_slice(fault_word(fault))?;
    push_refused(name, &why, out)
}

// Why there is no measure, in words.
fn fault_word(fault: MeasureFault) -> &'static [u8]
    ensures { result.now ≡ text.fault_word fault }
{
    match fault {
        MeasureFault::Low => b"low",
        MeasureFault::High => b"high",
        MeasureFault::Worthless => b"worthless",
    }
}
