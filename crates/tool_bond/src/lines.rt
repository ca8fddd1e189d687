// The lines of a name.
ghost use Rattle.std.specs.Prelude.{◌≡◌, true, ◌≤◌, ◌++◌, ◌+ℤ◌, ◌≤ℤ◌, ◌*◌, pos, unsigned_abs, Err, OnOk};
ghost use Rattle.jiff_core.specs.Calendar.{IsWithin};
ghost use Rattle.desk_terms.specs.declared.terms.Terms.{Terms};
ghost use Rattle.flow_terms.specs.declared.limits.TheConstants.{MOST_AMOUNT, MOST_FLOWS};
ghost use Rattle.flow_terms.specs.Ranges.{AreFlowsInRange};
ghost use Rattle.market_file.specs.Standing.{AreLimited, IsReady};
ghost use Rattle.bond_yield.specs.declared.yields.TheConstants.{MOST_YIELD};
ghost use Rattle.bond_yield.specs.Accrued as accrual;
ghost use Rattle.bond_yield.specs.Fixed.{is_fixed};
ghost use Rattle.bond_yield.specs.Yield.{yield_of};
ghost use Rattle.tool_frame.specs.Market.{market_in};
ghost use Rattle.tool_bond.specs.Lines as text;
ghost use Rattle.tool_bond.specs.Named.{IsTaken};
ghost use Rattle.tool_bond.specs.Words.{most_price};

use crate::named::{Place, place_named};
use crate::pushing::{MONEY_PLACES, RATE_PLACES, push_refused, push_value};
use crate::{Bond, BondTool};
use bond_yield::{YieldFault, accrued, bond_yield};
use day_number::Day;
use desk_names::ObjId;
use desk_terms::{FlowTerms, Terms};
use fixed_amount::{Amount, Rate};
use std::alloc::{AllocError, Global};
use tool_frame::OpenMarket;

// Appends the lines of a name in a market.
pub(crate) fn push_name<T: BondTool>(
    alloc: Global,
    market: &OpenMarket,
    name: &[u8],
    settle: Day,
    clean: Amount,
    out: &mut Vec<u8>,
) -> Result<(), AllocError>
    requires ready { IsReady market.now.names market.now.made.items }
    requires taken { IsTaken market.now.made.items clean }
    ensures { OnOk result (out.new.items ≡ out.old.items ++ text.name_text T.wording (market_in market.now) name.now settle clean) }
{
    match place_named(&market.names, name) {
        Place::Nowhere => push_unnamed::<T>(b"unknown", name, out),
        Place::Today => push_unnamed::<T>(b"kind", name, out),
        Place::Object(place) => match market.made.get(place) {
            Some((_, terms)) => push_terms::<T>(alloc, market, terms, name, settle, clean, out),
            None => push_unnamed::<T>(b"unknown", name, out),
        },
    }
}

// Appends the lines of an object by its terms: only a bond, a swap or a forward rate agreement has flows.
fn push_terms<T: BondTool>(
    alloc: Global,
    market: &OpenMarket,
    terms: &Terms,
    name: &[u8],
    settle: Day,
    clean: Amount,
    out: &mut Vec<u8>,
) -> Result<(), AllocError>
    requires ready { IsReady market.now.names market.now.made.items }
    requires limited { AreLimited terms.now }
    requires price { IsWithin most_price clean }
    ensures { OnOk result (out.new.items ≡ out.old.items ++ text.terms_text T.wording (market_in market.now) terms.now name.now settle clean) }
{
    match terms {
        Terms::Flows(flows, engine) => {
            push_bond::<T>(alloc, market, *engine, flows, name, settle, clean, out)
        }
        Terms::Quote(_)
        | Terms::Derived { .. }
        | Terms::Handle { .. }
        | Terms::Curve(_)
        | Terms::Implied { .. }
        | Terms::Index(..)
        | Terms::Engine { .. }
        | Terms::Stock { .. }
        | Terms::Composite(_) => push_unnamed::<T>(b"kind", name, out),
    }
}

// Appends the lines of flows.
fn push_bond<T: BondTool>(
    alloc: Global,
    market: &OpenMarket,
    engine: Option<ObjId>,
    flows: &FlowTerms,
    name: &[u8],
    settle: Day,
    clean: Amount,
    out: &mut Vec<u8>,
) -> Result<(), AllocError>
    requires ready { IsReady market.now.names market.now.made.items }
    requires range { AreFlowsInRange flows.now }
    requires price { IsWithin most_price clean }
    ensures { OnOk result (out.new.items ≡ out.old.items
        ++ text.bond_text T.wording (market_in market.now) engine name.now flows.now.flows settle clean) }
{
    match bond_yield(flows, settle, clean) {
        Ok(y) => push_found::<T>(alloc, market, engine, flows, name, settle, clean, y, out),
        Err(fault) => push_fault(alloc, flows, name, settle, clean, fault, out),
    }
}

// Appends the lines of a bond that has a yield, with what is said behind it.
fn push_found<T: BondTool>(
    alloc: Global,
    market: &OpenMarket,
    engine: Option<ObjId>,
    flows: &FlowTerms,
    name: &[u8],
    settle: Day,
    clean: Amount,
    y: Rate,
    out: &mut Vec<u8>,
) -> Result<(), AllocError>
    requires ready { IsReady market.now.names market.now.made.items }
    requires range { AreFlowsInRange flows.now }
    requires price { IsWithin most_price clean }
    requires fixed { is_fixed flows.now.flows ≡ true }
    requires low { pos 0 ≤ℤ y }
    requires high { unsigned_abs y ≤ MOST_YIELD }
    ensures { OnOk result (out.new.items ≡ out.old.items
        ++ (text.yield_text name.now (accrual.accrued flows.now.flows settle) clean y
        ++ T.wording.more (text.bond_at (market_in market.now) engine name.now flows.now.flows settle clean y))) }
{
    let interest = accrued(flows, settle);
    push_yield(alloc, name, interest, clean, y, out)?;
    let bond = Bond {
        market,
        engine,
        name,
        flows,
        settle,
        full: sum(clean, interest),
        y: y.units().unsigned_abs(),
    };
    T::push_more(alloc, &bond, out)
}

// Appends the lines of flows that have no yield.
fn push_fault(
    alloc: Global,
    flows: &FlowTerms,
    name: &[u8],
    settle: Day,
    clean: Amount,
    fault: YieldFault,
    out: &mut Vec<u8>,
) -> Result<(), AllocError>
    requires range { AreFlowsInRange flows.now }
    requires price { IsWithin most_price clean }
    requires fault { yield_of flows.now.flows settle clean ≡ Err fault }
    ensures { OnOk result (out.new.items ≡ out.old.items
        ++ text.fault_text name.now (accrual.accrued flows.now.flows settle) clean fault) }
{
    match fault {
        YieldFault::NotFixed => push_refused(name, b"notfixed", out),
        YieldFault::NoFlow => push_refused(name, b"noflow", out),
        YieldFault::Above(price) => {
            let interest = accrued(flows, settle);
            push_beyond(alloc, name, interest, clean, b"refused above", price, out)
        }
        YieldFault::Below(price) => {
            let interest = accrued(flows, settle);
            push_beyond(alloc, name, interest, clean, b"refused below", price, out)
        }
    }
}

// Appends the lines of a bond that has a yield.
fn push_yield(
    alloc: Global,
    name: &[u8],
    interest: Amount,
    clean: Amount,
    y: Rate,
    out: &mut Vec<u8>,
) -> Result<(), AllocError>
    requires price { IsWithin most_price clean }
    requires low { pos 0 ≤ℤ interest }
    requires high { interest ≤ℤ pos (MOST_FLOWS * MOST_AMOUNT) }
    ensures { OnOk result (out.new.items ≡ out.old.items ++ text.yield_text name.now interest clean y) }
{
    push_priced(alloc, name, interest, clean, out)?;
    push_rate(alloc, name, b"yield", y, out)
}

// Appends the lines of a bond whose price no yield meets.
fn push_beyond(
    alloc: Global,
    name: &[u8],
    interest: Amount,
    clean: Amount,
    word: &[u8],
    price: Amount,
    out: &mut Vec<u8>,
) -> Result<(), AllocError>
    requires price { IsWithin most_price clean }
    requires low { pos 0 ≤ℤ interest }
    requires high { interest ≤ℤ pos (MOST_FLOWS * MOST_AMOUNT) }
    ensures { OnOk result (out.new.items ≡ out.old.items ++ text.beyond_text name.now interest clean word.now price) }
{
    push_priced(alloc, name, interest, clean, out)?;
    push_amount(alloc, name, word, price, out)
}

// Appends the accrued interest, and the price with it.
fn push_priced(
    alloc: Global,
    name: &[u8],
    interest: Amount,
    clean: Amount,
    out: &mut Vec<u8>,
) -> Result<(), AllocError>
    requires price { IsWithin most_price clean }
    requires low { pos 0 ≤ℤ interest }
    requires high { interest ≤ℤ pos (MOST_FLOWS * MOST_AMOUNT) }
    ensures { OnOk result (out.new.items ≡ out.old.items ++ text.priced_text name.now interest clean) }
{
    push_amount(alloc, name, b"accrued", interest, out)?;
    push_amount(alloc, name, b"full", sum(clean, interest), out)
}

// A clean price and accrued interest.
fn sum(clean: Amount, interest: Amount) -> Amount
    requires price { IsWithin most_price clean }
    requires low { pos 0 ≤ℤ interest }
    requires high { interest ≤ℤ pos (MOST_FLOWS * MOST_AMOUNT) }
    ensures { result ≡ clean +ℤ interest }
{
    Amount(clean.units() + interest.units())
}

// Appends a line with an amount.
fn push_amount(
    alloc: Global,
    name: &[u8],
    word: &[u8],
    amount: Amount,
    out: &mut Vec<u8>,
) -> Result<(), AllocError>
    ensures { OnOk result (out.new.items ≡ out.old.items ++ text.value_line name.now word.now amount 6) }
{
    push_value(alloc, name, word, amount.units(), MONEY_PLACES, out)
}

// Appends a line with a rate.
fn push_rate(
    alloc: Global,
    name: &[u8],
    word: &[u8],
    rate: Rate,
    out: &mut Vec<u8>,
) -> Result<(), AllocError>
    ensures { OnOk result (out.new.items ≡ out.old.items ++ text.value_line name.now word.now rate 9) }
{
    push_value(
        alloc,
        name,
        word,
        i128::from(rate.units()),
        RATE_PLACES,
        out,
    )
}

// Appends the line of a name that has no flows.
fn push_unnamed<T: BondTool>(word: &[u8], name: &[u8], out: &mut Vec<u8>) -> Result<(), AllocError>
    ensures { OnOk result (out.new.items ≡ out.old.items ++ text.unnamed_line T.wording word.now name.now) }
{
    out.extend_from_slice(b"refused ")?;
    out.extend_from_slice(T::word())?;
    out.extend_from_slice(b" ")?;
    out.extend_from_slice(word)?;
    out.extend_from_slice(b" ")?;
    out.extend_from_slice(name)?;
    out.extend_from_slice(b"\n")
}
