// The rungs of a ladder.
ghost use Rattle.std.specs.Prelude.{◌≡◌, ◌<◌, ◌≤◌, ◌*◌, ◌+◌, ◌^◌, unsigned_abs, true, List, ◌++◌, length, IfOk, OnOk};
ghost use Rattle.desk_model.specs.Links.{is_lazy_at};
ghost use Rattle.desk_model.specs.Sound.{IsSound};
ghost use Rattle.desk_model.specs.Unheld.{HoldsNothing};
ghost use Rattle.bump_model.specs.declared.moves.Quoted.{Quoted};
ghost use Rattle.bump_model.specs.declared.ladder.Bump.TheVariants.{One};
ghost use Rattle.bump_model.specs.Moves.{and_quoted, quoted_in, AreQuotes, IsBump, AreBumps};
ghost use Rattle.bump_model.specs.Sides.{bump_rung, rungs_of};
ghost use Rattle.bump_model.specs.Asking.{Asks, bump_asking, rungs_asking};

use crate::sides::{Step, group_rung};
use bump_model::{Bump, Quoted, Rung, RungList, Side};
use desk_names::ObjId;
use desk_terms::Bench;
use fixed_amount::{Amount, Rate};
use lazy_objects::Desk;
use std::alloc::{AllocError, Global};

// Rungs, and how many times the bench was called for them.
#[derive(Drop)]
pub(crate) struct Climbed {
    pub(crate) rungs: RungList,
    pub(crate) runs: u64,
}

// A rung for each bump.
pub(crate) fn bump_rungs<B: Bench>(
    alloc: Global,
    desk: &mut Desk,
    object: ObjId,
    base: Amount,
    size: Rate,
    bumps: &[Bump],
    bench: &mut B,
) -> Result<Climbed, AllocError>
    requires lazy { is_lazy_at desk.old.market object ≡ true }
    requires base { unsigned_abs base ≤ 10 ^ 24 }
    requires bumps { AreBumps desk.old.market bumps.now }
    requires few { length bumps.now < 2 ^ 32 }
    requires sound { IsSound (B.calc bench.old) desk.old }
    requires unheld { HoldsNothing desk.old }
    ensures same { B.calc bench.new ≡ B.calc bench.old }
    ensures rungs { IfOk result (λ climbed. climbed.rungs ≡ rungs_of (B.calc bench.old) size desk.old.market object base bumps.now) }
    ensures runs { IfOk result (λ climbed. climbed.runs ≡ length (rungs_asking (B.calc bench.old) size desk.old.market object bumps.now desk.old).calls) }
    ensures few { IfOk result (λ climbed. climbed.runs ≤ length bumps.now * 2 ^ 18) }
    ensures asks { Asks (rungs_asking (B.calc bench.old) size desk.old.market object bumps.now desk.old) result desk.new
        (B.count bench.old) (B.count bench.new) (B.log bench.old) (B.log bench.new) }
    ensures market { desk.new.market ≡ desk.old.market }
    ensures sound { IsSound (B.calc bench.old) desk.new }
    ensures unheld { HoldsNothing desk.new }
{
    let mut rungs = RungList::new(alloc);
    let mut runs = 0;
    for bump in bumps {
        let step = bump_rung(alloc, desk, object, base, size, bump, bench)?;
        rungs.push(step.rung)?;
        runs += step.runs;
    }
    Ok(Climbed { rungs, runs })
}

// The rung of a bump.
fn bump_rung<B: Bench>(
    alloc: Global,
    desk: &mut Desk,
    object: ObjId,
    base: Amount,
    size: Rate,
    bump: &Bump,
    bench: &mut B,
) -> Result<Step, AllocError>
    requires lazy { is_lazy_at desk.old.market object ≡ true }
    requires base { unsigned_abs base ≤ 10 ^ 24 }
    requires bump { IsBump desk.old.market bump.now }
    requires sound { IsSound (B.calc bench.old) desk.old }
    requires unheld { HoldsNothing desk.old }
    ensures same { B.calc bench.new ≡ B.calc bench.old }
    ensures rung { IfOk result (λ step. step.rung ≡ bump_rung (B.calc bench.old) size desk.old.market object base bump.now) }
    ensures runs { IfOk result (λ step. step.runs ≡ length (bump_asking (B.calc bench.old) size desk.old.market object bump.now desk.old).calls) }
    ensures few { IfOk result (λ step. step.runs < 2 ^ 18) }
    ensures asks { Asks (bump_asking (B.calc bench.old) size desk.old.market object bump.now desk.old) result desk.new
        (B.count bench.old) (B.count bench.new) (B.log bench.old) (B.log bench.new) }
    ensures market { desk.new.market ≡ desk.old.market }
    ensures sound { IsSound (B.calc bench.old) desk.new }
    ensures unheld { HoldsNothing desk.new }
{
    match bump {
        Bump::One(quote) => quote_rung(desk, object, base, size, *quote, bench),
        Bump::Together { label, quotes } => {
            let quoted = quoted_in(alloc, desk, quotes.items())?;
            group_rung(desk, object, base, size, *label, &quoted, bench)
        }
    }
}

// The rung of a quote. Where it has no value, nothing is asked for.
fn quote_rung<B: Bench>(
    desk: &mut Desk,
    object: ObjId,
    base: Amount,
    size: Rate,
    quote: ObjId,
    bench: &mut B,
) -> Result<Step, AllocError>
    requires lazy { is_lazy_at desk.old.market object ≡ true }
    requires base { unsigned_abs base ≤ 10 ^ 24 }
    requires quote { IsBump desk.old.market (One quote) }
    requires sound { IsSound (B.calc bench.old) desk.old }
    requires unheld { HoldsNothing desk.old }
    ensures same { B.calc bench.new ≡ B.calc bench.old }
    ensures rung { IfOk result (λ step. step.rung ≡ bump_rung (B.calc bench.old) size desk.old.market object base (One quote)) }
    ensures runs { IfOk result (λ step. step.runs ≡ length (bump_asking (B.calc bench.old) size desk.old.market object (One quote) desk.old).calls) }
    ensures few { IfOk result (λ step. step.runs < 2 ^ 18) }
    ensures asks { Asks (bump_asking (B.calc bench.old) size desk.old.market object (One quote) desk.old) result desk.new
        (B.count bench.old) (B.count bench.new) (B.log bench.old) (B.log bench.new) }
    ensures market { desk.new.market ≡ desk.old.market }
    ensures sound { IsSound (B.calc bench.old) desk.new }
    ensures unheld { HoldsNothing desk.new }
{
    match desk.quote(quote) {
        None => Ok(Step {
            rung: Rung {
                label: Some(quote),
                up: Side::Unset,
                down: Side::Unset,
            },
            runs: 0,
        }),
        Some(value) => {
            let quoted = [Quoted { quote, value }];
            group_rung(desk, object, base, size, Some(quote), &quoted, bench)
        }
    }
}

// Of these quotes those that have a value, each with it.
fn quoted_in(alloc: Global, desk: &Desk, quotes: &[ObjId]) -> Result<Vec<Quoted>, AllocError>
    requires quotes { AreQuotes desk.now.market quotes.now }
    ensures { IfOk result (λ quoted. quoted.items ≡ quoted_in desk.now.market quotes.now) }
{
    let mut quoted = Vec::new(alloc);
    for quote in quotes {
        quote_any(&mut quoted, *quote, desk.quote(*quote))?;
    }
    Ok(quoted)
}

// Appends a quote with its value, if it has one.
fn quote_any(quoted: &mut Vec<Quoted>, quote: ObjId, value: Option<Rate>) -> Result<(), AllocError>
    ensures { OnOk result ((others : List Quoted) → quoted.new.items ++ others ≡ quoted.old.items ++ and_quoted quote value others) }
{
    match value {
        None => Ok(()),
        Some(value) => {
            quoted.push(Quoted { quote, value })?;
            Ok(())
        }
    }
}
