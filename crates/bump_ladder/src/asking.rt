// A ladder over a desk.
ghost use Rattle.std.specs.Prelude.{◌≡◌, ◌<◌, ◌^◌, true, length, Ok, Err};
ghost use Rattle.desk_terms.specs.declared.kind.Wanted.TheVariants.{Member};
ghost use Rattle.desk_model.specs.Market.{kind_at};
ghost use Rattle.desk_model.specs.Links.{serves_as};
ghost use Rattle.desk_model.specs.Sound.{IsSound};
ghost use Rattle.desk_model.specs.Unheld.{HoldsNothing};
ghost use Rattle.bump_model.specs.Moves.{AreBumps};
ghost use Rattle.bump_model.specs.Asking.{Answers, Ends, ladder_asking};

use crate::pricing::price;
use crate::rungs::{Climbed, bump_rungs};
use bump_model::{Bump, Ladder, LadderFault};
use desk_names::ObjId;
use desk_terms::Bench;
use fixed_amount::Rate;
use lazy_objects::Desk;
use std::alloc::Global;

/// What an instrument is worth, and what it gains where the quotes of each bump are moved by a size up and down, each bump
/// from the values as they stand. A quote without a value is not moved. The bench is called for what each notice reached and
/// an ask needs, so a move costs what lies between the quote and the instrument.
///
/// `Base` where the instrument is worth nothing as the quotes stand. On every exit, want of memory too, the market is the
/// one before the call: setting a quote back takes no memory.
pub fn ladder<B: Bench>(
    alloc: Global,
    desk: &mut Desk,
    object: ObjId,
    size: Rate,
    bumps: &[Bump],
    bench: &mut B,
) -> Result<Ladder, LadderFault>
    requires instrument { serves_as (kind_at desk.old.market object) Member ≡ true }
    requires bumps { AreBumps desk.old.market bumps.now }
    requires few { length bumps.now < 2 ^ 32 }
    requires sound { IsSound (B.calc bench.old) desk.old }
    requires unheld { HoldsNothing desk.old }
    ensures same { B.calc bench.new ≡ B.calc bench.old }
    // The base and each side are prices afresh; the base is refused exactly where its price is.
    ensures answer { Answers (B.calc bench.old) size object bumps.now desk.old result }
    // The bench was called for exactly these asks, and the desk is the one that they leave; where memory ran out, for a
    // front of them.
    ensures ends { Ends (ladder_asking (B.calc bench.old) size object bumps.now desk.old) result desk.new
        (B.count bench.old) (B.count bench.new) (B.log bench.old) (B.log bench.new) }
    ensures market { desk.new.market ≡ desk.old.market }
    ensures sound { IsSound (B.calc bench.old) desk.new }
    ensures unheld { HoldsNothing desk.new }
{
    let priced = price(desk, object, bench)?;
    let amount = priced.amount;
    let first = priced.runs;
    match amount {
        Err(cause) => Err(LadderFault::Base { cause, runs: first }),
        Ok(base) => {
            let climbed = bump_rungs(alloc, desk, object, base, size, bumps, bench)?;
            let Climbed { rungs, runs } = climbed;
            Ok(Ladder {
                base,
                rungs,
                runs: first + runs,
            })
        }
    }
}
