// What is asked for behind the moves of a block.
ghost use Rattle.std.specs.Prelude.{◌≡◌, ◌++◌, ◌∷◌, [], true, false, option_copied, All, OnOk, OnErr};
ghost use Rattle.session_model.specs.Standing.{IsKnown};
ghost use Rattle.session_model.specs.Course.{round_of};
ghost use Rattle.session_rounds.specs.Goes.{Does, Halts, Stays};
ghost use Rattle.watch_rounds.specs.declared.picker.Order.{Order as OfOrder};
ghost use Rattle.tool_script.specs.Kinds.{is_ask, asked_name};
ghost use Rattle.tool_script.specs.Scenario.{ordered, money_shown, values_of};
ghost use Rattle.tool_script.specs.Course.{course_of, output};
ghost use Rattle.tool_script.specs.Going.{IsGoing, Extends};
ghost use Rattle.tool_script.specs.Kept.{money_in_value, money_kept, money_asked};

use crate::{MoneyList, asked_name};
use desk_names::NameId;
use desk_terms::{Bench, Value};
use fixed_amount::Amount;
use session_commands::Command;
use session_core::Session;
use session_rounds::WatchedSession;
use std::alloc::AllocError;
use watch_rounds::Order;

// Does the round of each ask, and appends the money that it shows.
pub(crate) fn ask_all<B: Bench>(
    session: &mut WatchedSession<Order>,
    asks: &[Command],
    bench: &mut B,
    lines: &mut Vec<u8>,
    values: &mut MoneyList,
) -> Result<(), AllocError>
    requires going { IsGoing (B.calc bench.old) session.old }
    requires known { All (IsKnown session.old.standing) asks.now }
    requires asks { All (λ c. is_ask c ≡ true) asks.now }
    ensures same { B.calc bench.new ≡ B.calc bench.old }
    ensures does { OnOk result (Does OfOrder (course_of (B.calc bench.old) asks.now session.old) session.new
        (output lines.old.items (B.count bench.old) (B.log bench.old))
        (output lines.new.items (B.count bench.new) (B.log bench.new))) }
    ensures halts { OnErr result (Halts OfOrder (course_of (B.calc bench.old) asks.now session.old)
        (output lines.old.items (B.count bench.old) (B.log bench.old))
        (output lines.new.items (B.count bench.new) (B.log bench.new))) }
    ensures values { OnOk result (values.new ≡ values.old ++ values_of (B.calc bench.old) asks.now session.old) }
    ensures kept { Extends values.old values.new }
    ensures going { OnOk result (IsGoing (B.calc bench.old) session.new) }
    ensures names { OnOk result (session.new.standing.names ≡ session.old.standing.names) }
{
    for ask in asks {
        ask_next(session, ask, bench, lines, values)?;
    }
    Ok(())
}

// Does the round of one ask, and appends the money that it shows.
fn ask_next<B: Bench>(
    session: &mut WatchedSession<Order>,
    ask: &Command,
    bench: &mut B,
    lines: &mut Vec<u8>,
    values: &mut MoneyList,
) -> Result<(), AllocError>
    requires going { IsGoing (B.calc bench.old) session.old }
    requires known { IsKnown session.old.standing ask.now }
    requires ask { is_ask ask.now ≡ true }
    ensures same { B.calc bench.new ≡ B.calc bench.old }
    ensures does { OnOk result (Does OfOrder (round_of (ordered (B.calc bench.old)) session.old ask.now) session.new
        (output lines.old.items (B.count bench.old) (B.log bench.old))
        (output lines.new.items (B.count bench.new) (B.log bench.new))) }
    ensures halts { OnErr result (Halts OfOrder (round_of (ordered (B.calc bench.old)) session.old ask.now)
        (output lines.old.items (B.count bench.old) (B.log bench.old))
        (output lines.new.items (B.count bench.new) (B.log bench.new))) }
    ensures values { OnOk result (values.new ≡ values.old ++ money_shown (B.calc bench.old) session.old.standing (asked_name ask.now) ∷ []) }
    ensures kept { OnErr result (values.new ≡ values.old) }
    ensures stays { Stays (B.calc bench.old) session.old.standing session.new.standing }
    ensures running { OnOk result (session.new.standing.stopped ≡ false) }
{
    session.shape();
    session.step(ask, bench, lines)?;
    let money = money_asked(session.session(), asked_name(ask));
    values.push(money)
}

// The money of the object that was asked for, where it has a current value.
fn money_asked(session: &Session, name: Option<NameId>) -> Option<Amount>
    ensures { result ≡ money_asked session.now name }
{
    match name {
        Some(name) => money_kept(session, name),
        None => None,
    }
}

// The money of the object with a name, where it has a current value.
fn money_kept(session: &Session, name: NameId) -> Option<Amount>
    ensures { result ≡ money_kept session.now name }
{
    if session.is_current(name) {
        money_in_value(session.value(name))
    } else {
        None
    }
}

// The money that a value is.
fn money_in_value(value: Option<&Value>) -> Option<Amount>
    ensures { result ≡ money_in_value (option_copied value.entry) }
{
    match value {
        Some(Value::Money(amount)) => Some(*amount),
        Some(Value::Curve(_)) => None,
        None => None,
    }
}
