// The commands of a script, and then the lines of a feed.
ghost use Rattle.std.specs.Prelude.{◌≡◌, false, ℕ, List, All, OnOk, OnErr, IfErr, IsErrOf};
ghost use Rattle.desk_edge.specs.Count.{raised};
ghost use Rattle.desk_model.specs.Sound.{IsSound};
ghost use Rattle.session_model.specs.Standing.{IsKnown};
ghost use Rattle.tool_script.specs.Found.{CanRun};
ghost use Rattle.live_session.specs.Lines.{live_of, StandBy};
ghost use Rattle.tool_live.specs.Ends.{outside, ended, Ends, IsLater};
ghost use Rattle.tool_live.specs.Replies.{ordered, replies_of, replies_behind, replies_in};
ghost use Rattle.tool_live.specs.Verdict.{live_in};

use crate::playing::play;
use crate::talk::Talk;
use crate::wanted::Wanted;
use crate::{AnswerFault, answer_all};
use desk_edge::{Feed, Sink};
use desk_terms::Bench;
use live_session::{Lines, texts_of};
use market_session::begun;
use session_commands::Command;
use session_rounds::WatchedSession;
use std::alloc::Global;
use tool_script::Status;
use watch_rounds::Picker;

// What is wanted is done: the commands of the script, and then the lines of the feed are answered.
pub(crate) fn converse<F: Feed, K: Sink, B: Bench>(
    alloc: Global,
    wanted: Wanted,
    feed: &mut F,
    out: &mut K,
    bench: &mut B,
) -> Result<(), Status>
    requires can { CanRun wanted.run }
    ensures same { B.calc bench.new ≡ B.calc bench.old }
    ensures ends { Ends (ordered (B.calc bench.old)) wanted.ready (replies_in (B.calc bench.old) (live_in wanted)) (F.content feed.old) (F.content feed.new)
        (outside (K.bytes out.old) (K.sent out.old) (B.count bench.old) (B.log bench.old))
        (outside (K.bytes out.new) (K.sent out.new) (B.count bench.new) (B.log bench.new)) (ended result) }
    ensures sent { OnOk result (K.sent out.new ≡ K.bytes out.new) }
    ensures late { IfErr result IsLater }
    ensures read { IsErrOf result Status.ReadFault → (F.faults feed.new ≡ raised (F.faults feed.old)) × (K.faults out.new ≡ K.faults out.old) }
    ensures quiet { (IsErrOf result Status.ReadFault → ⊥) → F.faults feed.new ≡ F.faults feed.old }
    ensures write { IsErrOf result Status.WriteFault → K.faults out.new ≡ raised (K.faults out.old) }
    ensures clean { OnOk result (K.faults out.new ≡ K.faults out.old) }
{
    let Wanted { run, order, ready } = wanted;
    let texts = texts_of(alloc, &run.market.names, run.script.action_names.items())?;
    let (mut session, commands) = begun(
        alloc,
        run.market.names,
        run.market.today,
        run.market.made,
        run.script,
        order,
    )?;
    let mut lines = Lines::new(alloc, texts);
    converse_with(
        alloc,
        &mut session,
        &mut lines,
        commands.items(),
        ready,
        feed,
        out,
        bench,
    )
}

// The same with a session. It is lent: a function that owns one lets it go at each exit.
fn converse_with<P: Picker, F: Feed, K: Sink, B: Bench>(
    alloc: Global,
    session: &mut WatchedSession<P>,
    lines: &mut Lines,
    commands: &[Command],
    ready: bool,
    feed: &mut F,
    out: &mut K,
    bench: &mut B,
) -> Result<(), Status>
    requires running { session.old.standing.stopped ≡ false }
    requires known { All (IsKnown session.old.standing) commands.now }
    requires sound { IsSound (B.calc bench.old) session.old.standing.state }
    requires stands { StandBy P session.old lines.old }
    ensures same { B.calc bench.new ≡ B.calc bench.old }
    ensures ends { Ends (record { calc = B.calc bench.old; at = P.at; after = P.after }) ready
        (replies_behind (record { calc = B.calc bench.old; at = P.at; after = P.after }) ready (live_of session.old lines.old) commands.now) (F.content feed.old) (F.content feed.new)
        (outside (K.bytes out.old) (K.sent out.old) (B.count bench.old) (B.log bench.old))
        (outside (K.bytes out.new) (K.sent out.new) (B.count bench.new) (B.log bench.new)) (ended result) }
    ensures sent { OnOk result (K.sent out.new ≡ K.bytes out.new) }
    ensures late { IfErr result IsLater }
    ensures read { IsErrOf result Status.ReadFault → (F.faults feed.new ≡ raised (F.faults feed.old)) × (K.faults out.new ≡ K.faults out.old) }
    ensures quiet { (IsErrOf result Status.ReadFault → ⊥) → F.faults feed.new ≡ F.faults feed.old }
    ensures write { IsErrOf result Status.WriteFault → K.faults out.new ≡ raised (K.faults out.old) }
    ensures clean { OnOk result (K.faults out.new ≡ K.faults out.old) }
{
    play(alloc, session, commands, out, bench)?;
    listen(alloc, session, lines, ready, feed, out, bench)
}

// What was written so far is sent on, and then the lines of the feed are answered.
fn listen<P: Picker, F: Feed, K: Sink, B: Bench>(
    alloc: Global,
    session: &mut WatchedSession<P>,
    lines: &mut Lines,
    ready: bool,
    feed: &mut F,
    out: &mut K,
    bench: &mut B,
) -> Result<(), Status>
    requires sound { IsSound (B.calc bench.old) session.old.standing.state }
    requires stands { StandBy P session.old lines.old }
    ensures same { B.calc bench.new ≡ B.calc bench.old }
    ensures ends { Ends (record { calc = B.calc bench.old; at = P.at; after = P.after }) ready
        (replies_of (record { calc = B.calc bench.old; at = P.at; after = P.after }) ready (live_of session.old lines.old)) (F.content feed.old) (F.content feed.new)
        (outside (K.bytes out.old) (K.sent out.old) (B.count bench.old) (B.log bench.old))
        (outside (K.bytes out.new) (K.sent out.new) (B.count bench.new) (B.log bench.new)) (ended result) }
    ensures sent { OnOk result (K.sent out.new ≡ K.bytes out.new) }
    ensures late { IfErr result IsLater }
    ensures read { IsErrOf result Status.ReadFault → (F.faults feed.new ≡ raised (F.faults feed.old)) × (K.faults out.new ≡ K.faults out.old) }
    ensures quiet { (IsErrOf result Status.ReadFault → ⊥) → F.faults feed.new ≡ F.faults feed.old }
    ensures write { IsErrOf result Status.WriteFault → K.faults out.new ≡ raised (K.faults out.old) }
    ensures clean { OnOk result (K.faults out.new ≡ K.faults out.old) }
{
    if out.flush().is_err() {
        return Err(Status::WriteFault);
    }
    let mut talk = Talk {
        alloc,
        session,
        lines,
        bench,
        ready,
    };
    match answer_all(alloc, &mut talk, feed, out) {
        Ok(()) => Ok(()),
        Err(AnswerFault::Read) => Err(Status::ReadFault),
        Err(AnswerFault::Write) => Err(Status::WriteFault),
        Err(AnswerFault::NoMemory) => Err(Status::NoMemory),
    }
}
