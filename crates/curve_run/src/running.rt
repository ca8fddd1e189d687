// The call of the program.
ghost use Rattle.std.specs.Prelude.{◌≡◌, ◌⊎◌, ◌↔◌, ◌+◌, ◌≤◌, map, None, IfOk, IfErr, IfSome, IsErrOf};
ghost use Rattle.std.specs.String.{string_bytes};
ghost use Rattle.desk_edge.specs.Count.{Rose};
ghost use Rattle.desk_edge.specs.Shelf.{files_of};
ghost use Rattle.market_file.specs.Standing.{IsReady};
ghost use Rattle.bump_model.specs.Asking.{Calls, Made, MadeFront};
ghost use Rattle.tool_frame.specs.Market.{wanted_in};
ghost use Rattle.tool_frame.specs.Run.{given_for, IsAccepted, IsAcceptedAs, IsThere, Tells, faults_after};
ghost use Rattle.tool_frame.specs.Stage.{Failed, Missing, Cut, IsOutside, IsEarly, IsBefore, IsQuiet, Writes, Computes, faults_then, puts_then};
ghost use Rattle.tool_frame.specs.Status as market;
ghost use Rattle.tool_frame.specs.Tool.{IsReached};
ghost use Rattle.curve_run.specs.Named.{ItemsAre};
ghost use Rattle.curve_run.specs.Status.{stage_of, IsOf, Notes};
ghost use Rattle.curve_run.specs.Verdict.{Wanted as Asked, verdict_of, ending_of, shown_in, output_in, notes_in, computed_in, reading_calls, HasCurves};
ghost use Rattle.curve_run.specs.Words.{request_in, request_of};

use crate::CurveStatus;
use crate::lines::{Sheet, Shown, curve_lines};
use crate::words::Request;
use desk_edge::{Shelf, Sink, write_whole};
use desk_terms::Bench;
use market_desk::{NamedDesk, named_desk};
use price_report::Namer;
use std::alloc::{AllocError, Global};
use tool_frame::{Found, MarketStatus, OpenMarket, find};

/// Does what the words ask for over the files of the shelf, writes the picture or the table to `out`, or the lines of what stands against it
/// to `notes`, and answers how that went. The words are those behind the program's name: `--csv` or nothing, `--zero`, `--forward`, `--par`
/// or nothing, the path of a market, and the names of one to eight curves. The prices are those of the bench.
///
/// The first failure in this order is the answer: the words; the market's file and the tables' names in it; the file of
/// the quotes, and that of the fixings, where the market names them; the market; the names and their curves. The text is made whole, and then
/// written. A fault outside, or want of memory, may come at any time; where the notes cannot be written, the status tells all the same.
pub fn run_curve<H: Shelf, K: Sink, N: Sink, B: Bench>(
    alloc: Global,
    words: &[String],
    shelf: &mut H,
    out: &mut K,
    notes: &mut N,
    bench: &mut B,
) -> CurveStatus
    // The status is that of the words, the files and the curves, but for a fault outside or want of memory.
    ensures status { IfSome (files_of (H.contents shelf.old)) (λ files.
        IsOutside (stage_of result) ⊎ (result ≡ ending_of (B.calc bench.old) (verdict_of files (map string_bytes words.now)))) }
    ensures usage { (result ≡ CurveStatus.Of MarketStatus.Usage) ↔ (request_of (map string_bytes words.now) ≡ None) }
    // Memory is wanted only where the market's file is there.
    ensures there { IfSome (files_of (H.contents shelf.old)) (λ files.
        result ≡ CurveStatus.Of MarketStatus.NoMemory → IsThere (request_of (map string_bytes words.now)) (λ request. request.market) files) }

    // What is accepted ends so where no fault is counted and memory is found.
    ensures complete { IfSome (files_of (H.contents shelf.old)) (λ files.
        IsAccepted (verdict_of files (map string_bytes words.now))
        → IsQuiet (H.faults shelf.old) (H.faults shelf.new) → IsQuiet (K.faults out.old) (K.faults out.new)
        → (result ≡ ending_of (B.calc bench.old) (verdict_of files (map string_bytes words.now))) ⊎ (result ≡ CurveStatus.Of MarketStatus.NoMemory)) }

    // At Done the bytes written are the picture or the table; after a fault of writing they are a front of it, and else, where it is refused
    // too, there are none.
    ensures written { IfSome (files_of (H.contents shelf.old)) (λ files.
        Writes (K.bytes out.old) (K.bytes out.new) (given_for (output_in (B.calc bench.old)) (verdict_of files (map string_bytes words.now))) (stage_of result)) }
    // No put is made before the text is whole: where it is refused or memory runs out the sink is as it was.
    ensures nothing { IsBefore (stage_of result) → out.new ≡ out.old }
    ensures unwritten { result ≡ CurveStatus.Refused → out.new ≡ out.old }
    // Where it is refused the bytes noted are the lines that say so, but for a fault of noting them, and else there are none.
    ensures noted { IfSome (files_of (H.contents shelf.old)) (λ files.
        Notes (N.bytes notes.old) (N.bytes notes.new) (N.faults notes.old) (N.faults notes.new)
        (given_for (notes_in (B.calc bench.old)) (verdict_of files (map string_bytes words.now))) result) }
    ensures silent { IsOf result → notes.new ≡ notes.old }

    // The bench was called for the computations of the curves, in their order, and for no other; where memory ran out, for
    // a front of them. `carried` says all of this of files told or not.
    ensures computed { IfSome (files_of (H.contents shelf.old)) (λ files.
        Computes Made MadeFront (given_for (computed_in (B.calc bench.old)) (verdict_of files (map string_bytes words.now))) (stage_of result)
        (B.count bench.old) (B.count bench.new) (B.log bench.old) (B.log bench.new)) }
    ensures carried { IsEarly (stage_of result) ⊎ ((asked : Asked)
        × Writes (K.bytes out.old) (K.bytes out.new) (output_in (B.calc bench.old) asked) (stage_of result)
        × Notes (N.bytes notes.old) (N.bytes notes.new) (N.faults notes.old) (N.faults notes.new) (notes_in (B.calc bench.old) asked) result
        × Computes Made MadeFront (computed_in (B.calc bench.old) asked) (stage_of result)
        (B.count bench.old) (B.count bench.new) (B.log bench.old) (B.log bench.new)) }
    ensures unnamed { IfSome (files_of (H.contents shelf.old)) (λ files.
        IsAcceptedAs HasCurves (verdict_of files (map string_bytes words.now)) ⊎ (bench.new ≡ bench.old)) }
    ensures alone { IsEarly (stage_of result) → bench.new ≡ bench.old }
    ensures same { B.calc bench.new ≡ B.calc bench.old }

    // Each fault was counted.
    ensures read { stage_of result ≡ Failed → Rose (H.faults shelf.old) (H.faults shelf.new) }
    // A call of the shelf that failed is the answer, and was the last: any call may fail, and one more would be counted too.
    ensures counted { H.faults shelf.new ≡ faults_then (stage_of result) (H.faults shelf.old) }
    ensures absent { stage_of result ≡ Missing → Rose (H.misses shelf.old) (H.misses shelf.new) }
    // So was a put of the text that failed; where none failed, none is counted.
    ensures write { stage_of result ≡ Cut → Rose (K.faults out.old) (K.faults out.new) }
    ensures put { K.faults out.new ≡ puts_then (stage_of result) (K.faults out.old) }
    ensures files { files_of (H.contents shelf.new) ≡ files_of (H.contents shelf.old) }

    // Each file is read once, in the order above, and none behind the first failure.
    ensures calls { IfSome (files_of (H.contents shelf.old)) (λ files.
        H.calls shelf.new ≤ H.calls shelf.old + reading_calls files (map string_bytes words.now)) }
{
    let found = match wanted_of(alloc, words, shelf) {
        Ok(found) => found,
        Err(status) => return CurveStatus::Of(status),
    };
    match shown_of(alloc, found, bench) {
        Ok(Ok(text)) => match write_whole(out, &text) {
            Ok(()) => CurveStatus::Of(MarketStatus::Done),
            Err(_) => CurveStatus::Of(MarketStatus::WriteFault),
        },
        Ok(Err(lines)) => {
            note(notes, &lines);
            CurveStatus::Refused
        }
        Err(_) => CurveStatus::Of(MarketStatus::NoMemory),
    }
}

// What the words and the files ask for.
fn wanted_of<'a, H: Shelf>(
    alloc: Global,
    words: &'a [String],
    shelf: &mut H,
) -> Result<Found<Request<'a>>, MarketStatus>
    ensures tells { IfSome (files_of (H.contents shelf.old)) (λ files.
        Tells market.stage_of (wanted_in request_in) result (verdict_of files (map string_bytes words.now))) }
    ensures usage { IsErrOf result MarketStatus.Usage ↔ (request_of (map string_bytes words.now) ≡ None) }
    ensures there { IfSome (files_of (H.contents shelf.old)) (λ files.
        IsReached MarketStatus.NoMemory result → IsThere (request_of (map string_bytes words.now)) (λ request. request.market) files) }
    ensures ready { IfOk result (λ found. IsReady found.market.names found.market.made.items) }
    ensures before { IfErr result (λ status. IsBefore (market.stage_of status)) }
    ensures read { IfErr result (λ status. market.stage_of status ≡ Failed → Rose (H.faults shelf.old) (H.faults shelf.new)) }
    ensures absent { IfErr result (λ status. market.stage_of status ≡ Missing → Rose (H.misses shelf.old) (H.misses shelf.new)) }
    ensures counted { H.faults shelf.new ≡ faults_after market.stage_of result (H.faults shelf.old) }
    ensures files { files_of (H.contents shelf.new) ≡ files_of (H.contents shelf.old) }
    ensures calls { IfSome (files_of (H.contents shelf.old)) (λ files.
        H.calls shelf.new ≤ H.calls shelf.old + reading_calls files (map string_bytes words.now)) }
{
    find(alloc, words, shelf)
}

// Notes lines. Where they cannot be written, the status tells all the same.
fn note<N: Sink>(notes: &mut N, lines: &[u8])
    ensures { Notes (N.bytes notes.old) (N.bytes notes.new) (N.faults notes.old) (N.faults notes.new) lines.now CurveStatus.Refused }
{
    let _ = write_whole(notes, lines);
}

// What is shown of what is wanted.
fn shown_of<B: Bench>(
    alloc: Global,
    found: Found<Request<'_>>,
    bench: &mut B,
) -> Result<Shown, AllocError>
    requires ready { IsReady found.market.names found.market.made.items }
    ensures shown { IfOk result (λ shown. ItemsAre shown (shown_in (B.calc bench.old) (wanted_in request_in found.entry))) }
    ensures calls { Calls (computed_in (B.calc bench.old) (wanted_in request_in found.entry)) result
        (B.count bench.old) (B.count bench.new) (B.log bench.old) (B.log bench.new) }
    ensures unnamed { HasCurves (wanted_in request_in found.entry) ⊎ (bench.new ≡ bench.old) }
    ensures same { B.calc bench.new ≡ B.calc bench.old }
{
    let Found { market, request } = found;
    let OpenMarket { names, today, made } = market;
    let named = named_desk(alloc, today, made)?;
    let NamedDesk {
        mut desk,
        of_object,
    } = named;
    let namer = Namer {
        names: &names,
        of_object: &of_object,
    };
    let sheet = Sheet {
        as_table: request.as_table,
        plot: request.plot,
        today,
    };
    curve_lines(alloc, &mut desk, sheet, request.curves, &namer, bench)
}
