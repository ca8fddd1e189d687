// The call of the program.
ghost use Rattle.std.specs.Prelude.{◌≡◌, ◌⊎◌, ◌↔◌, ◌+◌, ◌≤◌, Ok, length, map, None, IfSome};
ghost use Rattle.std.specs.String.{string_bytes};
ghost use Rattle.desk_edge.specs.Count.{Rose, raised};
ghost use Rattle.desk_edge.specs.Shelf.{files_of};
ghost use Rattle.desk_terms.specs.Bench.{counted, logged};
ghost use Rattle.tool_script.specs.declared.status.FileRole.{FileRole};
ghost use Rattle.tool_script.specs.Status.{stage_of};
ghost use Rattle.tool_frame.specs.Run.{status_of, given_for, IsAccepted, IsThere};
ghost use Rattle.tool_frame.specs.Stage.{IsOutside, IsBefore, IsQuiet};
ghost use Rattle.tool_live.specs.Ends.{outside, Ends, Writes, IsRefused};
ghost use Rattle.tool_live.specs.Replies.{ordered, replies_in, output_in, computed_in};
ghost use Rattle.tool_live.specs.Verdict.{LiveRun, verdict_of, reading_calls};
ghost use Rattle.tool_live.specs.Words.{request_of};

use crate::conversing::converse;
use crate::wanted::wanted_of;
use desk_edge::{Feed, Shelf, Sink};
use desk_terms::Bench;
use std::alloc::Global;
use tool_script::Status;

/// Does the commands of a script over a market, where one is named, and then answers the lines of a feed as they come, each before
/// more is waited for: all that is written for the lines that came is put and sent on then. The words are those behind the
/// program's name: the path of a market, the path of a script or none, `--order ORDER`, and `--ready`, by which each line is
/// told as done. The prices are those of the bench.
///
/// The first failure in this order is the answer: the words; the market's file and the tables' names in it; the file of
/// the quotes, and that of the fixings, where the market names them; the market; the script's file; the script. Nothing is
/// written before them, and nothing taken of the feed. Then the round of each command is done, whose lines are written before
/// the next begins, and then each line of the feed is answered to its end: one with a fault by its fault, which changes
/// nothing else. A fault outside, or want of memory, may come at any time.
pub fn run_live<H: Shelf, F: Feed, K: Sink, B: Bench>(
    alloc: Global,
    words: &[String],
    shelf: &mut H,
    feed: &mut F,
    out: &mut K,
    bench: &mut B,
) -> Status
    // The status is that of the words and the files, but for a fault outside or want of memory.
    ensures status { IfSome (files_of (H.contents shelf.old)) (λ files.
        IsOutside (stage_of result) ⊎ (result ≡ status_of Status.Done (verdict_of files (map string_bytes words.now)))) }
    ensures usage { (result ≡ Status.Usage) ↔ (request_of (map string_bytes words.now) ≡ None) }
    // Memory is wanted only where the market's file is there.
    ensures there { IfSome (files_of (H.contents shelf.old)) (λ files.
        result ≡ Status.NoMemory → IsThere (request_of (map string_bytes words.now)) (λ request. request.market) files) }

    // What is accepted is done, where no fault is counted and memory is found.
    ensures complete { IfSome (files_of (H.contents shelf.old)) (λ files.
        IsAccepted (verdict_of files (map string_bytes words.now)) → IsQuiet (H.faults shelf.old) (H.faults shelf.new)
        → IsQuiet (F.faults feed.old) (F.faults feed.new) → IsQuiet (K.faults out.old) (K.faults out.new)
        → (result ≡ Status.Done) ⊎ (result ≡ Status.NoMemory)) }

    // At Done the bytes written are the transcript of the script, and then the conversation of the session behind it with the lines
    // of all that the feed holds, however it is cut. After a fault of reading or writing or want of memory they are a front of that.
    ensures written { IfSome (files_of (H.contents shelf.old)) (λ files. IfSome (F.content feed.old) (λ input.
        Writes (K.bytes out.old) (K.bytes out.new) (given_for (output_in (B.calc bench.old) input) (verdict_of files (map string_bytes words.now))) result)) }
    ensures sent { result ≡ Status.Done → K.sent out.new ≡ K.bytes out.new }

    // At Done the bench was called for the computations of the rounds, in their order, and for no other.
    ensures count { IfSome (files_of (H.contents shelf.old)) (λ files. IfSome (F.content feed.old) (λ input. result ≡ Status.Done
        → B.count bench.new ≡ counted (B.count bench.old) (length (given_for (computed_in (B.calc bench.old) input) (verdict_of files (map string_bytes words.now)))))) }
    ensures log { IfSome (files_of (H.contents shelf.old)) (λ files. IfSome (F.content feed.old) (λ input. result ≡ Status.Done
        → B.log bench.new ≡ logged (B.log bench.old) (given_for (computed_in (B.calc bench.old) input) (verdict_of files (map string_bytes words.now))))) }

    // It ended while words and files were read, and nothing was written, computed or waited for; or these were a market and a script
    // that are accepted, whether files are told or not, and it ended as `Ends` says of its status: where the feed failed, all that
    // its lines so far call for was put, sent on and computed.
    ensures carried { (IsBefore (stage_of result) × (out.new ≡ out.old) × (feed.new ≡ feed.old) × (bench.new ≡ bench.old))
        ⊎ ((asked : LiveRun) × IfSome (files_of (H.contents shelf.old)) (λ files. verdict_of files (map string_bytes words.now) ≡ Ok asked)
        × (H.faults shelf.new ≡ H.faults shelf.old)
        × Ends (ordered (B.calc bench.old)) asked.ready (replies_in (B.calc bench.old) asked) (F.content feed.old) (F.content feed.new)
        (outside (K.bytes out.old) (K.sent out.old) (B.count bench.old) (B.log bench.old))
        (outside (K.bytes out.new) (K.sent out.new) (B.count bench.new) (B.log bench.new)) result) }
    ensures nothing { IsRefused result → (out.new ≡ out.old) × (feed.new ≡ feed.old) × (bench.new ≡ bench.old) }
    ensures same { B.calc bench.new ≡ B.calc bench.old }

    // A call that failed is the answer, and was the last: any call may fail, and one more would be counted too.
    ensures read { result ≡ Status.ReadFault → (K.faults out.new ≡ K.faults out.old)
        × (((H.faults shelf.new ≡ raised (H.faults shelf.old)) × (F.faults feed.new ≡ F.faults feed.old))
        ⊎ ((H.faults shelf.new ≡ H.faults shelf.old) × (F.faults feed.new ≡ raised (F.faults feed.old)))) }
    ensures quiet { (result ≡ Status.ReadFault → ⊥) → (H.faults shelf.new ≡ H.faults shelf.old) × (F.faults feed.new ≡ F.faults feed.old) }
    ensures write { result ≡ Status.WriteFault → K.faults out.new ≡ raised (K.faults out.old) }
    ensures clean { result ≡ Status.Done → K.faults out.new ≡ K.faults out.old }
    ensures absent { (role : FileRole) → result ≡ Status.Absent role → Rose (H.misses shelf.old) (H.misses shelf.new) }
    ensures files { files_of (H.contents shelf.new) ≡ files_of (H.contents shelf.old) }

    // Each file is read once, in the order above, and none behind the first failure.
    ensures calls { IfSome (files_of (H.contents shelf.old)) (λ files.
        H.calls shelf.new ≤ H.calls shelf.old + reading_calls files (map string_bytes words.now)) }
{
    let wanted = match wanted_of(alloc, words, shelf) {
        Ok(wanted) => wanted,
        Err(status) => return status,
    };
    match converse(alloc, wanted, feed, out, bench) {
        Ok(()) => Status::Done,
        Err(status) => status,
    }
}
