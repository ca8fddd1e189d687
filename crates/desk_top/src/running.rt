// The top call.
ghost use Rattle.std.specs.Prelude.{◌≡◌, ◌⊎◌, ◌↔◌, ◌+◌, ◌≤◌, Ok, length, map, None, IfSome};
ghost use Rattle.std.specs.String.{string_bytes};
ghost use Rattle.desk_edge.specs.Count.{Rose, raised};
ghost use Rattle.desk_edge.specs.Shelf.{files_of};
ghost use Rattle.desk_terms.specs.Bench.{counted, logged};
ghost use Rattle.desk_words.specs.Words.{request_of};
ghost use Rattle.tool_script.specs.declared.status.FileRole.{FileRole};
ghost use Rattle.tool_script.specs.declared.status.Status.{Status};
ghost use Rattle.tool_script.specs.Found.{faults_then};
ghost use Rattle.tool_script.specs.Verdict.{Plan as Wanted, IsAccepted, IsCheck, reading_calls, status_of, verdict_of};
ghost use Rattle.desk_top.specs.Early.{outside, IsCut, IsHalted};
ghost use Rattle.desk_top.specs.Output.{computed_by, output_of, rounds_of, IsToldOf};
ghost use Rattle.desk_top.specs.Written.{Writes};
ghost use Rattle.desk_top.specs.Headline.{IsHeadline};
ghost use Rattle.desk_top.specs.Run.{IsOutside, IsEarly, IsQuiet};

use crate::Status;
use crate::carrying::carry_out;
use desk_edge::{Shelf, Sink};
use desk_terms::Bench;
use std::alloc::Global;
use tool_script::plan_of;

/// Does what the words ask for over the files of the shelf, writes the transcript to `out`, and answers how that went.
/// The words are those behind the program's name. The prices are those of the bench.
///
/// The first failure in this order is the answer: the words; the market's file and the tables' names in it; the file of
/// the quotes, and that of the fixings, where the market names them; the market. Then a check writes its one line. A run
/// goes on: the script's file, the script; then the round of each command, with the runs of the watchers that it makes due
/// in the order that the words name, whose lines are written before the next round begins. Nothing is written before the
/// first command. A load looks at no file: the texts of its size stand for the market, its quotes and the script; it
/// does their rounds, and writes how many lines and bytes the transcript has, and its last line. A fault outside, or
/// want of memory, may come at any time.
pub fn run<H: Shelf, K: Sink, B: Bench>(
    alloc: Global,
    words: &[String],
    shelf: &mut H,
    out: &mut K,
    bench: &mut B,
) -> Status
    // THE HEADLINE. At Done the bytes are the transcript of what was accepted, at each moment of which an object that is clear is
    // answered afresh from the market of that moment, or refused as that pricing refuses, and one that is frozen or late by its
    // last value, or that it has none. Every round ends: in it each name runs at most 8 times, and there are at most 8 runs for
    // each name that the script gives to watchers.
    ensures headline { IfSome (files_of (H.contents shelf.old)) (λ files. result ≡ Status.Done
        → IsHeadline (B.calc bench.old) (verdict_of files (map string_bytes words.now)) (K.bytes out.old) (K.bytes out.new)) }

    // The status is that of the words and the files, but for a fault outside or want of memory.
    ensures status { IfSome (files_of (H.contents shelf.old)) (λ files.
        IsOutside result ⊎ (result ≡ status_of (verdict_of files (map string_bytes words.now)))) }
    ensures usage { (result ≡ Status.Usage) ↔ (request_of (map string_bytes words.now) ≡ None) }

    // What is accepted is done, where no fault is counted and memory is found.
    ensures complete { IfSome (files_of (H.contents shelf.old)) (λ files.
        IsAccepted (verdict_of files (map string_bytes words.now))
        → IsQuiet (H.faults shelf.old) (H.faults shelf.new) → IsQuiet (K.faults out.old) (K.faults out.new)
        → (result ≡ Status.Done) ⊎ (result ≡ Status.NoMemory)) }

    // At Done the bytes written are the transcript; after a fault of writing or want of memory they are a front of it.
    ensures written { IfSome (files_of (H.contents shelf.old)) (λ files.
        Writes (K.bytes out.old) (K.bytes out.new) (output_of (B.calc bench.old) (verdict_of files (map string_bytes words.now))) result) }
    ensures accepted { IfSome (files_of (H.contents shelf.old)) (λ files.
        result ≡ Status.WriteFault → IsAccepted (verdict_of files (map string_bytes words.now))) }

    // Where it ends early the lines of whole rounds were written, and a part of the next one's; a load counts as one round.
    // `untold` and `stopped` say the same for files told or not.
    ensures cut { IfSome (files_of (H.contents shelf.old)) (λ files. result ≡ Status.WriteFault
        → IsCut (rounds_of (B.calc bench.old) (verdict_of files (map string_bytes words.now)))
        (outside (K.bytes out.old) (B.count bench.old) (B.log bench.old)) (outside (K.bytes out.new) (B.count bench.new) (B.log bench.new))) }
    ensures halted { IfSome (files_of (H.contents shelf.old)) (λ files. result ≡ Status.NoMemory
        → IsHalted (rounds_of (B.calc bench.old) (verdict_of files (map string_bytes words.now)))
        (outside (K.bytes out.old) (B.count bench.old) (B.log bench.old)) (outside (K.bytes out.new) (B.count bench.new) (B.log bench.new))) }
    // Of a script that part is all that was told before memory ran out, unless a put failed.
    ensures told { IfSome (files_of (H.contents shelf.old)) (λ files. result ≡ Status.NoMemory
        → IsToldOf (B.calc bench.old) (verdict_of files (map string_bytes words.now))
        (outside (K.bytes out.old) (B.count bench.old) (B.log bench.old)) (outside (K.bytes out.new) (B.count bench.new) (B.log bench.new))
        ⊎ (K.faults out.new ≡ raised (K.faults out.old))) }
    ensures untold { result ≡ Status.WriteFault → (plan : Wanted)
        × IsCut (rounds_of (B.calc bench.old) (Ok plan))
        (outside (K.bytes out.old) (B.count bench.old) (B.log bench.old)) (outside (K.bytes out.new) (B.count bench.new) (B.log bench.new)) }
    ensures stopped { result ≡ Status.NoMemory → (plan : Wanted)
        × IsHalted (rounds_of (B.calc bench.old) (Ok plan))
        (outside (K.bytes out.old) (B.count bench.old) (B.log bench.old)) (outside (K.bytes out.new) (B.count bench.new) (B.log bench.new)) }
    ensures nothing { IsEarly result → out.new ≡ out.old }

    // At Done the bench was called for the computations of the transcript, in their order, and for no other.
    ensures count { IfSome (files_of (H.contents shelf.old)) (λ files. result ≡ Status.Done
        → B.count bench.new ≡ counted (B.count bench.old) (length (computed_by (B.calc bench.old) (verdict_of files (map string_bytes words.now))))) }
    ensures log { IfSome (files_of (H.contents shelf.old)) (λ files. result ≡ Status.Done
        → B.log bench.new ≡ logged (B.log bench.old) (computed_by (B.calc bench.old) (verdict_of files (map string_bytes words.now)))) }
    ensures alone { IsEarly result → bench.new ≡ bench.old }
    ensures checked { IsCheck (request_of (map string_bytes words.now)) → bench.new ≡ bench.old }
    ensures same { B.calc bench.new ≡ B.calc bench.old }

    // Each fault was counted.
    ensures read { result ≡ Status.ReadFault → Rose (H.faults shelf.old) (H.faults shelf.new) }
    // A call of the shelf that failed is the answer, and was the last: any call may fail, and one more would be counted too.
    ensures counted { H.faults shelf.new ≡ faults_then result (H.faults shelf.old) }
    ensures write { result ≡ Status.WriteFault → Rose (K.faults out.old) (K.faults out.new) }
    // The put that failed is the answer, and was the last: any put may fail, and one more would be counted too. At Done none failed. Where
    // memory ran out the put of what was written till then may have failed.
    ensures once { result ≡ Status.WriteFault → K.faults out.new ≡ raised (K.faults out.old) }
    ensures clean { result ≡ Status.Done → K.faults out.new ≡ K.faults out.old }
    ensures at_most { result ≡ Status.NoMemory
        → (K.faults out.new ≡ K.faults out.old) ⊎ (K.faults out.new ≡ raised (K.faults out.old)) }
    ensures absent { (role : FileRole) → result ≡ Status.Absent role → Rose (H.misses shelf.old) (H.misses shelf.new) }
    ensures files { files_of (H.contents shelf.new) ≡ files_of (H.contents shelf.old) }

    // Each file is read once, in the order above, and none behind the first failure.
    ensures calls { IfSome (files_of (H.contents shelf.old)) (λ files.
        H.calls shelf.new ≤ H.calls shelf.old + reading_calls files (map string_bytes words.now)) }
{
    let plan = match plan_of(alloc, words, shelf) {
        Ok(plan) => plan,
        Err(status) => return status,
    };
    match carry_out(alloc, plan, out, bench) {
        Ok(()) => Status::Done,
        Err(status) => status,
    }
}
