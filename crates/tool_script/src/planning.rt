// What words and files ask for.
ghost use Rattle.std.specs.Prelude.{◌≡◌, ◌↔◌, ◌+◌, ◌≤◌, map, None, Some, IfSome, IfOk, IfErr, IsErrOf};
ghost use Rattle.std.specs.String.{string_bytes};
ghost use Rattle.desk_edge.specs.Count.{Rose};
ghost use Rattle.desk_edge.specs.Shelf.{files_of};
ghost use Rattle.desk_words.specs.Answers.{request_in, IsSized};
ghost use Rattle.desk_words.specs.Words.{request_of};
ghost use Rattle.market_loader.specs.Reads.{Reads, seen};
ghost use Rattle.tool_script.specs.declared.status.FileRole.{FileRole};
ghost use Rattle.tool_frame.specs.Run.{Tells, faults_after};
ghost use Rattle.tool_frame.specs.Stage.{IsBefore};
ghost use Rattle.tool_script.specs.Found.{IsRefusal, CanDo, plan_in};
ghost use Rattle.tool_script.specs.Refusals.{status_end};
ghost use Rattle.tool_script.specs.Status.{stage_of};
ghost use Rattle.tool_script.specs.Verdict.{IsCheck, IsReport, plan_of, plan_calls, reading_calls, verdict_of};

use crate::counting::check_of;
use crate::loading::open_load;
use crate::reading::{open_market, open_run};
use crate::{Plan, Status};
use desk_edge::Shelf;
use desk_words::{Request, WordsFault, read_words};
use std::alloc::Global;

/// What the words ask for over the files of the shelf, or the status with which they are refused: the first failure in this
/// order. The words; the market's file and the tables' names in it; the file of the quotes, and that of the fixings, where
/// the market names them; the market; and for a run the script's file and the script. A load looks at no file. The words are
/// those behind the program's name.
pub fn plan_of<H: Shelf>(alloc: Global, words: &[String], shelf: &mut H) -> Result<Plan, Status>
    // The plan is that of the words and the files, and so is the refusal, but for a fault of reading or want of memory.
    ensures plans { IfSome (files_of (H.contents shelf.old)) (λ files. Tells stage_of plan_in result (verdict_of files (map string_bytes words.now))) }
    ensures usage { IsErrOf result Status.Usage ↔ (request_of (map string_bytes words.now) ≡ None) }
    ensures checked { IsCheck (request_of (map string_bytes words.now)) → IfOk result (λ plan. IsReport (plan_in plan)) }

    // A session can be made of its market, and knows the commands of its script.
    ensures can { IfOk result CanDo }
    ensures before { IfErr result (λ status. IsBefore (stage_of status)) }

    // Each file is read once, and none behind the first failure. Each fault and each absent file was counted.
    ensures files { files_of (H.contents shelf.new) ≡ files_of (H.contents shelf.old) }
    ensures calls { IfSome (files_of (H.contents shelf.old)) (λ files.
        H.calls shelf.new ≤ H.calls shelf.old + reading_calls files (map string_bytes words.now)) }
    ensures read { IsErrOf result Status.ReadFault → Rose (H.faults shelf.old) (H.faults shelf.new) }
    ensures counted { H.faults shelf.new ≡ faults_after stage_of result (H.faults shelf.old) }
    ensures absent { (role : FileRole) → IsErrOf result (Status.Absent role) → Rose (H.misses shelf.old) (H.misses shelf.new) }
{
    match read_words(alloc, words) {
        Ok(request) => plan_for(alloc, &request, shelf),
        Err(WordsFault::Usage) => Err(Status::Usage),
        Err(WordsFault::NoMemory) => Err(Status::NoMemory),
    }
}

// What a request asks for, over the files.
fn plan_for<H: Shelf>(alloc: Global, request: &Request, shelf: &mut H) -> Result<Plan, Status>
    requires sized { IsSized request.now }
    ensures reads { Reads status_end plan_in (plan_of (request_in request.now)) (plan_calls (request_in request.now))
        (seen (H.contents shelf.old) (H.faults shelf.old) (H.misses shelf.old) (H.calls shelf.old))
        (seen (H.contents shelf.new) (H.faults shelf.new) (H.misses shelf.new) (H.calls shelf.new)) result }
    ensures checked { IsCheck (Some (request_in request.now)) → IfOk result (λ plan. IsReport (plan_in plan)) }
    ensures can { IfOk result CanDo }
    ensures refused { IfErr result IsRefusal }
{
    match request {
        Request::Run {
            market,
            script,
            order,
        } => {
            let run = open_run(alloc, shelf, market.text(), script.text())?;
            Ok(Plan::Run { run, order: *order })
        }
        Request::Load { n } => {
            let run = open_load(alloc, *n)?;
            Ok(Plan::Load { size: *n, run })
        }
        Request::Check { market } => {
            let market = open_market(alloc, shelf, market.text())?;
            Ok(check_of(&market))
        }
    }
}
