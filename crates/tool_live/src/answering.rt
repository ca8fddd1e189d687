// All lines of a feed.
ghost use Rattle.std.specs.Prelude.{◌≡◌, ◌≤◌, ◌<◌, ◌++◌, ℕ, List, [], length, OnOk, OnErr, IfOk, IfErr, IfSome, IsErrOf};
ghost use Rattle.std.specs.Str.Lines.{lines};
ghost use Rattle.std.specs.Io.KnownBytes.{ReadConsumes};
ghost use Rattle.desk_edge.specs.Count.{raised};
ghost use Rattle.desk_edge.specs.Sink.{appended};
ghost use Rattle.tool_live.specs.Answers.{IsPrompt, PutsFront};
ghost use Rattle.tool_live.specs.Hearing.{IsOpen};

use crate::Answerer;
use crate::hearing::{answer_alone, hear};
use crate::putting::{put_front, send};
use desk_edge::{Feed, Sink};
use std::alloc::{AllocError, Global};
use thiserror::Error;

/// Why lines were not answered to their end.
#[derive(Clone, Copy, Debug, PartialEq, Eq, Error)]
pub enum AnswerFault {
    #[error("the feed failed")]
    Read,
    #[error("the sink failed")]
    Write,
    /// Memory ran out, or there were more pieces than can be counted, 2^64 - 1.
    #[error("out of memory")]
    NoMemory,
}

impl From<AllocError> for AnswerFault {
    ghost use Rattle.std.specs.Prelude.{◌≡◌};
    ghost use Rattle.tool_live.specs.declared.answering.AnswerFault.TheVariants.{NoMemory};

    ghost from_gives = { λ _ e. e ≡ NoMemory };

    fn from(_e: AllocError) -> AnswerFault {
        AnswerFault::NoMemory
    }
}

// The most bytes of a piece.
const ROOM: usize = 65_536;

/// Answers the lines of a feed to its end. What the lines of a piece call for is put and sent on before the next is waited
/// for. A line is what stands before a newline, without one carriage return at its end; the last may lack its newline. Of a
/// line that does not end, at most 65,538 bytes are kept.
pub fn answer_all<A: Answerer, F: Feed, K: Sink>(
    alloc: Global,
    answerer: &mut A,
    feed: &mut F,
    out: &mut K,
) -> Result<(), AnswerFault>
    requires can { A.can answerer.old }
    requires sent { K.sent out.old ≡ K.bytes out.old }
    ensures kept { A.kept answerer.new ≡ A.kept answerer.old }
    // However the feed is cut, at Ok the bytes are those for the lines of all that it holds, and were sent on; the bench was called for
    // them, and for no other. After a failure a front of the bytes was put.
    ensures written { OnOk result (IfSome (F.content feed.old) (λ content.
        K.bytes out.new ≡ appended (A.told answerer.old (lines content)) (K.bytes out.old))) }
    ensures calls { OnOk result (IfSome (F.content feed.old) (λ content.
        A.called answerer.new [] ≡ A.called answerer.old (lines content))) }
    ensures sent { OnOk result (K.sent out.new ≡ K.bytes out.new) }
    ensures front { OnErr result (IfSome (F.content feed.old) (λ content.
        PutsFront (A.told answerer.old (lines content)) (K.bytes out.old) (K.bytes out.new))) }
    // It waits for more only once all that came is answered: any call of the feed may fail, and where one does, all that its lines call
    // for was put and sent on.
    ensures prompt { IsErrOf result AnswerFault.Read → IsPrompt (F.content feed.old) (F.content feed.new)
        (A.told answerer.old) (A.told answerer.new) (A.called answerer.old) (A.called answerer.new)
        (K.bytes out.old) (K.bytes out.new) (K.sent out.new) }
    // A call that failed is the answer, and was the last; where memory ran out, no more is waited for.
    ensures read { IsErrOf result AnswerFault.Read → (F.faults feed.new ≡ raised (F.faults feed.old)) × (K.faults out.new ≡ K.faults out.old) }
    ensures write { IsErrOf result AnswerFault.Write → (F.faults feed.new ≡ F.faults feed.old) × (K.faults out.new ≡ raised (K.faults out.old)) }
    ensures quiet { IsErrOf result AnswerFault.NoMemory → F.faults feed.new ≡ F.faults feed.old }
    ensures clean { OnOk result ((F.faults feed.new ≡ F.faults feed.old) × (K.faults out.new ≡ K.faults out.old)) }
{
    let mut room = vec![in alloc; 0u8; ROOM]?;
    let mut line = Vec::new(alloc);
    let mut answers = Vec::new(alloc);
    for _ in 0..u64::MAX {
        let count = next_piece(feed, room.as_mut_slice())?;
        if count == 0 {
            return finish(alloc, answerer, &line, &mut answers, out);
        }
        hear(
            alloc,
            answerer,
            &room.as_slice()[..count],
            &mut line,
            &mut answers,
            out,
        )?;
        send(&mut answers, out)?;
    }
    Err(AnswerFault::NoMemory)
}

// Waits for more.
fn next_piece<F: Feed>(feed: &mut F, room: &mut [u8]) -> Result<usize, AnswerFault>
    requires { 0 < length room.old }
    ensures within { IfOk result (λ count. count ≤ length room.old) }
    ensures bytes { ReadConsumes (F.content feed.old) (F.content feed.new) result room.new }
    ensures quiet { IfOk result (λ _. F.faults feed.new ≡ F.faults feed.old) }
    ensures failed { OnErr result (F.faults feed.new ≡ raised (F.faults feed.old)) }
    ensures fault { IfErr result (λ fault. fault ≡ AnswerFault.Read) }
{
    match feed.take(room) {
        Ok(count) => Ok(count),
        Err(_) => Err(AnswerFault::Read),
    }
}

// At the end: the line that lacks its end, if there is one, and what the end calls for.
fn finish<A: Answerer, K: Sink>(
    alloc: Global,
    answerer: &mut A,
    line: &[u8],
    answers: &mut Vec<u8>,
    out: &mut K,
) -> Result<(), AnswerFault>
    requires can { A.can answerer.old }
    ensures kept { A.kept answerer.new ≡ A.kept answerer.old }
    ensures ok { OnOk result ((part : List ℕ) → IsOpen part line.now
        → (K.bytes out.new ≡ appended (answers.old.items ++ A.told answerer.old (lines part)) (K.bytes out.old))
        × (A.called answerer.new [] ≡ A.called answerer.old (lines part))) }
    ensures err { OnErr result ((part : List ℕ) → IsOpen part line.now
        → PutsFront (answers.old.items ++ A.told answerer.old (lines part)) (K.bytes out.old) (K.bytes out.new)) }
    ensures sent { OnOk result (K.sent out.new ≡ K.bytes out.new) }
    ensures clean { OnOk result (K.faults out.new ≡ K.faults out.old) }
    ensures once { IsErrOf result AnswerFault.Write → K.faults out.new ≡ raised (K.faults out.old) }
    ensures no_read { IsErrOf result AnswerFault.Read → ⊥ }
{
    if !line.is_empty() {
        answer_alone(alloc, answerer, line, answers, out)?;
    }
    close(answerer, answers, out)
}

// What the end calls for, behind the last line.
fn close<A: Answerer, K: Sink>(
    answerer: &mut A,
    answers: &mut Vec<u8>,
    out: &mut K,
) -> Result<(), AnswerFault>
    requires can { A.can answerer.old }
    ensures kept { A.kept answerer.new ≡ A.kept answerer.old }
    ensures ok { OnOk result ((K.bytes out.new ≡ appended (answers.old.items ++ A.told answerer.old []) (K.bytes out.old))
        × (A.called answerer.new [] ≡ A.called answerer.old [])) }
    ensures err { OnErr result (PutsFront (answers.old.items ++ A.told answerer.old []) (K.bytes out.old) (K.bytes out.new)) }
    ensures sent { OnOk result (K.sent out.new ≡ K.bytes out.new) }
    ensures clean { OnOk result (K.faults out.new ≡ K.faults out.old) }
    ensures once { IsErrOf result AnswerFault.Write → K.faults out.new ≡ raised (K.faults out.old) }
    ensures no_read { IsErrOf result AnswerFault.Read → ⊥ }
{
    match answerer.end(answers) {
        Ok(()) => send(answers, out),
        Err(_) => {
            put_front(answers, out);
            Err(AnswerFault::NoMemory)
        }
    }
}
