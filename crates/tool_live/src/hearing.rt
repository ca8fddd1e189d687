// What a piece says.
ghost use Rattle.std.specs.Prelude.{◌≡◌, ◌<◌, ◌==◌, ◌∷◌, ◌++◌, ℕ, List, OnOk, OnErr, IsErrOf, [], length, position};
ghost use Rattle.std.specs.Str.Lines.{lines, strip_carriage_return};
ghost use Rattle.desk_edge.specs.Count.{raised};
ghost use Rattle.desk_edge.specs.Sink.{appended};
ghost use Rattle.tool_live.specs.Answers.{Answers, Hears, PutsFront};
ghost use Rattle.tool_live.specs.Hearing.{HasNoEnd, IsOpen, kept_with};
ghost use Rattle.tool_live.specs.declared.answerer.TheConstants.{MOST_LINE};

use crate::putting::{put, put_front};
use crate::{AnswerFault, Answerer, MOST_LINE};
use desk_edge::Sink;
use std::alloc::{AllocError, Global};
use std::cmp::min;

// How many bytes are kept of a line that has not ended. Of a longer one this front is longer than a line may be, even
// without a carriage return at its end.
const MOST_KEPT: usize = MOST_LINE + 2;

// So many bytes of answers are put before more lines are heard.
const BATCH: usize = 4096;

// Answers the lines that a piece ends, and keeps the line that it leaves open.
pub(crate) fn hear<A: Answerer, K: Sink>(
    alloc: Global,
    answerer: &mut A,
    piece: &[u8],
    line: &mut Vec<u8>,
    answers: &mut Vec<u8>,
    out: &mut K,
) -> Result<(), AnswerFault>
    requires can { A.can answerer.old }
    ensures kept { A.kept answerer.new ≡ A.kept answerer.old }
    ensures can { OnOk result (A.can answerer.new) }
    ensures ok { OnOk result ((part : List ℕ) → IsOpen part line.old.items → (now : List ℕ) × IsOpen now line.new.items
        × Hears part piece.now now (A.told answerer.old) (A.told answerer.new) (A.called answerer.old) (A.called answerer.new)
        (appended answers.old.items (K.bytes out.old)) (appended answers.new.items (K.bytes out.new))) }
    ensures err { OnErr result ((part : List ℕ) → IsOpen part line.old.items → (rest : List ℕ)
        → PutsFront (answers.old.items ++ A.told answerer.old (lines (part ++ (piece.now ++ rest)))) (K.bytes out.old) (K.bytes out.new)) }
    ensures grows { (said : List ℕ) × (K.bytes out.new ≡ appended said (K.bytes out.old)) }
    ensures clean { OnOk result (K.faults out.new ≡ K.faults out.old) }
    ensures once { IsErrOf result AnswerFault.Write → K.faults out.new ≡ raised (K.faults out.old) }
    ensures no_read { IsErrOf result AnswerFault.Read → ⊥ }
{
    let mut words = Vec::new(alloc);
    let mut rest = piece;
    while let Some(end) = end_of(rest) {
        hear_line(
            alloc,
            answerer,
            &rest[..end],
            &mut words,
            line,
            answers,
            out,
        )?;
        rest = &rest[end + 1..];
    }
    keep(rest, line)?;
    Ok(())
}

// The place of the first newline.
fn end_of(bytes: &[u8]) -> Option<usize>
    ensures { result ≡ position (λ byte. byte == 10) bytes.now }
{
    bytes.iter().position(|byte| *byte == b'\n')
}

// Answers a line that ends behind these bytes. Where nothing was kept of it, it is answered as it lies there.
fn hear_line<'a, A: Answerer, K: Sink>(
    alloc: Global,
    answerer: &mut A,
    text: &'a [u8],
    words: &mut Vec<&'a [u8]>,
    line: &mut Vec<u8>,
    answers: &mut Vec<u8>,
    out: &mut K,
) -> Result<(), AnswerFault>
    requires can { A.can answerer.old }
    requires unended { HasNoEnd text.now }
    ensures kept { A.kept answerer.new ≡ A.kept answerer.old }
    ensures can { OnOk result (A.can answerer.new) }
    ensures ok { OnOk result ((part : List ℕ) → IsOpen part line.old.items
        → Hears part (text.now ++ 10 ∷ []) [] (A.told answerer.old) (A.told answerer.new) (A.called answerer.old) (A.called answerer.new)
        (appended answers.old.items (K.bytes out.old)) (appended answers.new.items (K.bytes out.new))) }
    ensures empty { OnOk result (line.new.items ≡ []) }
    ensures err { OnErr result ((part : List ℕ) → IsOpen part line.old.items → (rest : List ℕ)
        → PutsFront (answers.old.items ++ A.told answerer.old (lines (part ++ (text.now ++ 10 ∷ rest)))) (K.bytes out.old) (K.bytes out.new)) }
    ensures grows { (said : List ℕ) × (K.bytes out.new ≡ appended said (K.bytes out.old)) }
    ensures clean { OnOk result (K.faults out.new ≡ K.faults out.old) }
    ensures once { IsErrOf result AnswerFault.Write → K.faults out.new ≡ raised (K.faults out.old) }
    ensures no_read { IsErrOf result AnswerFault.Read → ⊥ }
{
    if line.is_empty() {
        return answer_line(answerer, without_return(text), words, answers, out);
    }
    keep(text, line)?;
    answer_alone(alloc, answerer, without_return(line), answers, out)?;
    line.clear();
    Ok(())
}

// Adds bytes to a line that has not ended.
fn keep(bytes: &[u8], line: &mut Vec<u8>) -> Result<(), AllocError>
    ensures { OnOk result (line.new.items ≡ kept_with line.old.items bytes.now) }
{
    let room = MOST_KEPT.saturating_sub(line.len());
    let count = min(room, bytes.len());
    line.extend_from_slice(&bytes[..count])
}

// The line without one carriage return at its end.
fn without_return(line: &[u8]) -> &[u8]
    ensures { result.now ≡ strip_carriage_return line.now }
{
    match line {
        [text @ .., b'\r'] => text,
        _ => line,
    }
}

// The same of a line that lies in no piece.
pub(crate) fn answer_alone<A: Answerer, K: Sink>(
    alloc: Global,
    answerer: &mut A,
    line: &[u8],
    answers: &mut Vec<u8>,
    out: &mut K,
) -> Result<(), AnswerFault>
    requires can { A.can answerer.old }
    ensures kept { A.kept answerer.new ≡ A.kept answerer.old }
    ensures can { OnOk result (A.can answerer.new) }
    ensures ok { OnOk result (Answers line.now (A.told answerer.old) (A.told answerer.new) (A.called answerer.old) (A.called answerer.new)
        (appended answers.old.items (K.bytes out.old)) (appended answers.new.items (K.bytes out.new))) }
    ensures err { OnErr result ((rest : List (List ℕ))
        → PutsFront (answers.old.items ++ A.told answerer.old (line.now ∷ rest)) (K.bytes out.old) (K.bytes out.new)) }
    ensures long { MOST_LINE < length line.now → (other : List ℕ) (rest : List (List ℕ)) → MOST_LINE < length other
        → (A.told answerer.old (other ∷ rest) ≡ A.told answerer.old (line.now ∷ rest))
        × (A.called answerer.old (other ∷ rest) ≡ A.called answerer.old (line.now ∷ rest)) }
    ensures grows { (said : List ℕ) × (K.bytes out.new ≡ appended said (K.bytes out.old)) }
    ensures clean { OnOk result (K.faults out.new ≡ K.faults out.old) }
    ensures once { IsErrOf result AnswerFault.Write → K.faults out.new ≡ raised (K.faults out.old) }
    ensures no_read { IsErrOf result AnswerFault.Read → ⊥ }
{
    let mut words = Vec::new(alloc);
    answer_line(answerer, line, &mut words, answers, out)
}

// Answers one line. Where many answers wait, they are put.
pub(crate) fn answer_line<'a, A: Answerer, K: Sink>(
    answerer: &mut A,
    line: &'a [u8],
    words: &mut Vec<&'a [u8]>,
    answers: &mut Vec<u8>,
    out: &mut K,
) -> Result<(), AnswerFault>
    requires can { A.can answerer.old }
    ensures kept { A.kept answerer.new ≡ A.kept answerer.old }
    ensures can { OnOk result (A.can answerer.new) }
    ensures ok { OnOk result (Answers line.now (A.told answerer.old) (A.told answerer.new) (A.called answerer.old) (A.called answerer.new)
        (appended answers.old.items (K.bytes out.old)) (appended answers.new.items (K.bytes out.new))) }
    ensures err { OnErr result ((rest : List (List ℕ))
        → PutsFront (answers.old.items ++ A.told answerer.old (line.now ∷ rest)) (K.bytes out.old) (K.bytes out.new)) }
    ensures long { MOST_LINE < length line.now → (other : List ℕ) (rest : List (List ℕ)) → MOST_LINE < length other
        → (A.told answerer.old (other ∷ rest) ≡ A.told answerer.old (line.now ∷ rest))
        × (A.called answerer.old (other ∷ rest) ≡ A.called answerer.old (line.now ∷ rest)) }
    ensures grows { (said : List ℕ) × (K.bytes out.new ≡ appended said (K.bytes out.old)) }
    ensures clean { OnOk result (K.faults out.new ≡ K.faults out.old) }
    ensures once { IsErrOf result AnswerFault.Write → K.faults out.new ≡ raised (K.faults out.old) }
    ensures no_read { IsErrOf result AnswerFault.Read → ⊥ }
{
    match answerer.answer(line, words, answers) {
        Ok(()) => {
            if answers.len() < BATCH {
                return Ok(());
            }
            put(answers, out)
        }
        Err(_) => {
            put_front(answers, out);
            Err(AnswerFault::NoMemory)
        }
    }
}
