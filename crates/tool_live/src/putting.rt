// Answers, put into a sink.
ghost use Rattle.std.specs.Prelude.{◌≡◌, ◌≤◌, [], IsErrOf, OnOk, OnErr, IfErr};
ghost use Rattle.desk_edge.specs.Count.{raised};
ghost use Rattle.desk_edge.specs.Sink.{appended};
ghost use Rattle.tool_live.specs.Answers.{PutsFront};

use crate::AnswerFault;
use desk_edge::{Sink, write_whole};

// Puts the answers, and keeps none.
pub(crate) fn put<K: Sink>(answers: &mut Vec<u8>, out: &mut K) -> Result<(), AnswerFault>
    ensures ok { OnOk result ((answers.new.items ≡ []) × (K.bytes out.new ≡ appended answers.old.items (K.bytes out.old))) }
    ensures err { OnErr result (PutsFront answers.old.items (K.bytes out.old) (K.bytes out.new)) }
    ensures clean { OnOk result (K.faults out.new ≡ K.faults out.old) }
    ensures once { OnErr result (K.faults out.new ≡ raised (K.faults out.old)) }
    ensures fault { IfErr result (λ fault. fault ≡ AnswerFault.Write) }
{
    match write_whole(out, answers) {
        Ok(()) => {
            answers.clear();
            Ok(())
        }
        Err(_) => Err(AnswerFault::Write),
    }
}

// Puts the answers, keeps none, and sends on all that was put.
pub(crate) fn send<K: Sink>(answers: &mut Vec<u8>, out: &mut K) -> Result<(), AnswerFault>
    ensures ok { OnOk result ((answers.new.items ≡ []) × (K.bytes out.new ≡ appended answers.old.items (K.bytes out.old))) }
    ensures sent { OnOk result (K.sent out.new ≡ K.bytes out.new) }
    ensures err { OnErr result (PutsFront answers.old.items (K.bytes out.old) (K.bytes out.new)) }
    ensures clean { OnOk result (K.faults out.new ≡ K.faults out.old) }
    ensures once { OnErr result (K.faults out.new ≡ raised (K.faults out.old)) }
    ensures fault { IfErr result (λ fault. fault ≡ AnswerFault.Write) }
{
    put(answers, out)?;
    match out.flush() {
        Ok(()) => Ok(()),
        Err(_) => Err(AnswerFault::Write),
    }
}

// Puts what it can of the answers to lines in which memory ran out.
pub(crate) fn put_front<K: Sink>(answers: &[u8], out: &mut K)
    ensures front { PutsFront answers.now (K.bytes out.old) (K.bytes out.new) }
{
    match write_whole(out, answers) {
        Ok(()) => {}
        // It is want of memory all the same.
        Err(_) => {}
    }
}
