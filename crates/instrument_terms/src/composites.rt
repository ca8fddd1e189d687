// The terms of composites.
ghost use Rattle.std.specs.Prelude.{◌≡◌, ◌<◌, ◌^◌, ◌+◌, [], length};
ghost use Rattle.instrument_terms.specs.Parts as due;
ghost use Rattle.instrument_terms.specs.Marks.{AreMarks};

use crate::LimitFault;
use crate::marks::{MARKS, is_marked, mark};
use desk_names::ObjId;
use desk_terms::{Part, PartList, Terms};

/// The greatest size of a weight.
pub const MOST_WEIGHT: u64 = 1_000_000;

/// A composite of parts (QuantLib's `CompositeInstrument`), at most 2^32 - 1 of them. The first part with a fault
/// decides: `Weight` where its weight is 0 or beyond `MOST_WEIGHT` either way, else `Repeated` where its member is that
/// of an earlier part. It takes no memory. Up to 64 parts are each looked for among those before; of more, for the numbers
/// that a session gives, below 65,536, each takes one step.
pub fn composite(parts: PartList) -> Result<Terms, LimitFault>
    requires { length parts < 2 ^ 32 }
    ensures { result ≡ due.composite_or_fault parts }
{
    match fault_of_parts(parts.items()) {
        Some(fault) => Err(fault),
        None => Ok(Terms::Composite(parts)),
    }
}

// How many parts are looked through without marks, which cost a step for each number that a session gives.
const FEW_PARTS: usize = 64;

// The fault of the first part that has one.
pub(crate) fn fault_of_parts(parts: &[Part]) -> Option<LimitFault>
    requires { length parts.now < 2 ^ 32 }
    ensures { result ≡ due.first_fault [] parts.now }
{
    if parts.len() <= FEW_PARTS {
        fault_of_few(parts)
    } else {
        fault_of_many(parts)
    }
}

// The same, where each part looks through those before it.
fn fault_of_few(parts: &[Part]) -> Option<LimitFault>
    requires { length parts.now < 2 ^ 32 }
    ensures { result ≡ due.first_fault [] parts.now }
{
    for at in 0..parts.len() {
        let part = &parts[at];
        let found = fault_behind(&parts[..at], part);
        if found.is_some() {
            return found;
        }
    }
    None
}

// The fault of a part behind others.
fn fault_behind(before: &[Part], part: &Part) -> Option<LimitFault>
    requires { length before.now + 1 < 2 ^ 32 }
    ensures { result ≡ due.part_fault before.now part.now }
{
    let number = before.len() as u32 + 1;
    if !is_weight(part.weight) {
        return Some(LimitFault::Weight(number));
    }
    if has_member(before, part.member) {
        return Some(LimitFault::Repeated(number));
    }
    None
}

// Whether a member stands in parts.
fn has_member(parts: &[Part], member: ObjId) -> bool
    ensures { result ≡ due.has_member parts.now member }
{
    parts.iter().any(|part| part.member == member)
}

// The same, where each part leaves a mark.
#[inline(never)]
fn fault_of_many(parts: &[Part]) -> Option<LimitFault>
    requires { length parts.now < 2 ^ 32 }
    ensures { result ≡ due.first_fault [] parts.now }
{
    let mut marks = [false; MARKS];
    for at in 0..parts.len() {
        let part = &parts[at];
        let found = fault_of_part(&marks, &parts[..at], part);
        if found.is_some() {
            return found;
        }
        mark(&mut marks, part.member);
    }
    None
}

// The fault of a part behind others, whose members are marked.
fn fault_of_part(marks: &[bool], before: &[Part], part: &Part) -> Option<LimitFault>
    requires few { length before.now + 1 < 2 ^ 32 }
    requires marks { AreMarks before.now marks.now }
    ensures { result ≡ due.part_fault before.now part.now }
{
    let number = before.len() as u32 + 1;
    if !is_weight(part.weight) {
        return Some(LimitFault::Weight(number));
    }
    if is_repeated(marks, before, part.member) {
        return Some(LimitFault::Repeated(number));
    }
    None
}

// Whether a weight is not 0, and within its limit either way.
fn is_weight(weight: i64) -> bool
    ensures { result ≡ due.is_weight weight }
{
    weight != 0 && weight.unsigned_abs() <= MOST_WEIGHT
}

// Whether a member stands in parts, whose members are marked.
fn is_repeated(marks: &[bool], before: &[Part], member: ObjId) -> bool
    requires { AreMarks before.now marks.now }
    ensures { result ≡ due.has_member before.now member }
{
    if member.place() < MARKS {
        return is_marked(marks, member);
    }
    has_member(before, member)
}
