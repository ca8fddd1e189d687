// Marks of the members of parts: one mark for each number that a session gives.
ghost use Rattle.std.specs.Prelude.{◌≡◌, ◌<◌, slice_get, Some, length};
ghost use Rattle.instrument_terms.specs.Marks.{marked};

use desk_names::ObjId;

/// How many numbers have a mark of their own: as many as a session gives.
pub(crate) const MARKS: usize = 65_536;

/// Whether a number that has a mark is marked.
pub(crate) fn is_marked(marks: &[bool], member: ObjId) -> bool
    requires { member < length marks.now }
    ensures { slice_get marks.now member ≡ Some result }
{
    marks[member.place()]
}

/// Marks a number, where it has a mark.
pub(crate) fn mark(marks: &mut [bool], member: ObjId)
    ensures { marks.new ≡ marked marks.old member }
{
    if member.place() < marks.len() {
        marks[member.place()] = true;
    }
}
