// The object that a name stands for.
ghost use Rattle.std.specs.Prelude.{◌≡◌, ◌++◌, OnOk};
ghost use Rattle.market_desk.specs.Standing.{by_kind, object_named, unnamed_word, unnamed_line};

use desk_names::{Names, ObjId};
use desk_terms::{Kind, Wanted};
use lazy_objects::Desk;
use std::alloc::AllocError;

/// Why a name stands for no object that serves as what is wanted.
#[derive(Clone, Copy, PartialEq, Eq)]
pub enum Unnamed {
    /// No object has it.
    Unknown,
    /// The object that has it is of another kind.
    Kind,
}

impl Unnamed {
    /// Its word.
    pub fn word(self) -> &'static [u8]
        ensures { result.now ≡ unnamed_word self }
    {
        match self {
            Unnamed::Unknown => b"unknown",
            Unnamed::Kind => b"kind",
        }
    }
}

/// The object that has a name and serves as what is wanted, or why there is none. The number of an object is that of its
/// name.
pub fn object_named(
    desk: &Desk,
    names: &Names,
    text: &[u8],
    wanted: Wanted,
) -> Result<ObjId, Unnamed>
    ensures { result ≡ object_named wanted desk.now.market names.now text.now }
{
    match names.find(text) {
        None => Err(Unnamed::Unknown),
        Some(number) => {
            let object = ObjId(number.0);
            by_kind(object, desk.kind(object), wanted)
        }
    }
}

// An object by what it is.
fn by_kind(object: ObjId, kind: Option<Kind>, wanted: Wanted) -> Result<ObjId, Unnamed>
    ensures { result ≡ by_kind wanted object kind }
{
    match kind {
        None => Err(Unnamed::Unknown),
        Some(kind) if kind.serves(wanted) => Ok(object),
        Some(_) => Err(Unnamed::Kind),
    }
}

/// Appends the line of a tool that says why a name stands for no object that serves, the name as it was given.
#[tactic(auto, unfolding(crate::specs::Standing::unnamed_line))]
pub fn unnamed_line(
    tool: &[u8],
    why: Unnamed,
    name: &[u8],
    lines: &mut Vec<u8>,
) -> Result<(), AllocError>
    ensures { OnOk result (lines.new.items ≡ lines.old.items ++ unnamed_line tool.now why name.now) }
{
    lines.extend_from_slice(b"refused ")?;
    lines.extend_from_slice(tool)?;
    lines.extend_from_slice(b" ")?;
    lines.extend_from_slice(why.word())?;
    lines.extend_from_slice(b" ")?;
    lines.extend_from_slice(name)?;
    lines.extend_from_slice(b"\n")
}
