// Texts that are handed to C.
ghost use Rattle.std.specs.Prelude.{◌≡◌};
ghost use Rattle.desk_c.specs.Texts.{laid};

use std::cmp::min;

// Lays a text into a room, as much of it as fits.
pub(crate) fn lay(text: &[u8], room: &mut [u8])
    ensures { room.new ≡ laid text.now room.old }
{
    let count = min(text.len(), room.len());
    room[..count].copy_from_slice(&text[..count]);
}
