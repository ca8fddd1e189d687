// What a name is.
ghost use Rattle.std.specs.Prelude.{◌≡◌};
ghost use Rattle.std.specs.List.{list_all};
ghost use Rattle.desk_names.specs.Name.{has_form, is_name, is_name_byte, is_reserved};

/// The most bytes that a name has.
const MOST_BYTES: usize = 32;

/// Whether the text is a name: 1 to 32 ASCII letters, digits and `_`, the first a letter, and not `none` or `unset`
/// (this project's profile). Large and small letters differ, so `Unset` is a name.
#[tactic(auto, unfolding(crate::specs::Name::is_name))]
pub fn is_name(text: &[u8]) -> bool
    ensures { result ≡ is_name text.now }
{
    has_form(text) && text.len() <= MOST_BYTES && !is_reserved(text)
}

#[tactic(auto, unfolding(crate::specs::Name::has_form))]
fn has_form(text: &[u8]) -> bool
    ensures { result ≡ has_form text.now }
{
    match text {
        [first, rest @ ..] => first.is_ascii_alphabetic() && has_name_bytes(rest),
        [] => false,
    }
}

fn has_name_bytes(text: &[u8]) -> bool
    ensures { result ≡ list_all is_name_byte text.now }
{
    text.iter().all(|byte| is_name_byte(*byte))
}

#[tactic(auto, unfolding(crate::specs::Name::is_name_byte))]
fn is_name_byte(byte: u8) -> bool
    ensures { result ≡ is_name_byte byte }
{
    byte.is_ascii_alphanumeric() || byte == b'_'
}

#[tactic(auto, unfolding(crate::specs::Name::is_reserved))]
fn is_reserved(text: &[u8]) -> bool
    ensures { result ≡ is_reserved text.now }
{
    text == b"none".as_slice() || text == b"unset".as_slice()
}
