// Names that stand for no instrument.
ghost use Rattle.std.specs.Prelude.{◌≡◌, map};
ghost use Rattle.std.specs.String.{string_bytes};
ghost use Rattle.tool_risk.specs.Named.{is_refused, refuses_names};

use desk_names::Names;
use desk_terms::Wanted;
use lazy_objects::Desk;
use market_desk::object_named;

// Whether one of these names is unknown, or that of no instrument.
pub(crate) fn refuses_names(desk: &Desk, names: &Names, texts: &[String]) -> bool
    ensures { result ≡ refuses_names desk.now.market names.now (map string_bytes texts.now) }
{
    for text in texts {
        if is_refused(desk, names, text.as_bytes()) {
            return true;
        }
    }
    false
}

fn is_refused(desk: &Desk, names: &Names, text: &[u8]) -> bool
    ensures { result ≡ is_refused desk.now.market names.now text.now }
{
    object_named(desk, names, text, Wanted::Member).is_err()
}
