// Scripts that are read, printed, and read and printed again, beside what an independent model prints. An answer of want
// of memory is a difference.
use desk_names::Names;
use session_lang::{print_script, read_script};
use std::alloc::Global;

/// Whether the script of a case prints as the case says, and what it prints as prints as itself. A case is a script, a line `--`, and
/// what it prints as.
pub(crate) fn agrees(alloc: Global, case: &str) -> bool {
    match case.split_once("--\n") {
        Some((script, text)) => prints_as(alloc, script, text) && prints_as(alloc, text, text),
        None => false,
    }
}

// Whether a script prints as a text. One that has a fault does not.
fn prints_as(alloc: Global, script: &str, text: &str) -> bool {
    match printed(alloc, script) {
        Some(bytes) => bytes.as_slice() == text.as_bytes(),
        None => false,
    }
}

// What a script prints as.
fn printed(alloc: Global, script: &str) -> Option<Vec<u8>> {
    let mut names = Names::new(alloc);
    let script = read_script(alloc, script.as_bytes(), &mut names).ok()?;
    let mut out = Vec::new(alloc);
    print_script(alloc, &script, &names, &mut out).ok()?;
    Some(out)
}
