// The commands of `doqs` over whole cases: their bytes, their lines on standard error and their exit status are compared with those
// that an independent model writes.
use crate::cases::{self, Cases};
use crate::push_word;
use crate::wholes::{shelf_of, words_of};
use desk_bench::DeskBench;
use desk_edge::{CallList, MemoryFeed, MemoryShelf, MemorySink, SizeList};
use std::alloc::{AllocError, Global};
use std::io;
use tool_frame::Ending;
use tool_front::run_doqs;

// The most bytes that a case may write.
const ROOM: usize = 250_000;

/// The command that the cases of a file run.
#[derive(Clone, Copy)]
pub(crate) enum Tool {
    Bump,
    Curve,
    Explain,
    /// The words of a case name it.
    Front,
    Graph,
    Grid,
    Measure,
    Risk,
    Why,
    Yield,
}

impl Tool {
    // Its name, which stands before the words of a case: none where these name it.
    fn word(self) -> &'static str {
        match self {
            Tool::Bump => "bump",
            Tool::Curve => "curve",
            Tool::Explain => "explain",
            Tool::Front => "",
            Tool::Graph => "graph",
            Tool::Grid => "grid",
            Tool::Measure => "measure",
            Tool::Risk => "risk",
            Tool::Why => "why",
            Tool::Yield => "yield",
        }
    }
}

// Each command's `by_hand` has its limits, names that are none, words and files that are refused or not there; `markets` and
// `bonds` are made at random, `version_two` over markets of version 2; `faults` has markets and scripts that are refused.
pub(crate) fn compare(rt: &HostRuntime) -> io::Result<()> {
    // Quotes at the limit and quotes without a value.
    compare_file(rt, Tool::Bump, "bump_by_hand")?;
    compare_file(rt, Tool::Bump, "bump_markets")?;
    compare_file(rt, Tool::Bump, "bump_faults")?;
    // Curves of one day and of sixty years, factors near 1, above it and far below.
    compare_file(rt, Tool::Curve, "curve_by_hand")?;
    compare_file(rt, Tool::Curve, "curve_markets")?;
    compare_file(rt, Tool::Curve, "curve_version_two")?;
    compare_file(rt, Tool::Curve, "curve_faults")?;
    // Par rates of deposits and swaps, of sums and handles, of curves seen from another day, and one that a unit of a factor moves.
    compare_file(rt, Tool::Curve, "curve_pars")?;
    // Steps that are refused, a day that moves, a fixing that is missing and then told, values that vanish and come back, twenty
    // steps, no step and no ask.
    compare_file(rt, Tool::Explain, "explain_by_hand")?;
    compare_file(rt, Tool::Explain, "explain_markets")?;
    compare_file(rt, Tool::Explain, "explain_faults")?;
    // Sessions of which each shows one thing, and scripts cut off at some command, with what is frozen, late or held then.
    compare_file(rt, Tool::Graph, "graph_by_hand")?;
    compare_file(rt, Tool::Graph, "graph_sessions")?;
    // Blocks in either order, a block that holds nothing, as many blocks and asks as there may be and one more.
    compare_file(rt, Tool::Grid, "grid_by_hand")?;
    compare_file(rt, Tool::Grid, "grid_markets")?;
    compare_file(rt, Tool::Grid, "grid_version_two")?;
    compare_file(rt, Tool::Grid, "grid_faults")?;
    // Sizes at their limits, names that are none and names twice, sides that are refused.
    compare_file(rt, Tool::Risk, "risk_by_hand")?;
    compare_file(rt, Tool::Risk, "risk_markets")?;
    compare_file(rt, Tool::Risk, "risk_faults")?;
    // Answers of which each shows one thing, and of scripts cut off at some command: every kind, mark and cause.
    compare_file(rt, Tool::Why, "why_by_hand")?;
    compare_file(rt, Tool::Why, "why_sessions")?;
    // The same prices and days as for yields.
    compare_file(rt, Tool::Measure, "measure_by_hand")?;
    compare_file(rt, Tool::Measure, "measure_bonds")?;
    // Prices at the curve and beyond, curves that are refused, days off the curve, flows beyond the limit.
    compare_file(rt, Tool::Measure, "measure_spreads")?;
    // Prices at the limits and beyond, days on and beside those of coupons.
    compare_file(rt, Tool::Yield, "yield_by_hand")?;
    compare_file(rt, Tool::Yield, "yield_bonds")?;
    // Help, version, words that are no command, and the commands of `desk`.
    compare_file(rt, Tool::Front, "front")
}

// Compares the cases of a file and prints how many agree.
fn compare_file(rt: &HostRuntime, tool: Tool, file: &str) -> io::Result<()> {
    cases::compare(rt, Cases::Tool(tool), file)
}

/// Whether the run that a case asks for shows the text after its line `-- shown`.
pub(crate) fn agrees(alloc: Global, tool: Tool, case: &str) -> Result<bool, AllocError> {
    match case.split_once("-- shown\n") {
        Some((given, text)) => {
            let mut shelf = shelf_of(alloc, given)?;
            let words = words_of(alloc, given)?;
            let mut feed = MemoryFeed::new(
                Vec::new(alloc),
                SizeList::new(alloc),
                CallList::new(alloc),
            );
            let shown = shown(alloc, tool.word(), &words, &mut shelf, &mut feed)?;
            Ok(shown.as_slice() == text.as_bytes())
        }
        None => Ok(false),
    }
}

/// What a terminal shows of a command over these words: its output, its lines on standard error, and `exit` with its exit status
/// where that is not 0. With no command the words are as they are.
pub(crate) fn shown(
    alloc: Global,
    command: &str,
    words: &[String],
    shelf: &mut MemoryShelf,
    feed: &mut MemoryFeed,
) -> Result<Vec<u8>, AllocError> {
    let given = with_command(alloc, command, words)?;
    let mut out = MemorySink::new(alloc, ROOM, 4096, CallList::new(alloc))?;
    let mut notes = MemorySink::new(alloc, ROOM, 4096, CallList::new(alloc))?;
    let mut bench = DeskBench::new();
    let status = run_doqs(alloc, &given, shelf, feed, &mut out, &mut notes, &mut bench);
    let mut text = out.bytes().to_vec(alloc)?;
    text.extend_from_slice(notes.bytes())?;
    if let Some(words) = status.words() {
        text.extend_from_slice(format!(in alloc; "doqs: {words}\n")?.as_bytes())?;
    }
    if status.code() != 0 {
        text.extend_from_slice(format!(in alloc; "exit {}\n", status.code())?.as_bytes())?;
    }
    Ok(text)
}

// The words with a command before them, where one is named.
fn with_command(alloc: Global, command: &str, words: &[String]) -> Result<Vec<String>, AllocError> {
    let mut given = Vec::new(alloc);
    if !command.is_empty() {
        push_word(alloc, command, &mut given)?;
    }
    for word in words {
        push_word(alloc, word, &mut given)?;
    }
    Ok(given)
}
