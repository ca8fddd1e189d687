// Reads scripts.
ghost use Rattle.std.specs.Prelude.{◌≡◌, ◌<◌, ◌≤◌, ◌^◌, ◌+◌, ◌∷◌, [], ℕ, List, length, None, is_some, false, IfOk, OnOk, OnErr, IsErrOf};
ghost use Rattle.std.specs.Str.Lines.{lines};
ghost use Rattle.session_lang.specs.Given.{GivesAt, at_number};
ghost use Rattle.script_words.specs.Given.{Grows};
ghost use Rattle.desk_names.specs.Names.{IsNames};
ghost use Rattle.session_commands.specs.Whole.{IsScript};
ghost use Rattle.session_commands.specs.declared.script_kind.ScriptKind.TheVariants.{TooLong};
ghost use Rattle.session_lang.specs.declared.fault.ScriptFault.TheVariants.{At};
ghost use Rattle.script_words.specs.Line.{words_of};
ghost use Rattle.session_lang.specs.FirstFault.{ToldFirst, FaultKeeps, AddsFront, names_in, names_said, names_after, with_texts};
ghost use Rattle.session_lang.specs.Reading.{Leaves, AreLeft, lines_meaning, names_left, script_meaning, script_left};
ghost use Rattle.session_lang.specs.Gathered.{gathered_behind, Takes, together_gathered};
ghost use Rattle.text_limits.specs.declared.limit.TheConstants.{MOST_BYTES};

use crate::ScriptFault;
use crate::known_line::known_first;
use crate::met::Met;
use crate::statement::read_words;
use crate::steps::{Step, action_names_of, actions_of, add, all_linked, first_lacking, is_open};
use desk_names::Names;
use script_words::{LineFault, next_line};
use session_commands::{CommandList, Script, ScriptKind};
use std::alloc::Global;
use text_limits::MOST_BYTES;

// The result of the lines of a text: the commands outside blocks, each watch with the number of its action's name, the
// statements that are needed after all lines, and the line of a block that has not ended.
#[derive(Drop)]
struct Read {
    commands: CommandList,
    steps: Vec<Step>,
    open_at: Option<u32>,
}

// Returns the fault of a line with its number.
fn at_number(number: u32, fault: LineFault) -> ScriptFault
    ensures { result ≡ at_number number fault }
{
    match fault {
        LineFault::Kind(kind) => ScriptFault::At { line: number, kind },
        LineFault::NoMemory => ScriptFault::NoMemory,
    }
}

// Reads one line and appends its statement. Returns the line of the block that is open after it.
fn take_line<'a>(
    line: &'a [u8],
    words: &mut Vec<&'a [u8]>,
    number: u32,
    names: &mut Names,
    begun: &mut Names,
    commands: &mut CommandList,
    steps: &mut Vec<Step>,
    open_at: Option<u32>,
) -> Result<Option<u32>, ScriptFault>
    ensures takes { (rest : List (List ℕ)) → Takes result
        (λ o. gathered_behind steps.new.items commands.new (is_some o) (lines_meaning (record { names = names.new; begun = begun.new }) o (number + 1) rest))
        (gathered_behind steps.old.items commands.old (is_some open_at) (lines_meaning (record { names = names.old; begun = begun.old }) open_at number (line.now ∷ rest))) }
    ensures leaves { (rest : List (List ℕ)) → Leaves result names.new
        (λ o. names_left (record { names = names.new; begun = begun.new }) o (number + 1) rest)
        (names_left (record { names = names.old; begun = begun.old }) open_at number (line.now ∷ rest)) }
    ensures grows { Grows names.old names.new }
    ensures read { IsNames names.old → IsNames begun.old → OnOk result
        ((names.new ≡ with_texts names.old (names_in (words_of line.now))) × IsNames names.new × IsNames begun.new) }
    ensures added { IsNames names.old → IsNames begun.old → OnErr result (AddsFront names.old (names_in (words_of line.now)) names.new) }
{
    match read_words(line, words, names, begun, is_open(open_at)) {
        Ok(statement) => Ok(add(commands, steps, number, statement, open_at)?),
        Err(fault) => Err(at_number(number, fault)),
    }
}

// Reads the lines of a text up to the first fault.
fn read_lines(
    alloc: Global,
    text: &[u8],
    names: &mut Names,
    begun: &mut Names,
) -> Result<Read, ScriptFault>
    requires { length text.now < 2 ^ 31 }
    ensures gives { GivesAt (λ read. record { steps = read.steps.items; commands = read.commands; known = record { names = names.new; begun = begun.new }; open_at = read.open_at }) result
        (gathered_behind [] [] false (lines_meaning (record { names = names.old; begun = begun.old }) None 1 (lines text.now))) }
    ensures left { AreLeft result names.new (names_left (record { names = names.old; begun = begun.old }) None 1 (lines text.now)) }
    ensures added { IsNames names.old → IsNames begun.old → AddsFront names.old (names_said (lines text.now)) names.new }
    ensures grows { Grows names.old names.new }
{
    let mut commands = CommandList::new(alloc);
    let mut steps = Vec::new(alloc);
    let mut words = Vec::new(alloc);
    let mut met = Met::new();
    let mut open_at = None;
    let mut number = 1;
    let mut rest = text;
    while !rest.is_empty() {
        match known_first(rest, names, &mut met, is_open(open_at)) {
            Some((command, after)) => {
                commands.push(command)?;
                rest = after;
                number += 1;
            }
            None => {
                let (line, after) = next_line(rest);
                open_at = take_line(
                    line,
                    &mut words,
                    number,
                    names,
                    begun,
                    &mut commands,
                    &mut steps,
                    open_at,
                )?;
                rest = after;
                number += 1;
            }
        }
    }
    Ok(Read {
        commands,
        steps,
        open_at,
    })
}

// Returns the script of lines without an open block.
#[tactic(auto, using(crate::proofs::Blocks::one_name_each))]
fn script_of(
    alloc: Global,
    names: &Names,
    begun: &Names,
    steps: Vec<Step>,
    commands: CommandList,
) -> Result<Script, ScriptFault>
    ensures paired { IfOk result (λ s. length s.actions ≡ length s.action_names) }
    ensures gives { GivesAt (λ s. (s, names.now)) result (together_gathered (record { names = names.now; begun = begun.now }) steps.items commands None) }
{
    if let Some(line) = first_lacking(names, begun, &steps) {
        return Err(ScriptFault::At {
            line,
            kind: ScriptKind::NoAction,
        });
    }
    let actions = actions_of(alloc, names, begun, &steps)?;
    let action_names = action_names_of(alloc, &steps)?;
    // Frees their memory before a second list of commands may be made.
    drop(steps);
    let commands = all_linked(alloc, names, begun, commands)?;
    Ok(Script {
        actions,
        commands,
        action_names,
    })
}

// Returns the script of all lines.
fn finished(alloc: Global, names: &Names, begun: &Names, read: Read) -> Result<Script, ScriptFault>
    ensures paired { IfOk result (λ s. length s.actions ≡ length s.action_names) }
    ensures gives { GivesAt (λ s. (s, names.now)) result
        (together_gathered (record { names = names.now; begun = begun.now }) read.steps.items read.commands read.open_at) }
{
    let commands = read.commands;
    match read.open_at {
        Some(line) => Err(ScriptFault::At {
            line,
            kind: ScriptKind::Unclosed,
        }),
        None => script_of(alloc, names, begun, read.steps, commands),
    }
}

// Returns the script of a text that is not too long, or its first fault.
#[tactic(auto, unfolding(crate::specs::Reading::script_meaning))]
fn read_short(alloc: Global, text: &[u8], names: &mut Names) -> Result<Script, ScriptFault>
    requires { length text.now ≤ MOST_BYTES }
    ensures gives { GivesAt (λ s. (s, names.new)) result (script_meaning names.old text.now) }
    ensures left { AreLeft result names.new (script_left names.old text.now) }
    ensures added { IsNames names.old → AddsFront names.old (names_said (lines text.now)) names.new }
    ensures paired { IfOk result (λ s. length s.actions ≡ length s.action_names) }
    ensures grows { Grows names.old names.new }
{
    let mut begun = Names::new(alloc);
    let read = read_lines(alloc, text, names, &mut begun)?;
    finished(alloc, names, &begun, read)
}

/// Reads a script (this project's profile). The names of its lines, those of actions too, are added to `names` and numbered in
/// order of first use. The numbers in the script stand for names and actions that exist. The time is proportional to the
/// text, with a few look-ups of a name for each word.
///
/// # Errors
///
/// `ScriptFault::At` with the line, from 1, and the kind of the first fault. A line with a fault adds no name: `names` has
/// those of the lines before it. `NoMemory` where memory runs out. Then a prefix of the names of its lines may have been
/// added. Names from before keep their numbers on every exit.
#[tactic(auto, unfolding(crate::specs::Reading::script_meaning), using(script_words::proofs::Interning::grows_same))]
pub fn read_script(alloc: Global, text: &[u8], names: &mut Names) -> Result<Script, ScriptFault>
    ensures gives { GivesAt (λ s. (s, names.new)) result (script_meaning names.old text.now) }
    // A text that is too long is refused, with or without free memory.
    ensures long { MOST_BYTES < length text.now → IsErrOf result (At 0 TooLong) }
    ensures whole { IsNames names.old → IfOk result (λ s. IsScript names.new s) }
    ensures paired { IfOk result (λ s. length s.actions ≡ length s.action_names) }
    ensures fault { IsNames names.old → ToldFirst names.old text.now result }
    ensures kept { IsNames names.old → FaultKeeps names.old text.now names.new result }
    ensures names { IsNames names.old → IfOk result (λ s. names.new ≡ names_after names.old (lines text.now)) }
    // On every exit a prefix of the names of its lines was added, and no other.
    ensures added { IsNames names.old → AddsFront names.old (names_said (lines text.now)) names.new }
    ensures grows { Grows names.old names.new }
{
    if text.len() > MOST_BYTES {
        return Err(ScriptFault::At {
            line: 0,
            kind: ScriptKind::TooLong,
        });
    }
    read_short(alloc, text, names)
}
