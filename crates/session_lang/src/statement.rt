// Reads one line of a script.
ghost use Rattle.std.specs.Prelude.{◌≡◌, ◌+◌, ◌≤◌, ◌&&◌, not, cond, ℕ, List, length, map, nat_le, Some, Ok, IfSome, OnErr};
ghost use Rattle.std.specs.Str.{bytes_eq};
ghost use Rattle.desk_names.specs.Names.{most_names, IsNames};
ghost use Rattle.script_words.specs.Given.{Gives, Grows, Keeps};
ghost use Rattle.session_commands.specs.Table.{row_of, verb_of, words_at, words_in};
ghost use Rattle.session_commands.specs.declared.table.Verb.TheVariants.{Ask, Set, Member};
ghost use Rattle.session_lang.specs.declared.statement.Statement.TheVariants.{Run};
ghost use Rattle.script_words.specs.Line.{words_of};
ghost use Rattle.session_lang.specs.FirstFault.{begin, command, by_verb, places, names_at, names_in, AddsFront};
ghost use Rattle.session_lang.specs.Statement.{Known, ArePlain, PlainOf, names_with, fields_meaning, command_meaning, begin_meaning, end_meaning, words_meaning, line_meaning};

use crate::known_line::known_line;
use crate::met::Met;
use desk_names::{MOST_NAMES, NameId, Names, is_name};
use script_words::{
    LineFault, field_of, good_words_of, names_new, number_of, number_of_word, weight_of_word,
    word_at, word_said,
};
use session_commands::{Command, Kind, Parts, ScriptKind, Verb};

/// A line of a script. A watch has its action by the number of the action's name until the whole script is read.
#[derive(Clone, Copy)]
pub enum Statement {
    /// An empty line or a comment.
    Blank,
    /// `action A`: a block of this name begins.
    Begin(NameId),
    /// `end`: a block ends.
    End,
    /// A command.
    Run(Command),
}

// Returns the arguments of a command apart from the names in them, or the first fault among them.
fn words_said(verb: Verb, words: &[&[u8]]) -> Result<Parts, ScriptKind>
    ensures { ArePlain verb (map (λ word. word.now) words.now) result }
{
    let (_, kind1, kind2, kind3) = verb.row();
    let first = word_said(kind1, word_at(words, 0))?;
    let second = word_said(kind2, word_at(words, 1))?;
    let third = word_said(kind3, word_at(words, 2))?;
    Ok(Parts {
        verb,
        first,
        second,
        third,
    })
}

// Returns whether a new name is new after another word: it differs from that word, or that word is no new name.
fn new_behind(is_new: bool, other_new: bool, other: &[u8], word: &[u8]) -> bool
    ensures { result ≡ (is_new && not (other_new && bytes_eq word.now other.now)) }
{
    is_new && !(other_new && word == other)
}

// Returns how many of three are true.
fn count_of(first: bool, second: bool, third: bool) -> u32
    ensures count { result ≡ cond first 1 0 + cond second 1 0 + cond third 1 0 }
    ensures few { result ≤ 3 }
{
    u32::from(first) + u32::from(second) + u32::from(third)
}

// Returns how many new names the arguments have.
fn new_names(verb: Verb, words: &[&[u8]], names: &Names) -> u32
    ensures count { length (names_with (row_of verb) (map (λ word. word.now) words.now) names.now) ≡ length names.now + result }
    ensures few { result ≤ 3 }
{
    let (_, kind1, kind2, kind3) = verb.row();
    let (one, two, three) = (word_at(words, 0), word_at(words, 1), word_at(words, 2));
    let first = names_new(names, kind1, one);
    let second = new_behind(names_new(names, kind2, two), first, one, two);
    let third = new_behind(names_new(names, kind3, three), first, one, three);
    count_of(first, second, new_behind(third, second, two, three))
}

// Returns whether there is room for the names of the arguments. There are at most three, so the new ones are counted only if
// there is no room for three.
fn has_room(verb: Verb, words: &[&[u8]], names: &Names) -> bool
    ensures room { result ≡ nat_le (length (names_with (row_of verb) (map (λ word. word.now) words.now) names.now)) most_names }
    ensures names { IsNames names.now }
{
    if names.len() + 3 <= MOST_NAMES {
        return true;
    }
    names.len() + new_names(verb, words, names) <= MOST_NAMES
}

// Returns the command of a row whose words have no fault. `plain` has the arguments apart from the names in them.
#[tactic(auto, unfolding(crate::specs::Statement::fields_meaning), using(script_words::proofs::Interning::grows_on, crate::proofs::AddedNames::adds_none))]
fn run_fields(
    verb: Verb,
    plain: Parts,
    words: &[&[u8]],
    names: &mut Names,
    begun: &mut Names,
) -> Result<Statement, LineFault>
    requires plain { PlainOf verb (map (λ word. word.now) words.now) plain }
    requires room { length (names_with (row_of verb) (map (λ word. word.now) words.now) names.old) ≤ most_names }
    ensures gives { Gives (λ s. (s, record { names = names.new; begun = begun.new })) result
        (fields_meaning (record { names = names.old; begun = begun.old }) verb (map (λ word. word.now) words.now)) }
    ensures grows { Grows names.old names.new }
    ensures begun { Grows begun.old begun.new }
    ensures kept { Keeps result names.old names.new }
    ensures unbegun { OnErr result (begun.new ≡ begun.old) }
    ensures added { OnErr result (AddsFront names.old (names_at (places (command verb)) 0 (map (λ word. word.now) words.now)) names.new) }
{
    let (_, kind1, kind2, kind3) = verb.row();
    let first = field_of(names, kind1, word_at(words, 0), plain.first)?;
    let second = field_of(names, kind2, word_at(words, 1), plain.second)?;
    let third = field_of(names, kind3, word_at(words, 2), plain.third)?;
    let parts = Parts {
        verb,
        first,
        second,
        third,
    };
    Ok(Statement::Run(parts.command()))
}

// Returns the command of an ask, a set or a member, if its words have no fault and all its names are known. Most lines of a
// long script are of these, and each of their words is looked at once.
fn known_command(verb: Verb, words: &[&[u8]], names: &Names) -> Option<Command>
    ensures { IfSome result (λ c. (begun : List (List ℕ)) →
        command_meaning (record { names = names.now; begun = begun }) (Some verb) (map (λ word. word.now) words.now)
        ≡ Ok (Run c, record { names = names.now; begun = begun })) }
{
    match verb {
        Verb::Ask => known_ask(words, names),
        Verb::Set => known_set(words, names),
        Verb::Member => known_member(words, names),
        _ => None,
    }
}

// Returns an ask of a known name.
fn known_ask(words: &[&[u8]], names: &Names) -> Option<Command>
    ensures { IfSome result (λ c. (begun : List (List ℕ)) →
        command_meaning (record { names = names.now; begun = begun }) (Some Ask) (map (λ word. word.now) words.now)
        ≡ Ok (Run c, record { names = names.now; begun = begun })) }
{
    match words {
        [name] => Some(Command::Ask(names.find(name)?)),
        _ => None,
    }
}

// Returns a set of a known name.
fn known_set(words: &[&[u8]], names: &Names) -> Option<Command>
    ensures { IfSome result (λ c. (begun : List (List ℕ)) →
        command_meaning (record { names = names.now; begun = begun }) (Some Set) (map (λ word. word.now) words.now)
        ≡ Ok (Run c, record { names = names.now; begun = begun })) }
{
    match words {
        [name, value] => Some(Command::Set(names.find(name)?, number_of_word(value)?)),
        _ => None,
    }
}

// Returns a member of a known name in a composite of a known name.
fn known_member(words: &[&[u8]], names: &Names) -> Option<Command>
    ensures { IfSome result (λ c. (begun : List (List ℕ)) →
        command_meaning (record { names = names.now; begun = begun }) (Some Member) (map (λ word. word.now) words.now)
        ≡ Ok (Run c, record { names = names.now; begun = begun })) }
{
    match words {
        [composite, member, weight] => Some(Command::Member(
            names.find(composite)?,
            names.find(member)?,
            weight_of_word(weight)?,
        )),
        _ => None,
    }
}

// Returns the statement of a command, by its first word and its arguments.
#[tactic(auto, unfolding(crate::specs::Statement::command_meaning), using(script_words::proofs::Interning::grows_same, crate::proofs::AddedNames::adds_none))]
fn run_line(
    first: &[u8],
    words: &[&[u8]],
    names: &mut Names,
    begun: &mut Names,
) -> Result<Statement, LineFault>
    ensures gives { Gives (λ s. (s, record { names = names.new; begun = begun.new })) result
        (command_meaning (record { names = names.old; begun = begun.old }) (verb_of first.now) (map (λ word. word.now) words.now)) }
    ensures grows { Grows names.old names.new }
    ensures begun { Grows begun.old begun.new }
    ensures kept { Keeps result names.old names.new }
    ensures unbegun { OnErr result (begun.new ≡ begun.old) }
    ensures added { OnErr result (AddsFront names.old (names_at (places (by_verb (verb_of first.now))) 0 (map (λ word. word.now) words.now)) names.new) }
{
    let Some(verb) = Verb::of_word(first) else {
        return Err(LineFault::Kind(ScriptKind::Word));
    };
    if let Some(command) = known_command(verb, words, names) {
        return Ok(Statement::Run(command));
    }
    if words.len() != words_in(verb) {
        return Err(LineFault::Kind(ScriptKind::Count));
    }
    match words_said(verb, words) {
        Ok(plain) if has_room(verb, words, names) => run_fields(verb, plain, words, names, begun),
        Ok(_) => Err(LineFault::Kind(ScriptKind::Names)),
        Err(fault) => Err(LineFault::Kind(fault)),
    }
}

fn words_at(kind: Kind) -> usize
    ensures value { result ≡ words_at kind }
    ensures bound { result ≤ 1 }
{
    match kind {
        Kind::Nothing => 0,
        Kind::Name
        | Kind::Value
        | Kind::Number
        | Kind::Rate
        | Kind::Day
        | Kind::Weight
        | Kind::Engine
        | Kind::Target
        | Kind::Switch
        | Kind::Action => 1,
    }
}

// Returns how many arguments a command has.
fn words_in(verb: Verb) -> usize
    ensures { result ≡ words_in (row_of verb) }
{
    let (_, first, second, third) = verb.row();
    words_at(first) + words_at(second) + words_at(third)
}

// Reads `action A`.
#[tactic(auto, unfolding(crate::specs::Statement::begin_meaning), using(script_words::proofs::Interning::grows_same, crate::proofs::AddedNames::adds_none))]
fn begin_line(
    words: &[&[u8]],
    names: &mut Names,
    begun: &mut Names,
    inside: bool,
) -> Result<Statement, LineFault>
    ensures gives { Gives (λ s. (s, record { names = names.new; begun = begun.new })) result
        (begin_meaning (record { names = names.old; begun = begun.old }) inside (map (λ word. word.now) words.now)) }
    ensures grows { Grows names.old names.new }
    ensures begun { Grows begun.old begun.new }
    ensures kept { Keeps result names.old names.new }
    ensures unbegun { OnErr result (begun.new ≡ begun.old) }
    ensures added { OnErr result (AddsFront names.old (names_at (places begin) 0 (map (λ word. word.now) words.now)) names.new) }
{
    if words.len() != 1 {
        return Err(LineFault::Kind(ScriptKind::Count));
    }
    if inside {
        return Err(LineFault::Kind(ScriptKind::Nested));
    }
    let word = word_at(words, 0);
    if !is_name(word) {
        return Err(LineFault::Kind(ScriptKind::Name));
    }
    if begun.find(word).is_some() {
        return Err(LineFault::Kind(ScriptKind::Twice));
    }
    // A line with a fault adds its name to neither list, so the room for actions is checked before a name is added.
    if begun.len() == MOST_NAMES {
        return Err(LineFault::Kind(ScriptKind::Names));
    }
    let name = number_of(names, word)?;
    number_of(begun, word)?;
    Ok(Statement::Begin(name))
}

// Reads `end`.
fn end_line(words: &[&[u8]], inside: bool) -> Result<Statement, LineFault>
    ensures { (known : Known) → Gives (λ s. (s, known)) result (end_meaning known inside (map (λ word. word.now) words.now)) }
{
    if !words.is_empty() {
        return Err(LineFault::Kind(ScriptKind::Count));
    }
    if !inside {
        return Err(LineFault::Kind(ScriptKind::End));
    }
    Ok(Statement::End)
}

// Returns the statement of the words of a line.
#[tactic(auto, unfolding(crate::specs::Statement::words_meaning), using(script_words::proofs::Interning::grows_same, crate::proofs::AddedNames::adds_none))]
fn words_line(
    words: &[&[u8]],
    names: &mut Names,
    begun: &mut Names,
    inside: bool,
) -> Result<Statement, LineFault>
    ensures gives { Gives (λ s. (s, record { names = names.new; begun = begun.new })) result
        (words_meaning (record { names = names.old; begun = begun.old }) inside (map (λ word. word.now) words.now)) }
    ensures grows { Grows names.old names.new }
    ensures begun { Grows begun.old begun.new }
    ensures kept { Keeps result names.old names.new }
    ensures unbegun { OnErr result (begun.new ≡ begun.old) }
    ensures added { OnErr result (AddsFront names.old (names_in (map (λ word. word.now) words.now)) names.new) }
{
    let [first, rest @ ..] = words else {
        return Ok(Statement::Blank);
    };
    if *first == b"action".as_slice() {
        return begin_line(rest, names, begun, inside);
    }
    if *first == b"end".as_slice() {
        return end_line(rest, inside);
    }
    run_line(first, rest, names, begun)
}

/// Reads one line. The names of a line without a fault are added to `names` in order. A line that begins a block adds its name
/// to `begun`, the names of the actions so far. `words` and `met` are reused for all lines. An ask or a set of known names is
/// read without splitting it into words.
///
/// # Errors
///
/// The first fault of the line, which adds no name, or out of memory, where a prefix of its names may have been added.
#[tactic(auto, using(script_words::proofs::Interning::grows_same, crate::proofs::AddedNames::adds_none))]
pub fn read_line<'a>(
    line: &'a [u8],
    words: &mut Vec<&'a [u8]>,
    names: &mut Names,
    begun: &mut Names,
    met: &mut Met,
    inside: bool,
) -> Result<Statement, LineFault>
    ensures gives { Gives (λ s. (s, record { names = names.new; begun = begun.new })) result
        (line_meaning (record { names = names.old; begun = begun.old }) inside line.now) }
    ensures grows { Grows names.old names.new }
    ensures begun { Grows begun.old begun.new }
    ensures kept { Keeps result names.old names.new }
    ensures unbegun { OnErr result (begun.new ≡ begun.old) }
    ensures added { OnErr result (AddsFront names.old (names_in (words_of line.now)) names.new) }
{
    match known_line(line, names, met) {
        Some(command) => Ok(Statement::Run(command)),
        None => read_words(line, words, names, begun, inside),
    }
}

// Reads a line by its words.
#[tactic(auto, unfolding(crate::specs::Statement::line_meaning), using(script_words::proofs::Interning::grows_same, crate::proofs::AddedNames::adds_none))]
pub(crate) fn read_words<'a>(
    line: &'a [u8],
    words: &mut Vec<&'a [u8]>,
    names: &mut Names,
    begun: &mut Names,
    inside: bool,
) -> Result<Statement, LineFault>
    ensures gives { Gives (λ s. (s, record { names = names.new; begun = begun.new })) result
        (line_meaning (record { names = names.old; begun = begun.old }) inside line.now) }
    ensures grows { Grows names.old names.new }
    ensures begun { Grows begun.old begun.new }
    ensures kept { Keeps result names.old names.new }
    ensures unbegun { OnErr result (begun.new ≡ begun.old) }
    ensures added { OnErr result (AddsFront names.old (names_in (words_of line.now)) names.new) }
{
    if !good_words_of(line, words)? {
        return Err(LineFault::Kind(ScriptKind::Byte));
    }
    words_line(words.as_slice(), names, begun, inside)
}
