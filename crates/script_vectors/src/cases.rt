// The cases of a file, and how many of them agree.
use crate::asked::Opening;
use crate::tools::Tool;
use crate::wholes::Told;
use crate::{agrees, asked, calls, endless, lives, printed, tools};
use std::alloc::{AllocError, Global};
use std::{fs, io};

/// What the cases of a file are, between two of which a line `==` stands. A case that begins with a file gives its files to the
/// cases behind it.
#[derive(Clone, Copy)]
pub(crate) enum Cases<'a> {
    /// Scripts, which are run or said line by line.
    Told(Told),
    /// Runs of a command of `doqs`.
    Tool(Tool),
    /// Live sessions.
    Live,
    /// Live sessions that are asked by number.
    Asked(Opening<'a>),
    /// Scripts that are printed.
    Printed,
}

/// What the rows of a file are, one a line.
#[derive(Clone, Copy)]
pub(crate) enum Rows {
    /// Runs of a script with a call that fails.
    Calls(calls::Play),
    /// Runs over files that never end.
    Endless,
}

impl Cases<'_> {
    // Whether a case agrees.
    fn agrees(self, alloc: Global, common: &str, case: &str) -> Result<bool, AllocError> {
        match self {
            Cases::Told(told) => agrees(alloc, told, common, case),
            Cases::Tool(tool) => tools::agrees(alloc, tool, case),
            Cases::Live => lives::agrees(alloc, case),
            Cases::Asked(opening) => asked::agrees(alloc, opening, case),
            Cases::Printed => Ok(printed::agrees(alloc, case)),
        }
    }

    // Whether a case that does not agree is printed.
    fn is_told(self) -> bool {
        match self {
            Cases::Told(Told::Said) => false,
            Cases::Told(Told::Run)
            | Cases::Tool(_)
            | Cases::Live
            | Cases::Asked(_)
            | Cases::Printed => true,
        }
    }
}

/// Compares the cases of a file and prints how many agree.
pub(crate) fn compare(rt: &HostRuntime, cases: Cases<'_>, file: &str) -> io::Result<()> {
    let (agree, differ) = counted(rt, cases, file)?;
    println!(rt; "{file}: {agree} agree, {differ} differ")
}

/// Compares the cases of a file, and counts how many agree and how many do not.
pub(crate) fn counted(rt: &HostRuntime, cases: Cases<'_>, file: &str) -> io::Result<(u32, u32)> {
    let text = fs::read_to_string(rt, file)?;
    let mut common = "";
    let mut agree = 0u32;
    let mut differ = 0u32;
    for case in text.split("==\n") {
        if let Some(files) = case.strip_prefix("-- ") {
            common = files;
        } else if cases.agrees(rt.alloc(), common, case)? {
            agree = agree.saturating_add(1);
        } else {
            differ = differ.saturating_add(1);
            if cases.is_told() {
                println!(rt; "{file}: this differs: {case}")?;
            }
        }
    }
    Ok((agree, differ))
}

impl Rows {
    // Whether a row agrees.
    fn agrees(self, alloc: Global, row: &str) -> Result<bool, AllocError> {
        match self {
            Rows::Calls(play) => calls::agrees(alloc, play, row),
            Rows::Endless => endless::agrees(alloc, row),
        }
    }
}

/// Compares the rows of a file and prints how many agree.
pub(crate) fn compare_rows(rt: &HostRuntime, rows: Rows, file: &str) -> io::Result<()> {
    let text = fs::read_to_string(rt, file)?;
    let mut agree = 0u32;
    let mut differ = 0u32;
    for row in text.lines() {
        if rows.agrees(rt.alloc(), row)? {
            agree = agree.saturating_add(1);
        } else {
            differ = differ.saturating_add(1);
            println!(rt; "{file}: this differs: {row}")?;
        }
    }
    println!(rt; "{file}: {agree} agree, {differ} differ")
}
