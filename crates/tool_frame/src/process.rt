// The process of a program.
use crate::{Ended, Ending};
use desk_edge::{Feed, FileShelf, InFeed, OutSink, Shelf, Sink};
use std::alloc::Global;
use std::{env, io};

/// A program: what it does with words over files, standard input, standard output and standard error. A program that needs
/// less ignores the rest.
pub trait Program {
    /// How a run of it ends.
    type Status: Ending;

    /// Its run. The words are those after its name. The line of its status comes after the notes.
    fn run<H: Shelf, F: Feed, K: Sink, N: Sink>(
        alloc: Global,
        words: &[String],
        shelf: &mut H,
        feed: &mut F,
        out: &mut K,
        notes: &mut N,
    ) -> Self::Status;
}

/// Runs a program of this name on the words of the command line, the system's files and the three standard streams, and returns
/// how that ended.
pub fn run_process<P: Program>(rt: &HostRuntime, program: &'static str) -> Ended<P::Status> {
    Ended {
        program,
        status: carry_out::<P>(rt),
    }
}

// Does what the command line asks for.
fn carry_out<P: Program>(rt: &HostRuntime) -> P::Status {
    let words = match words_of(rt) {
        Ok(words) => words,
        Err(status) => return status,
    };
    let Ok(files) = rt.clone() else {
        return P::Status::no_memory();
    };
    let mut shelf = FileShelf::new(files);
    let mut feed = InFeed::new(rt.stdin());
    let mut out = OutSink::new(io::writer(rt));
    let mut notes = OutSink::new(rt.stderr());
    P::run(
        rt.alloc(),
        &words,
        &mut shelf,
        &mut feed,
        &mut out,
        &mut notes,
    )
}

// The words after the program's name. Words that are no text ask for nothing.
fn words_of<S: Ending>(rt: &HostRuntime) -> Result<Vec<String>, S> {
    match env::args(rt) {
        Ok(args) => match args.skip(1).collect(rt.alloc()) {
            Ok(words) => Ok(words),
            Err(_) => Err(S::no_memory()),
        },
        Err(error) if error.kind() == io::ErrorKind::OutOfMemory => Err(S::no_memory()),
        Err(_) => Err(S::usage()),
    }
}
