// How a program ends.
ghost use Rattle.std.specs.Prelude.{◌≡◌};
ghost use Rattle.std.specs.Process.{exit_status};

use std::fmt;
use std::io::Eprint;
use std::marker::Model;
use std::process::{ExitCode, Termination};

/// How a run ended: an exit status, and the line on standard error of a run that has one.
pub trait Ending: Copy {
    ghost use Rattle.std.specs.Prelude.{◌≡◌, ◌↔◌, ℕ, List, Option, None, IfSome};

    /// The text of its line on standard error after the program's name.
    type Words: fmt::Display + Drop;

    /// The exit status of the program.
    ghost code: { Self → ℕ };

    /// The bytes of its line on standard error after the program's name, or none where it has no line.
    ghost line: { Self → Option (List ℕ) };

    /// Returns the exit status of the program.
    fn code(&self) -> u8
        ensures { result ≡ code self.now };

    /// Returns the status of words that are not accepted. Its exit status is 2.
    fn usage() -> Self
        ensures { code result ≡ 2 };

    /// Returns the status of a run that ran out of memory. Its exit status is 7.
    fn no_memory() -> Self
        ensures { code result ≡ 7 };

    /// Returns the text of its line after the program's name, or none where it has no line.
    fn words(&self) -> Option<Self::Words>
        ensures none { (result ≡ None) ↔ (line self.now ≡ None) }
        ensures said { IfSome result (λ words. Self.Words.output words ≡ line self.now) };
}

/// How a program ended. A `main` that returns it ends with the exit status of its status, and writes the line of a status
/// that has one to standard error. Contracts see the status.
#[derive(Drop)]
pub struct Ended<S> {
    pub(crate) program: &'static str,
    pub(crate) status: S,
}

impl<S> Model for Ended<S> {
    ghost Value = { S };

    ghost view = { λ e. e.status };
}

impl<S: Ending> Termination for Ended<S> {
    fn report<R: Eprint>(self, rt: &R) -> ExitCode
        ensures { exit_status result ≡ S.code self }
    {
        if let Some(words) = self.status.words() {
            // Where standard error cannot be written, the exit status tells all the same.
            let _ = rt.eprintln(format_args!("{}: {words}", self.program));
        }
        ExitCode::from(self.status.code())
    }
}
