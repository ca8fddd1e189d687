// A tool, and how a run of it ends.
use crate::Ending;
use desk_edge::Shelf;
use desk_terms::Bench;
use std::alloc::{AllocError, Global};

/// How a run of a tool ends.
pub trait ToolStatus: Ending {
    ghost use Rattle.std.specs.Prelude.{◌≡◌};
    ghost use Rattle.tool_frame.specs.Endings.{Endings, AreEndings};

    /// The stage that a run with each status reached, and the statuses of every tool.
    ghost ends: { Endings Self };

    /// Returns the status of a text that was written.
    fn done() -> Self
        ensures { result ≡ ends.done };

    /// Returns the status of a text that was not written to its end.
    fn cut() -> Self
        ensures { result ≡ ends.cut };

    /// Returns the status of a run that ran out of memory.
    fn halted() -> Self
        ensures { result ≡ ends.halted };

    /// Each status has the stage that its run reached.
    ghost sound: { AreEndings ends };
}

/// A tool. A run of it reads the files that its words name, and makes one text of them.
pub trait Tool<'a> {
    ghost use Rattle.std.specs.Prelude.{◌≡◌, ◌⊎◌, List, map, IfOk};
    ghost use Rattle.std.specs.String.{string_bytes};
    ghost use Rattle.tool_frame.specs.Calls.{Calls};
    ghost use Rattle.tool_frame.specs.Tool.{Tool, Finds, shelf_turn};

    /// The data read from the files, with the request.
    type Wanted: Drop;

    /// How a run of it ends.
    type Status: ToolStatus;

    /// The request of its words, and the request with the files read, as the definitions see them.
    ghost Request: { Type 0 };

    ghost Asked: { Type 0 };

    ghost asked_in: { Self.Wanted → Self.Asked };

    /// Its requests of words and files, its text, and its computations.
    ghost tool: { Tool Self.Request Self.Asked Self.Status };

    /// The property of the data that was read.
    ghost CanRun: { Self.Wanted → Type 0 };

    /// Returns the data that the words name, read from the files.
    ///
    /// # Errors
    ///
    /// The status of the first failure: that of the words, and then that of the files in reading order.
    fn find<H: Shelf>(
        alloc: Global,
        words: &'a [String],
        shelf: &mut H,
    ) -> Result<Self::Wanted, Self::Status>
        ensures found { Finds Self.Status.ends tool.asks asked_in (map string_bytes words.now) result
            (shelf_turn H.contents H.faults H.misses H.calls shelf.old shelf.new) }
        ensures can { IfOk result CanRun };

    /// Returns its text.
    ///
    /// # Errors
    ///
    /// `AllocError` where memory runs out.
    fn text<B: Bench>(
        alloc: Global,
        wanted: Self::Wanted,
        bench: &mut B,
    ) -> Result<Vec<u8>, AllocError>
        requires can { CanRun wanted }
        ensures text { IfOk result (λ text. text.items ≡ tool.output (B.calc bench.old) (asked_in wanted)) }
        ensures calls { Calls (tool.computed (B.calc bench.old) (asked_in wanted)) result
            (B.count bench.old) (B.count bench.new) (B.log bench.old) (B.log bench.new) }
        ensures unneeded { tool.NeedsBench (asked_in wanted) ⊎ (bench.new ≡ bench.old) }
        ensures same { B.calc bench.new ≡ B.calc bench.old };
}
