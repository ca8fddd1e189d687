// A tool that takes names.
use crate::ToolStatus;
use desk_edge::Shelf;
use desk_terms::Bench;
use std::alloc::{AllocError, Global};

/// The text of a tool that takes names.
#[derive(Drop)]
pub struct NamedText {
    /// The bytes to write.
    pub text: Vec<u8>,
    /// True where a name is unknown, or of a kind that is not accepted.
    pub refuses: bool,
}

/// A tool that takes names. A run of it reads the files that its words name, makes one text of them, and reports a wrong name.
pub trait NamedTool<'a> {
    ghost use Rattle.std.specs.Prelude.{◌≡◌, ◌⊎◌, Bool, List, map, IfOk};
    ghost use Rattle.std.specs.String.{string_bytes};
    ghost use Rattle.desk_terms.specs.Reading.{Calc};
    ghost use Rattle.tool_frame.specs.Calls.{Calls};
    ghost use Rattle.tool_frame.specs.Tool.{Tool, Finds, shelf_turn};

    /// The data read from the files, with the request.
    type Wanted: Drop;

    /// The status of a run whose names are right.
    type Status: ToolStatus;

    /// The request of its words, and the request with the files read, as the definitions see them.
    ghost Request: { Type 0 };

    ghost Asked: { Type 0 };

    ghost asked_in: { Self.Wanted → Self.Asked };

    /// Its requests of words and files, its text, and its computations.
    ghost tool: { Tool Self.Request Self.Asked Self.Status };

    /// True where a name of the request is wrong.
    ghost refuses: { Calc → Self.Asked → Bool };

    /// The property of the data that was read.
    ghost CanRun: { Self.Wanted → Type 0 };

    /// Returns the data that the words name, read from the files.
    ///
    /// # Errors
    ///
    /// The status of the first failure: that of the words, and then that of the files in reading order.
    fn find<H: Shelf>(
        alloc: Global,
        words: &'a [String],
        shelf: &mut H,
    ) -> Result<Self::Wanted, Self::Status>
        ensures found { Finds Self.Status.ends tool.asks asked_in (map string_bytes words.now) result
            (shelf_turn H.contents H.faults H.misses H.calls shelf.old shelf.new) }
        ensures can { IfOk result CanRun };

    /// Returns its text, with true where a name is wrong.
    ///
    /// # Errors
    ///
    /// `AllocError` where memory runs out.
    fn text<B: Bench>(
        alloc: Global,
        wanted: Self::Wanted,
        bench: &mut B,
    ) -> Result<NamedText, AllocError>
        requires can { CanRun wanted }
        ensures text { IfOk result (λ text. text.text.items ≡ tool.output (B.calc bench.old) (asked_in wanted)) }
        ensures refuses { IfOk result (λ text. text.refuses ≡ refuses (B.calc bench.old) (asked_in wanted)) }
        ensures calls { Calls (tool.computed (B.calc bench.old) (asked_in wanted)) result
            (B.count bench.old) (B.count bench.new) (B.log bench.old) (B.log bench.new) }
        ensures unneeded { tool.NeedsBench (asked_in wanted) ⊎ (bench.new ≡ bench.old) }
        ensures same { B.calc bench.new ≡ B.calc bench.old };
}
