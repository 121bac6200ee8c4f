//! What the answers of the program say.

ghost use Rattle.std.specs.Prelude.{Bool, List, Ok, Some, false, ℕ};
ghost use Rattle.dia_captures.specs.declared.summaries.Lines.{Lines as AnyLines};
ghost use Rattle.dia_cli.specs.Ending.{Stream};
ghost use Rattle.dia_cli.specs.OpenedInputs.{IsReadOf};
ghost use Rattle.dia_cli.specs.declared.request.Request.{Request as AnyRequest};
ghost use Rattle.dia_cli.specs.declared.task.Answering.{Answering as AnyAnswering};
ghost use Rattle.dia_io.specs.declared.Exit.{Exit as AnyExit};
ghost use Rattle.dia_io.specs.declared.Inputs.{Inputs as AnyInputs};
ghost use Rattle.dia_terms.specs.declared.Levels.{Levels as AnyLevels};
ghost use Rattle.dia_terms.specs.declared.Unknown.{Unknown as AnyPolicy};
ghost use Rattle.dia_program.specs.AllBytes.{AreAllReplied, IsTextOfAll};
ghost use Rattle.dia_program.specs.Claims.{Says};
ghost use Rattle.dia_driver.specs.Program.{RequestEnds};
ghost use Rattle.dia_report.specs.declared.reporting.Reported.{Reported as AnyReported};
ghost use Rattle.dia_show.specs.Lines.{IsLinesOutcome};
ghost use Rattle.dia_program.specs.Captures.{Captures, Lists};
ghost use Rattle.dia_driver.specs.Endings.{Runs};
ghost use Rattle.dia_program.specs.Replies.{Replies};
ghost use Rattle.dia_driver.specs.Tasks.{World};
ghost use Rattle.dia_program.specs.Tasks.{TaskRuns};

/// A request that was answered was answered of inputs that were read. A yes of `compare` says of them that what is valid under the
/// first dictionary is valid under the second, and the end of `breaking` says what breaks; also with `--json`.
pub fn answers_say()
    ensures { (request : AnyRequest) (w : World) (out : Stream) (exit : AnyExit)
        → RequestEnds TaskRuns request w out (Ok exit)
        → (inputs : AnyInputs) × IsReadOf w.content w.standard request.origins inputs
        × Says request.task inputs exit }
{}

/// Where the bytes of the messages are known, `check --lines`, `refute --lines` and `check --stream` write the text for all of
/// them.
pub fn captures_of_bytes()
    ensures { (lines : AnyLines) (u : AnyPolicy) (most : AnyLevels) (inputs : AnyInputs)
        (bytes word : List ℕ) (out : Stream) (reported : AnyReported)
        → Captures lines u most false inputs (Some bytes) word out (Ok reported)
        → Runs (IsTextOfAll lines u most inputs bytes) out (Ok reported) }
{}

/// So does `show --lines`.
pub fn lists_of_bytes()
    ensures { (names : Bool) (inputs : AnyInputs) (bytes word : List ℕ) (out : Stream)
        (reported : AnyReported) → Lists false names inputs (Some bytes) word out (Ok reported)
        → Runs (IsLinesOutcome names inputs bytes) out (Ok reported) }
{}

/// So does `answer --lines`, unless a name of the node is refused.
pub fn replies_of_bytes()
    ensures { (asked : AnyAnswering) (inputs : AnyInputs) (bytes word : List ℕ) (out : Stream)
        (reported : AnyReported) → Replies asked inputs (Some bytes) word out (Ok reported)
        → Runs (AreAllReplied asked inputs bytes) out (Ok reported) }
{}
