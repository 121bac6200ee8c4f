//! `render`: the canonical text of a dictionary text.

ghost use Rattle.std.specs.Prelude.{IfOk};
ghost use Rattle.dia_run.specs.Kinds.{IsOfRender, Reports};
ghost use Rattle.dia_run.specs.Outcome.{IsRenderOutcome};
ghost use Rattle.dia_run.specs.Report.{Answers, HasReport};

use crate::inputs::dictionary::read_source;
use dia_dict::{Book, IndexedBook};
use dia_io::{Exit, Inputs};
use dia_report::{Answered, Refused, Report};
use std::alloc::Global;

/// The canonical text of the first dictionary, which is read and not resolved.
pub fn render(alloc: Global, inputs: &Inputs) -> Result<Answered, Refused>
    ensures outcome { Answers (IsRenderOutcome inputs.now) result }
    ensures report { IfOk result (HasReport ⟦<IndexedBook as Book>⟧.meaning inputs.now) }
    ensures kind { IfOk result (Reports IsOfRender) }
{
    let source = read_source(alloc, 1, &inputs.first)?;
    let text = dia_ccf::render(alloc, &source)?;
    let exit = Exit::Yes;
    let report = Report::Done;
    Ok(Answered { text, exit, report })
}
