//! Plans as lines.
ghost use Rattle.std.specs.Prelude.{◌≡◌, IfErr, map};
ghost use Rattle.values.specs.Sink.{Writes};
ghost use Rattle.explain.specs.PlanText.{indent, line_data, line_text, plan_text};

use values::{Fault, Sink, write_all};

/// A line of a plan: of how many steps its step is a part, and what it says. (EXPLAIN QUERY PLAN)
#[derive(Debug, Drop)]
pub struct PlanLine {
    pub depth: usize,
    pub text: String,
}

/// Writes two spaces for each step that a line is a part of.
fn write_indent<S: Sink>(depth: usize, out: &mut S) -> Result<(), Fault>
    ensures only { IfErr result (λ e. e ≡ Fault.WriteFailed) }
    ensures writes { Writes (indent depth) result (S.facts out.old) (S.facts out.new) }
{
    for _ in 0..depth {
        write_all(out, b"  ")?;
    }
    Ok(())
}

fn write_line<S: Sink>(line: &PlanLine, out: &mut S) -> Result<(), Fault>
    ensures only { IfErr result (λ e. e ≡ Fault.WriteFailed) }
    ensures writes { Writes (line_text (line_data line.now)) result (S.facts out.old) (S.facts out.new) }
{
    write_indent(line.depth, out)?;
    write_all(out, line.text.as_bytes())?;
    write_all(out, b"\n")
}

/// Writes a plan, each of its steps as one line. Its one fault is `WriteFailed`, after a beginning of the plan's text; it takes no
/// memory. (EXPLAIN QUERY PLAN)
pub fn plan_text<S: Sink>(lines: &[PlanLine], out: &mut S) -> Result<(), Fault>
    ensures only { IfErr result (λ e. e ≡ Fault.WriteFailed) }
    ensures writes { Writes (plan_text (map line_data lines.now)) result (S.facts out.old) (S.facts out.new) }
{
    for line in lines {
        write_line(line, out)?;
    }
    Ok(())
}
