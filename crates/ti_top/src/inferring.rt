// Mode infer: the marks of single values of a text are inferred and written.
ghost use Rattle.std.specs.Prelude.{◌≡◌, ◌≤◌, ◌++◌, ℕ, List, length, flat_map, IfOk, OnOk};
ghost use Rattle.ti_blame.specs.declared.mark.Mark.{Mark as MarkSeen};
ghost use Rattle.ti_rules.specs.declared.refusal.Refusal.{Refusal as RefusalSeen};
ghost use Rattle.ti_top.specs.Inference.{HasMarking, IsUnmarkedRefusal, kind_name, mark_line as line_spec, marks_text as text_spec};
ghost use Rattle.ti_top.specs.Mirrors.Inferring.{Infers, MarksSay, exit_of};
ghost use Rattle.ti_top.specs.Mirrors.Leaving.{LeavesOut};

use crate::compiling::{CompileErr, one_answer, read_program};
use crate::exit::Exit;
use crate::reports::write_text;
use std::alloc::Global;
use ti_base::Memory;
use ti_blame::{Mark, MarkKind};
use ti_check::check_types;
use ti_infer::{InferErr, Marking, infer, one_inference, stripped, stripped_once};
use ti_io::Sink;
use ti_lex::one_reading;
use ti_names::one_program;
use ti_parse::one_text;
use ti_rules::{Refusal, Rule};
use ti_watch::Line;

impl From<InferErr> for CompileErr {
    ghost use Rattle.std.specs.Prelude.{◌≡◌};
    ghost use Rattle.ti_top.specs.Mirrors.Inferring.{of_inference};

    ghost from_gives = { λ e found. found ≡ of_inference e };

    fn from(error: InferErr) -> CompileErr {
        match error {
            InferErr::NoMarking(place) => CompileErr::Refused(Refusal {
                rule: Rule::B1,
                place,
            }),
            InferErr::Memory => CompileErr::Memory,
        }
    }
}

/// A law: a text has one greatest marking or one refusal, whatever marks it has, and never both.
pub fn one_marking()
    ensures one_marking { (text : List ℕ) (a b : List MarkSeen) → HasMarking text a → HasMarking text b → a ≡ b }
    ensures one_refusal { (text : List ℕ) (a b : RefusalSeen) → IsUnmarkedRefusal text a → IsUnmarkedRefusal text b → a ≡ b }
    ensures never_both { (text : List ℕ) (marks : List MarkSeen) (refusal : RefusalSeen) → HasMarking text marks
        → IsUnmarkedRefusal text refusal → ⊥ }
{
    one_reading();
    one_text();
    one_program();
    one_answer();
    one_inference();
}

/// Infers the greatest marking of a text: its program, with all marks removed, is checked against the rules of types and qualifiers, and then
/// every declaration that can be single is marked.
pub fn infer_marks(alloc: Global, text: &[u8]) -> Result<Marking, CompileErr>
    ensures { Infers text.now result }
{
    one_marking();
    stripped_once();
    let read = read_program(alloc, text)?;
    let program = stripped(read);
    check_types(alloc, &program)?;
    let marking = infer(alloc, &program)?;
    Ok(marking)
}

// The name of a kind of declaration. It fits a line.
fn kind_bytes(kind: MarkKind) -> &'static [u8]
    ensures value { result.now ≡ kind_name kind }
    ensures short { length result.now ≤ 8 }
{
    match kind {
        MarkKind::Method => b"method",
        MarkKind::Result => b"result",
        MarkKind::Variable => b"variable",
    }
}

// The line of a mark.
fn mark_line(mark: Mark) -> Line
    ensures { result ≡ line_spec mark }
{
    let mut line = Line::new();
    line.number(mark.place.line);
    line.text(b":");
    line.number(mark.place.col);
    line.text(b" ");
    line.text(kind_bytes(mark.kind));
    line.text(b"\n");
    line
}

fn push_lines(marks: &[Mark], text: &mut Vec<u8>) -> Result<(), Memory>
    ensures { OnOk result (text.new.items ≡ text.old.items ++ flat_map line_spec marks.now) }
{
    for mark in marks {
        text.extend_from_slice(mark_line(*mark).as_slice())?;
    }
    Ok(())
}

// A line for each mark.
fn marks_text(alloc: Global, marks: &[Mark]) -> Result<Vec<u8>, Memory>
    ensures { IfOk result (λ text. text.items ≡ text_spec marks.now) }
{
    let mut text = Vec::new(alloc);
    push_lines(marks, &mut text)?;
    Ok(text)
}

/// Writes a line for each mark, all in one write. Out of memory, nothing is written.
pub fn write_marks<K: Sink>(alloc: Global, marking: &Marking, out: &mut K) -> Result<(), Exit>
    ensures says { MarksSay (exit_of result) marking.now (K.state out.old) (K.state out.new) }
    ensures leaves { LeavesOut (exit_of result) (K.state out.old) (K.state out.new) }
{
    let text = marks_text(alloc, marking.marks())?;
    write_text(out, &text)?;
    Ok(())
}
