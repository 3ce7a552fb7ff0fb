// Writing the lines of a run, or its summary.
ghost use Rattle.std.specs.Prelude.{◌≡◌, ◌≤◌, ◌++◌, ◌∷◌, [], length, OnOk};
ghost use Rattle.ti_io.specs.Sink.{Writes};
ghost use Rattle.ti_lang.specs.Meaning.Lines.{line_of as line_spec, lines_of, literal_text, printed_text};
ghost use Rattle.ti_lang.specs.Program.Views.{program_of};
ghost use Rattle.ti_top.specs.Mirrors.Leaving.{HasNoFailure};
ghost use Rattle.ti_top.specs.Mirrors.Line.{HasLineRoom};
ghost use Rattle.ti_top.specs.Mirrors.JobView.{head_after, summary_after};

use crate::exit::Exit;
use crate::run_line::RunLine;
use crate::summary::summary_line;
use ti_base::{Action, Value};
use ti_history::PackedHistory;
use ti_io::{Failed, Sink, write_piece};
use ti_lang::program::Program;
use ti_syntax::Spelled;
use ti_watch::Line;
use ti_words::Mode;

// The bytes of the literal of a print, or none.
fn literal_bytes(literals: &[Spelled], literal: Option<u32>) -> &[u8]
    ensures { result.now ≡ literal_text literals.now literal }
{
    match literal {
        Some(number) => match literals.get(number as usize) {
            Some(spelled) => spelled.as_bytes(),
            None => &[],
        },
        None => &[],
    }
}

// The text of the value of a print, or none.
fn value_line(value: Option<Value>) -> Line
    ensures text { result ≡ printed_text value }
    ensures short { length result ≤ 37 }
{
    let mut line = Line::new();
    let Some(value) = value else {
        return line;
    };
    match value {
        Value::Int(n) => line.number(n),
        Value::Long(n) => line.number(n),
        Value::Bool(true) => line.text(b"true"),
        Value::Bool(false) => line.text(b"false"),
        Value::Pt(p) => line.point(&p),
        _ => {}
    }
    line
}

// Forms the line of an action. It is empty unless the action is a print.
fn form_line(line: &mut RunLine, literals: &[Spelled], action: Action)
    requires { HasLineRoom literals.now line.old }
    ensures bytes { line.new.taken ≡ line_spec literals.now action }
    ensures room { HasLineRoom literals.now line.new }
{
    line.clear();
    if let Action::Print { literal, value } = action {
        line.text(literal_bytes(literals, literal));
        line.text(value_line(value).as_slice());
        line.text(b"\n");
    }
}

// Writes the lines of a history, each in one write.
fn write_entries<K: Sink>(
    out: &mut K,
    line: &mut RunLine,
    program: &Program,
    history: &PackedHistory,
) -> Result<(), Failed>
    requires { HasLineRoom program.now.parts.literals.items line.old }
    ensures { Writes (lines_of (program_of program.now.parts) history.now.items) (K.state out.old) (K.state out.new) result }
{
    'entries: for entry in history.iter() {
        form_line(line, &program.parts.literals, entry.act);
        write_piece(out, line.as_slice())?;
    }
    Ok(())
}

// Writes the lines of a history, each in one write, and flushes standard output.
fn write_lines<K: Sink>(
    out: &mut K,
    line: &mut RunLine,
    program: &Program,
    history: &PackedHistory,
) -> Result<(), Failed>
    requires { HasLineRoom program.now.parts.literals.items line.old }
    ensures written { Writes (lines_of (program_of program.now.parts) history.now.items) (K.state out.old) (K.state out.new) result }
    ensures unfailed { OnOk result (HasNoFailure (K.state out.old) (K.state out.new)) }
{
    write_entries(out, line, program, history)?;
    out.flush()
}

// Writes the summary of a run, and flushes standard output.
fn write_summary<K: Sink>(out: &mut K, ended: Exit, history: &PackedHistory) -> Result<(), Failed>
    ensures written { Writes (summary_after ended history.now.items) (K.state out.old) (K.state out.new) result }
    ensures unfailed { OnOk result (HasNoFailure (K.state out.old) (K.state out.new)) }
{
    match ended {
        Exit::Done => {
            write_piece(out, summary_line(history).as_slice())?;
            out.flush()
        }
        _ => Ok(()),
    }
}

/// Writes what comes before the reports: in mode run the lines of the run, each in one write; in mode gen its summary.
pub fn write_head<K: Sink>(
    out: &mut K,
    line: &mut RunLine,
    mode: Mode,
    ended: Exit,
    program: &Program,
    history: &PackedHistory,
) -> Result<(), Failed>
    requires { HasLineRoom program.now.parts.literals.items line.old }
    ensures written { Writes (head_after mode ended (program_of program.now.parts) history.now.items) (K.state out.old) (K.state out.new) result }
    ensures unfailed { OnOk result (HasNoFailure (K.state out.old) (K.state out.new)) }
{
    match mode {
        Mode::Run => write_lines(out, line, program, history),
        Mode::Check | Mode::Code | Mode::Verify | Mode::Infer => Ok(()),
        Mode::Gen => write_summary(out, ended, history),
    }
}
