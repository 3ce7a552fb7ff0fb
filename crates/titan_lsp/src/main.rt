//! `titan_lsp`: titan as a language server over standard input and output.
#![tactic(auto)]

use std::io::{self, BufReader, BufWriter};
use std::process::ExitCode;
use ti_analyzer::Titan;
use ti_lsp_serve::{ServeErr, serve};

// Serves the client. True if it said `shutdown` before `exit`.
fn run(rt: &HostRuntime) -> Result<bool, ServeErr> {
    let alloc = rt.alloc();
    let mut input = BufReader::new(alloc, rt.reader())?;
    let mut out = BufWriter::new(alloc, io::writer(rt))?;
    serve(alloc, Titan, &mut input, &mut out)
}

fn main(rt: HostRuntime) -> ExitCode {
    match run(&rt) {
        Ok(true) => ExitCode::from(0),
        Ok(false) => ExitCode::from(1),
        Err(e) => {
            let _ = eprintln!(rt; "titan_lsp: {e}");
            ExitCode::from(1)
        }
    }
}
