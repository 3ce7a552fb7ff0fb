// The loop of a server. Its contract is about a whole run: all bytes that were read, and all that were written for them.
ghost use Rattle.std.specs.Prelude.{◌≡◌, true, false, Ok, IfOk, OnOk, option_map};
ghost use Rattle.serde_json.specs.View.{view};
ghost use Rattle.ti_lsp_frames.specs.Reading.{AtEnd};
ghost use Rattle.ti_lsp.specs.Sessions.{documents_of, server_state_of};
ghost use Rattle.ti_lsp_serve.specs.Serving.{AnswersContent, Ends, Sends, ServesMessage};

use crate::ServeErr;
use serde_json::Value;
use std::alloc::{AllocError, Global};
use std::io::{Read, Write};
use ti_lsp::{Analyzer, Phase, Session, parse_error};
use ti_lsp_frames::{read_message, write_message};

// Handles a content, and returns the message that is to be sent for it, if any.
fn answer<A: Analyzer>(
    alloc: Global,
    session: &mut Session<A>,
    content: &[u8],
) -> Result<Option<Value>, AllocError>
    ensures { IfOk result (λ o. AnswersContent A.rejects
        (documents_of session.old) (server_state_of session.old) content.now
        (server_state_of session.new) (documents_of session.new) (option_map view o)) }
{
    match Value::from_slice(alloc, content) {
        Ok(message) => session.handle(alloc, &message),
        Err(e) => {
            if e.is_memory() {
                return Err(AllocError);
            }
            Ok(Some(parse_error(alloc)?))
        }
    }
}

// Sends a message, if there is one.
fn send<W: Write>(alloc: Global, out: &mut W, message: &Option<Value>) -> Result<(), ServeErr>
    ensures { OnOk result
        (Sends (W.contents out.old) (W.contents out.new) (option_map view message.now)) }
{
    let Some(message) = message else {
        return Ok(());
    };
    let text = message.to_string(alloc)?;
    write_message(out, text.as_str().as_bytes())?;
    Ok(())
}

// Reads the next message, handles it, and sends what is to be sent for it. False if the reader is at its end.
#[tactic(auto, using(crate::proofs::Served::stepped))]
fn step<A: Analyzer, R: Read, W: Write>(
    alloc: Global,
    session: &mut Session<A>,
    input: &mut R,
    out: &mut W,
) -> Result<bool, ServeErr>
    ensures stepped { IfOk result (λ more. more ≡ true → ServesMessage A.rejects
        (documents_of session.old) (server_state_of session.old)
        (R.remaining input.old) (R.remaining input.new)
        (W.contents out.old) (W.contents out.new)
        (server_state_of session.new) (documents_of session.new)) }
    ensures end { result ≡ Ok false → AtEnd (R.remaining input.old) (R.remaining input.new) }
    ensures session { result ≡ Ok false → session.new ≡ session.old }
    ensures written { result ≡ Ok false → W.contents out.new ≡ W.contents out.old }
{
    let Some(content) = read_message(alloc, input)? else {
        return Ok(false);
    };
    let message = answer(alloc, session, &content)?;
    send(alloc, out, &message)?;
    Ok(true)
}

/// Serves a client until it says `exit` or the reader is at its end. True if the client said `shutdown` before `exit`.
///
/// After an error nothing is said of what was read and written.
#[tactic(auto, using(crate::proofs::Served::nothing_served, crate::proofs::Served::go_on, crate::proofs::Served::ends_asked, crate::proofs::Served::ends_aborted, crate::proofs::Served::ends_over))]
pub fn serve<A: Analyzer + Drop, R: Read, W: Write>(
    alloc: Global,
    analyzer: A,
    input: &mut R,
    out: &mut W,
) -> Result<bool, ServeErr>
    ensures { IfOk result (Ends A.rejects (R.remaining input.old) (R.remaining input.new)
        (W.contents out.old) (W.contents out.new)) }
{
    let mut session = Session::new(alloc, analyzer);
    for _ in 0..u64::MAX {
        if !step(alloc, &mut session, input, out)? {
            return Ok(false);
        }
        match session.phase() {
            Phase::Exited => return Ok(true),
            Phase::Aborted => return Ok(false),
            Phase::Uninitialized | Phase::Running | Phase::ShutDown => {}
        }
    }
    Err(ServeErr::TooManyMessages)
}
