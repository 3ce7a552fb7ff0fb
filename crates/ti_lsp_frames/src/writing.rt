// Messages to a writer.
ghost use Rattle.std.specs.Prelude.{OnOk};
ghost use Rattle.std.specs.Io.KnownBytes.{Appends};
ghost use Rattle.ti_lsp_frames.specs.Messages.{written_message};

use std::io::{self, Write};

/// Writes a message with this content, and flushes the writer. After an error a part of the message may have been written.
pub fn write_message<W: Write>(writer: &mut W, content: &[u8]) -> io::Result<()>
    ensures { OnOk result
        (Appends (W.contents writer.old) (W.contents writer.new) (written_message content.now)) }
{
    let length = content.len();
    write!(writer, "Content-Length: {length}\r\n\r\n")?;
    writer.write_all(content)?;
    writer.flush()
}
