// What the system answers to a read or a write. The kind of an error tells an interruption, after which the call is made again, from a
// failure, of which the message is written here, next to the call that failed.
ghost use Rattle.std.specs.Prelude.{length};
ghost use Rattle.streams.specs.System.{Means, AtMost};

use std::io::{ErrorKind, Write};
use std::{io, str};

// Why a call moved no byte: it was interrupted before it moved one, or it failed, which was told there.
#[derive(Clone, Copy)]
pub enum Stop {
    Interrupted,
    Failed,
}

// Room for the longest text of an error, and for the number behind it.
const TEXT: usize = 256;

// What stands between the text of the system's errors and their number.
const NUMBER: &str = " (os error ";

// Puts the text of an error into a buffer, and answers how much of the buffer is left behind it.
fn lay_text(error: io::Error, text: &mut [u8]) -> usize {
    let mut rest = text;
    let _ = write!(rest, "{error}");
    rest.len()
}

// The text of an error as the system has it: the number that std puts behind it is left out.
fn system_text(text: &[u8]) -> &[u8] {
    let Ok(shown) = str::from_utf8(text) else {
        return text;
    };
    match shown.rsplit_once(NUMBER) {
        Some((before, _)) => before.as_bytes(),
        None => text,
    }
}

// Tells what failed, as the caller names it, a colon and the text of the error. That it cannot be told is told nowhere.
pub fn fail<M: Write>(what: &[u8], error: io::Error, messages: &mut M) {
    let mut text = [0u8; TEXT];
    let left = lay_text(error, &mut text);
    let laid = TEXT.saturating_sub(left);
    let _ = messages.write_all(what);
    let _ = messages.write_all(b": ");
    let _ = messages.write_all(system_text(&text[..laid]));
    let _ = messages.write_all(b"\n");
}

// What `got` means, which a call on that buffer answered: how many bytes it moved, or why none; `what` begins the message.
pub fn meaning<M: Write>(
    got: io::Result<usize>,
    buf: &[u8],
    what: &[u8],
    messages: &mut M,
) -> Result<usize, Stop>
    ensures means { Means got (length buf.now) result }
    ensures at_most { AtMost (length buf.now) result }
{
    match got {
        Ok(n) => Ok(n.min(buf.len())),
        Err(error) => {
            if error.kind() == ErrorKind::Interrupted {
                return Err(Stop::Interrupted);
            }
            fail(what, error, messages);
            Err(Stop::Failed)
        }
    }
}
