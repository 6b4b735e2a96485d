// What is told among the messages, which are a program's standard error.
use snapshot::Refusal;
use std::io::{IsTerminal, Write};

// The bytes of a label before the name.
pub const NAME: usize = 25;

// A label is `day_figures: cannot read ` and the name of a file. The name is held apart too, so that none who takes a label has to ask
// how long it is.
#[derive(Clone, Copy)]
pub struct Label<'a> {
    pub text: &'a [u8],
    pub name: &'a [u8],
}

// The name in a label, and what is to be said of it. That it cannot be told is told nowhere.
fn tell<M: Write>(label: Label, what: &[u8], messages: &mut M) {
    let _ = messages.write_all(b"day_figures: ");
    let _ = messages.write_all(label.name);
    let _ = messages.write_all(what);
}

// Which file is read now, if somebody is there to see it.
pub fn at<M: Write + IsTerminal>(label: Label, messages: &mut M) {
    if messages.is_terminal() {
        tell(label, b"\n", messages);
    }
}

// A file is too long.
pub fn too_long<M: Write>(label: Label, messages: &mut M) {
    tell(label, b" has more than 2097152 bytes\n", messages);
}

// A file's records ended with a refusal: what stands behind that place is not in the figures.
pub fn ended_by<M: Write>(label: Label, refusal: Refusal, messages: &mut M) {
    let number = u32::from(refusal);
    tell(label, b": refused ", messages);
    let _ = write!(messages, "{number}");
    let _ = messages.write_all(b", and nothing after that is in the figures\n");
}
