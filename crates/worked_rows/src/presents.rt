// Circuits with measurements, by the lines of a session.

use circuit_model::Present;
use netlist_text::{Change, Request, place, read_line};
use std::alloc::Global;
use std::test::Fail;

// The present after the change that the line asks. Other lines leave it as it is.
fn place_line(alloc: Global, line: &[u8], present: &mut Present) -> Result<(), Fail> {
    let Ok(request) = read_line(line) else {
        return Err("a line that cannot be read".into());
    };
    match request {
        Request::Change(Change::Undo) => Err("a change of a session".into()),
        Request::Change(change) => match place(alloc, &change, present) {
            Ok(()) => Ok(()),
            Err(_) => Err("a change that is refused".into()),
        },
        _ => Ok(()),
    }
}

// The present after these lines, each of which is a change that is made, but for the end and comments.
pub(crate) fn present_of(alloc: Global, text: &[u8]) -> Result<Present, Fail> {
    let mut present = Present::open(alloc)?;
    for line in text.split(|byte| *byte == b'\n') {
        place_line(alloc, line, &mut present)?;
    }
    Ok(present)
}
