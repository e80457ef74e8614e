// Words on standard error. What cannot be written there cannot be told.
use crate::files::Source;
use crate::place::place_of;
use lent_bytes::front;
use rules::Refusal;
use std::env::Env;
use std::io;
use std::io::{Cursor, Write};

pub fn note(rt: HostRuntime, words: &[u8]) {
    let _written = Print::write_all(&rt.stderr(), words);
}

// The system's own words for an error: `No such file or directory`, behind which std writes ` (os error 2)`.
pub fn note_error(rt: HostRuntime, error: io::Error) {
    let mut text = Cursor::new([0u8; 256]);
    let _written = write!(text, "{error}");
    let n = text.position() as usize;
    note(rt, without_number(front(text.get_ref(), n)));
}

fn without_number(text: &[u8]) -> &[u8] {
    let mark = b" (os error ";
    match text
        .windows(mark.len())
        .position(|part| part == mark.as_slice())
    {
        Some(n) => front(text, n),
        None => text,
    }
}

// The bytes of a word, in a room for them; none where they do not fit.
pub fn name_of(rt: HostRuntime, i: usize, room: &mut [u8]) -> &[u8] {
    let n = rt.arg(i, room).unwrap_or(0);
    front(room, n)
}

fn note_file(rt: HostRuntime, file: Source) {
    match file {
        Source::Input => note(rt, b"standard input"),
        Source::Named(i) => {
            let mut room = [0u8; 65536];
            note(rt, name_of(rt, i, &mut room));
        }
    }
}

fn note_reason(rt: HostRuntime, number: u8) {
    let mut words = [0u8; reasons::LONGEST];
    let n = reasons::reason(number, &mut words);
    note(rt, front(&words, n));
}

// `list: NAME: refused 9 at task 3: a task's core is not one of the table's`
pub fn explain(rt: HostRuntime, who: &[u8], file: Source, refusal: Refusal) {
    note(rt, who);
    note_file(rt, file);
    let number = refusal.number;
    let _written = eprint!(rt; ": refused {number}");
    if let Some(place) = place_of(refusal) {
        let _written = eprint!(rt; " at {place}");
    }
    note(rt, b": ");
    note_reason(rt, number);
    note(rt, b"\n");
}
