// Reading, and writing to standard output. Where a call fails a line says why.
use crate::notes::{name_of, note, note_error};
use lent_bytes::front;
use std::fs::{File, OpenOptions};
use std::io::{Read, Write};
use std::{fs, io, str};

// Something could not be read or written, or the words were wrong. A line on standard error has said what.
#[derive(Clone, Copy)]
pub struct Failed;

// `list: NAME: No such file or directory`
fn say_why(rt: HostRuntime, who: &[u8], name: &[u8], error: io::Error) -> Failed {
    note(rt, who);
    note(rt, name);
    note(rt, b": ");
    note_error(rt, error);
    note(rt, b"\n");
    Failed
}

// Until the buffer is full, the input ends or a read fails. A turn goes on by as much as was read, so it is no `for`.
fn fill(from: &mut impl Read, buf: &mut [u8]) -> io::Result<usize> {
    let mut done: usize = 0;
    while done < buf.len() {
        let more = from.read(&mut buf[done..])?;
        if more == 0 {
            return Ok(done);
        }
        done += more;
    }
    Ok(done)
}

// std opens only what has a name of UTF-8: another is refused as a file system that wants UTF-8 refuses it, by EILSEQ.
const NOT_TEXT: i32 = 84;

fn path_of(name: &[u8]) -> io::Result<&str> {
    str::from_utf8(name).map_err(|_| io::Error::from_raw_os_error(NOT_TEXT))
}

fn read_named(rt: HostRuntime, name: &[u8], buf: &mut [u8]) -> io::Result<usize> {
    let mut file = File::open(&rt, path_of(name)?)?;
    fill(&mut file, buf)
}

// Where a file is: on standard input, or where the i-th word says.
#[derive(Clone, Copy)]
pub enum Source {
    Input,
    Named(usize),
}

// As much of a file as the buffer has room for. A word of more than 65,536 bytes is read as none; neither names a file.
pub fn load(rt: HostRuntime, who: &[u8], from: Source, buf: &mut [u8]) -> Result<usize, Failed> {
    match from {
        Source::Input => fill(&mut rt.stdin(), buf).map_err(|error| say_why(
            rt,
            who,
            b"standard input",
            error,
        )),
        Source::Named(i) => {
            let mut room = [0u8; 65536];
            let name = name_of(rt, i, &mut room);
            read_named(rt, name, buf).map_err(|error| say_why(rt, who, name, error))
        }
    }
}

// The name must not be taken; a file that could not be written is removed again.
fn write_new(rt: HostRuntime, name: &[u8], content: &[u8]) -> io::Result<()> {
    let path = path_of(name)?;
    let mut file = OpenOptions::new()
        .write(true)
        .create_new(true)
        .open(&rt, path)?;
    let written = file.write_all(content);
    if written.is_err() {
        let _removed = fs::remove_file(&rt, path);
    }
    written
}

// A new file, where the i-th word says.
pub fn make(rt: HostRuntime, who: &[u8], i: usize, content: &[u8]) -> Result<(), Failed> {
    let mut room = [0u8; 65536];
    let name = name_of(rt, i, &mut room);
    write_new(rt, name, content).map_err(|error| say_why(rt, who, name, error))
}

// `list: standard output: No space left on device`
pub fn unwritten(rt: HostRuntime, who: &[u8], error: io::Error) -> Failed {
    say_why(rt, who, b"standard output", error)
}

// A text to standard output.
pub fn say(rt: HostRuntime, who: &[u8], text: &[u8]) -> Result<(), Failed> {
    Print::write_all(&rt, text).map_err(|error| unwritten(rt, who, error))
}
