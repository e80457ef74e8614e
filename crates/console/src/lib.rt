// What the programs have in common: reading a named file or standard input, writing, words on standard error, the status.
// No contract can speak of what is read or written: these functions are proved safe and ending. `who` is what a line on standard error
// begins with, as `list: `.
#![tactic(auto)]

mod files;
mod notes;
mod place;

pub use files::{Failed, Source, load, make, say, unwritten};
pub use notes::{explain, note};
pub use place::Place;
use std::env::{Env, FillError};
use std::fs::OpenOptions;
use std::io::Write;
use std::{fs, io};

// The first byte of a word: 0 where it has none, nothing where there is no such word. Of a longer one the others have no room, which is no error here.
fn first_byte(rt: HostRuntime, i: usize) -> Option<u8> {
    let mut first = [0u8; 1];
    match rt.arg(i, &mut first) {
        Err(FillError::NotPresent) => None,
        _ => Some(first[0]),
    }
}

// How many words stand behind the program's name; none where one of them begins with `-`, which no program knows.
pub fn words(rt: HostRuntime) -> Option<usize> {
    for i in 1..usize::MAX {
        match first_byte(rt, i) {
            None => return Some(i - 1),
            Some(b'-') => return None,
            Some(_) => {}
        }
    }
    None
}

// That the words are wrong.
pub fn usage(rt: HostRuntime, line: &[u8]) -> Failed {
    note(rt, line);
    Failed
}

// Descriptor 9 by its name: std has no descriptor by its number.
const STATUS: &str = "/proc/self/fd/9";

// That name is a link, which may be written where the descriptor is open for writing.
fn takes_status(rt: HostRuntime) -> bool {
    fs::symlink_metadata(&rt, STATUS).is_ok_and(|link| !link.permissions().readonly())
}

// Opened anew: for reading too, since a pipe that nobody reads would hold the program up, and to write behind what is there.
fn write_status(rt: HostRuntime, digit: u8) -> io::Result<()> {
    let mut to = OpenOptions::new()
        .read(true)
        .append(true)
        .open(&rt, STATUS)?;
    to.write_all(&[digit])
}

// How the program ended, from 0 to 2, or 3 where it failed (a larger number is told as 3 too): one digit on descriptor 9, which `run` makes its exit
// status. Where that is not open for writing nothing is told.
pub fn tell(rt: HostRuntime, ended: Result<u8, Failed>) {
    let status = ended.unwrap_or(3).min(3);
    if takes_status(rt) {
        let _told = write_status(rt, b'0' + status);
    }
}
