// Answers a stream of cases, each of an operation's letter, its payload's length in 2 bytes and the payload: ../README.md.
#![tactic(auto)]

mod lines;
mod raw;

ghost use Rattle.std.specs.Prelude.{◌≤◌, length};

use console::{Failed, Source};
use lent_bytes::front;
use lines::{put_answer, put_fields, put_part, refused, word};
use rules::{Answer, Refusal, Rejudgement, Salvage, Table};
use std::io;

// L: what is listed of a file.
fn list(rt: HostRuntime, file: &[u8]) -> io::Result<()> {
    let mut out = [0u8; 3266];
    let n = listing::list(file, &mut out);
    word(rt, front(&out, n))
}

// H: did a file come whole?
fn came(rt: HostRuntime, file: &[u8]) -> io::Result<()> {
    match arrival::whole(file) {
        Ok(()) => word(rt, b"whole"),
        Err(refusal) => refused(rt, refusal),
    }
}

// A read table is written, and set beside the file.
fn put_reread(rt: HostRuntime, file: &[u8], table: Table) -> io::Result<()> {
    let mut room = [165u8; 2048];
    let n = writer::write(table, &mut room).unwrap_or(0);
    if front(&room, n) == file {
        print!(rt; "accepted {n} same")
    } else {
        print!(rt; "accepted {n} differs")
    }
}

// R: a file is read, and what was read is written.
fn reread(rt: HostRuntime, file: &[u8]) -> io::Result<()> {
    match file::read(file) {
        Ok(table) => put_reread(rt, file, table),
        Err(refusal) => refused(rt, refusal),
    }
}

// V: a task's record in a file.
fn view(rt: HostRuntime, payload: &[u8]) -> io::Result<()> {
    let k = raw::byte(payload, 0);
    let file = raw::from(payload, 1);
    match view::view_refusal(file, k) {
        Ok(()) => put_part(rt, view::view(file, k)),
        Err(refusal) => refused(rt, refusal),
    }
}

// The sum of (place from 1) times (byte).
fn weight(s: &[u8]) -> u64
    requires { length s.now ≤ 2048 }
{
    let mut total: u64 = 0;
    for (i, b) in s.iter().enumerate() {
        total += (i as u64 + 1) * (*b as u64);
    }
    total
}

// How many bytes of a room are lent: as many as the payload says, or all of them where that is more.
fn lent(payload: &[u8], most: usize) -> usize
    ensures { result ≤ most }
{
    let asked = raw::byte(payload, 0) as usize + 256 * raw::byte(payload, 1) as usize;
    asked.min(most)
}

// A raw table written to the front of a room.
fn write_raw(payload: &[u8], room: &mut [u8]) -> Result<usize, Refusal> {
    let n = lent(payload, room.len());
    writer::write(raw::table(payload, 2), &mut room[..n])
}

// `written LEN` or `refused N P`
fn put_written(rt: HostRuntime, written: Result<usize, Refusal>) -> io::Result<()> {
    match written {
        Ok(length) => print!(rt; "written {length}"),
        Err(refusal) => refused(rt, refusal),
    }
}

// W: a table is written to the first bytes of 2,048.
fn write(rt: HostRuntime, payload: &[u8]) -> io::Result<()> {
    let mut room = [165u8; 2048];
    put_written(rt, write_raw(payload, &mut room))?;
    print!(rt; " {}", weight(&room))
}

// `salvaged LEN` or `refused N P`, and the three counts
fn put_salvaged(rt: HostRuntime, salvaged: Result<Salvage, Refusal>) -> io::Result<()> {
    match salvaged {
        Ok(new) => print!(rt;
            "salvaged {} {} {} {}",
            new.length, new.promised, new.kept, new.stopped
        ),
        Err(refusal) => {
            refused(rt, refusal)?;
            word(rt, b" 0 0 0")
        }
    }
}

// A file salvaged to the front of a room.
fn salvage_raw(payload: &[u8], room: &mut [u8]) -> Result<Salvage, Refusal> {
    let n = lent(payload, room.len());
    salvaging::salvage(raw::from(payload, 2), &mut room[..n])
}

// S: a file is salvaged to the first bytes of 2,048.
fn salvage(rt: HostRuntime, payload: &[u8]) -> io::Result<()> {
    let mut room = [165u8; 2048];
    put_salvaged(rt, salvage_raw(payload, &mut room))?;
    print!(rt; " {}", weight(&room))
}

// J: one task from a start.
fn judge_one(rt: HostRuntime, payload: &[u8]) -> io::Result<()> {
    let k = raw::byte(payload, 0);
    let start = raw::start(payload, 1);
    match judge::judge_one(raw::table(payload, 9), k, start) {
        Ok(answer) => put_answer(rt, answer),
        Err(refusal) => refused(rt, refusal),
    }
}

// A word and the answers, or the refusal and no answers, which are misses in 0 rounds.
fn put_answers(
    rt: HostRuntime,
    how: &[u8],
    judged: Result<[Answer; 32], Refusal>,
) -> io::Result<()> {
    match judged {
        Ok(answers) => {
            word(rt, how)?;
            put_fields(rt, answers)
        }
        Err(refusal) => {
            refused(rt, refusal)?;
            put_fields(rt, unjudged::no_answers())
        }
    }
}

// The table and the starts of a payload, judged.
fn judged(payload: &[u8]) -> Result<[Answer; 32], Refusal> {
    judge::judge_all(raw::table(payload, 256), raw::starts(payload))
}

// A: all tasks.
fn judge_all(rt: HostRuntime, payload: &[u8]) -> io::Result<()> {
    put_answers(rt, b"all", judged(payload))
}

fn put_again(rt: HostRuntime, again: Rejudgement) -> io::Result<()> {
    if again.carried {
        put_answers(rt, b"carried", Ok(again.answers))
    } else {
        put_answers(rt, b"fresh", Ok(again.answers))
    }
}

// K: a newer table after an older one.
fn judge_again(rt: HostRuntime, payload: &[u8]) -> io::Result<()> {
    let older = raw::table(payload, 0);
    match rejudge::judge_carried(older, raw::table(payload, 1242)) {
        Ok(again) => put_again(rt, again),
        Err(refused) => put_answers(rt, b"", Err(refused.refusal)),
    }
}

// T: a table passed directly, judged and listed.
fn list_raw(rt: HostRuntime, payload: &[u8]) -> io::Result<()> {
    let answers = judged(payload).unwrap_or(unjudged::no_answers());
    let mut out = [0u8; 3266];
    let n = listing::lines(raw::table(payload, 256), answers, &mut out);
    word(rt, front(&out, n))
}

// An answer of one line, without the line's end.
fn one_line(rt: HostRuntime, letter: u8, payload: &[u8]) -> io::Result<()> {
    match letter {
        b'R' => reread(rt, payload),
        b'H' => came(rt, payload),
        b'V' => view(rt, payload),
        b'W' => write(rt, payload),
        b'S' => salvage(rt, payload),
        b'J' => judge_one(rt, payload),
        b'A' => judge_all(rt, payload),
        b'K' => judge_again(rt, payload),
        _ => word(rt, b"unknown"),
    }
}

// The answer to a case.
fn answer(rt: HostRuntime, letter: u8, payload: &[u8]) -> io::Result<()> {
    match letter {
        b'L' => list(rt, payload),
        b'T' => list_raw(rt, payload),
        _ => {
            one_line(rt, letter, payload)?;
            word(rt, b"\n")
        }
    }
}

// Where what was to be said could not be written, that is told.
fn said(rt: HostRuntime, answered: io::Result<()>) -> Result<(), Failed> {
    answered.map_err(|error| console::unwritten(rt, b"conform: ", error))
}

// The stream ended inside a case.
fn cut(rt: HostRuntime) -> Result<bool, Failed> {
    said(rt, word(rt, b"cut\n"))?;
    Ok(false)
}

// A case after its head: the payload's n bytes are read, and the answer is written. Whether the stream goes on.
fn one_answer(rt: HostRuntime, letter: u8, n: u16) -> Result<bool, Failed> {
    let mut payload = [0u8; 65536];
    let n = n as usize;
    if console::load(rt, b"conform: ", Source::Input, &mut payload[..n])? < n {
        return cut(rt);
    }
    said(rt, answer(rt, letter, &payload[..n]))?;
    Ok(true)
}

// Reads and answers one case. Whether the stream goes on.
fn one_case(rt: HostRuntime) -> Result<bool, Failed> {
    let mut head = [0u8; 3];
    match console::load(rt, b"conform: ", Source::Input, &mut head)? {
        0 => Ok(false),
        3 => one_answer(rt, head[0], lent_bytes::le16(&head, 1)),
        _ => cut(rt),
    }
}

// A proved loop has to end, and nothing says that a stream does: the turns are bounded by a number that no run uses up.
fn all_cases(rt: HostRuntime) -> Result<u8, Failed> {
    for _ in 0..u64::MAX {
        if !one_case(rt)? {
            return Ok(0);
        }
    }
    Err(Failed)
}

fn main(rt: HostRuntime) {
    let ended = match console::words(rt) {
        Some(0) => all_cases(rt),
        _ => Err(console::usage(rt, b"usage: conform\n")),
    };
    console::tell(rt, ended);
}
