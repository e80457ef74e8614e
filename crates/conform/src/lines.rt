// Answers, piece by piece to standard output. After a write that failed there is no other.
use rules::{Answer, Delay, Refusal, Verdict};
use std::io;

pub fn word(rt: HostRuntime, text: &[u8]) -> io::Result<()> {
    rt.write_all(text)
}

// `refused N P`
pub fn refused(rt: HostRuntime, refusal: Refusal) -> io::Result<()> {
    print!(rt; "refused {} {}", refusal.number, refusal.place)
}

// `holds BOUND request ROUNDS`, `holds BOUND job ROUNDS` or `misses ROUNDS`
pub fn put_answer(rt: HostRuntime, answer: Answer) -> io::Result<()> {
    let rounds = answer.rounds;
    match answer.verdict {
        Verdict::Misses => print!(rt; "misses {rounds}"),
        Verdict::Holds(bound, Delay::Request) => print!(rt; "holds {} request {rounds}", bound.0),
        Verdict::Holds(bound, Delay::Job) => print!(rt; "holds {} job {rounds}", bound.0),
    }
}

// ` BOUND/r/ROUNDS`, ` BOUND/j/ROUNDS` or ` -/ROUNDS`
fn put_field(rt: HostRuntime, answer: Answer) -> io::Result<()> {
    let rounds = answer.rounds;
    match answer.verdict {
        Verdict::Misses => print!(rt; " -/{rounds}"),
        Verdict::Holds(bound, Delay::Request) => print!(rt; " {}/r/{rounds}", bound.0),
        Verdict::Holds(bound, Delay::Job) => print!(rt; " {}/j/{rounds}", bound.0),
    }
}

// A field for each of 32 answers.
pub fn put_fields(rt: HostRuntime, answers: [Answer; 32]) -> io::Result<()> {
    for answer in &answers {
        put_field(rt, *answer)?;
    }
    Ok(())
}

// `part HEX`: bytes as lowercase hexadecimal.
pub fn put_part(rt: HostRuntime, s: &[u8]) -> io::Result<()> {
    word(rt, b"part ")?;
    for b in s {
        print!(rt; "{b:02x}")?;
    }
    Ok(())
}
