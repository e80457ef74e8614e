// whole [FILE]: whether a table file, or standard input, came whole, on standard output.
#![tactic(auto)]

use console::{Failed, Source};

fn show(rt: HostRuntime, from: Source, file: &[u8]) -> Result<u8, Failed> {
    let mut out = [0u8; 29];
    let n = receipt::line(file, &mut out);
    console::say(rt, b"whole: ", lent_bytes::front(&out, n))?;
    if let Err(refusal) = arrival::whole(file) {
        console::explain(rt, b"whole: ", from, refusal);
    }
    Ok(receipt::status(file))
}

// As in list: one function for both would take what comes after by a closure, and be no shorter.
fn ask(rt: HostRuntime, from: Source) -> Result<u8, Failed> {
    let mut file = [0u8; 7952];
    let n = console::load(rt, b"whole: ", from, &mut file)?;
    show(rt, from, input::front(&file, n))
}

fn main(rt: HostRuntime) {
    let ended = match console::words(rt) {
        Some(0) => ask(rt, Source::Input),
        Some(1) => ask(rt, Source::Named(1)),
        _ => Err(console::usage(rt, b"usage: whole [FILE]\n")),
    };
    console::tell(rt, ended);
}
