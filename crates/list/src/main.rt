// list [FILE]: the listing of a table file, or of standard input, on standard output.
#![tactic(auto)]

use console::{Failed, Source};

fn show(rt: HostRuntime, from: Source, file: &[u8]) -> Result<u8, Failed> {
    let mut out = [0u8; 3266];
    let n = listing::list(file, &mut out);
    console::say(rt, b"list: ", lent_bytes::front(&out, n))?;
    if let Err(refusal) = admit_file::check(file) {
        console::explain(rt, b"list: ", from, refusal);
    }
    Ok(status::of_file(file))
}

// As in whole: one function for both would take what comes after by a closure, and be no shorter.
fn list(rt: HostRuntime, from: Source) -> Result<u8, Failed> {
    let mut file = [0u8; 7952];
    let n = console::load(rt, b"list: ", from, &mut file)?;
    show(rt, from, input::front(&file, n))
}

fn main(rt: HostRuntime) {
    let ended = match console::words(rt) {
        Some(0) => list(rt, Source::Input),
        Some(1) => list(rt, Source::Named(1)),
        _ => Err(console::usage(rt, b"usage: list [FILE]\n")),
    };
    console::tell(rt, ended);
}
