// salvage [CUT NEW]: what is whole of a cut table file, as a new file; without names, of standard input on standard output. What that is stands in a line on
// standard output, or, where the new file is there, on standard error.
#![tactic(auto)]

use console::{Failed, Source};
use rules::{Refusal, Salvage};

// To the file that the second word names, or to standard output.
fn write(rt: HostRuntime, named: bool, file: &[u8]) -> Result<(), Failed> {
    if named {
        return console::make(rt, b"salvage: ", 2, file);
    }
    console::say(rt, b"salvage: ", file)
}

// The report. What cannot be written to standard error cannot be told.
fn tell(rt: HostRuntime, named: bool, salvaged: Result<Salvage, Refusal>) -> Result<(), Failed> {
    let mut out = [0u8; 85];
    let n = report::line(salvaged, &mut out);
    let line = lent_bytes::front(&out, n);
    if named {
        return console::say(rt, b"salvage: ", line);
    }
    console::note(rt, line);
    Ok(())
}

fn salvage(rt: HostRuntime, from: Source, file: &[u8]) -> Result<u8, Failed> {
    let named = matches!(from, Source::Named(_));
    let mut new = [0u8; 990];
    let salvaged = salvaging::salvage(file, &mut new);
    if let Ok(counts) = salvaged {
        write(rt, named, lent_bytes::front(&new, counts.length))?;
    }
    tell(rt, named, salvaged)?;
    match salvaged {
        Ok(_) => Ok(0),
        Err(refusal) => {
            console::explain(rt, b"salvage: ", from, refusal);
            Ok(2)
        }
    }
}

fn take(rt: HostRuntime, from: Source) -> Result<u8, Failed> {
    let mut file = [0u8; 7952];
    let n = console::load(rt, b"salvage: ", from, &mut file)?;
    salvage(rt, from, input::front(&file, n))
}

fn main(rt: HostRuntime) {
    let ended = match console::words(rt) {
        Some(0) => take(rt, Source::Input),
        Some(2) => take(rt, Source::Named(1)),
        _ => Err(console::usage(rt, b"usage: salvage [CUT NEW]\n")),
    };
    console::tell(rt, ended);
}
