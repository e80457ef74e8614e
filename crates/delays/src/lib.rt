// The delay figures (RULES 3) as times: the cycles times tCK.
#![tactic(auto)]

ghost use Rattle.std.specs.Prelude.{◌≡◌, ◌+◌, ◌*◌, ◌<◌, ◌^◌};
ghost use Rattle.rules.specs.Timing.{tCK};
ghost use Rattle.rules.specs.Units.{in_time, ◌⊕◌};
ghost use Rattle.rules.specs.Delays.{pre, act, readwrite};
ghost use Rattle.facts.specs.Sound.{SoundRow};
ghost use Rattle.delays.specs.Figures.{figures_of};

use cycles::{Timing, act, figure, pre, readwrite};
use hits::{conf, reopen, window};
use rules::{Cycles, Picos};
use runs::run;

// The figures that a core's delays are made of, as times, and the window, a count.
#[derive(Clone, Copy)]
pub struct Figures {
    pub crossing: Picos,
    pub conflict: Picos,
    pub readwrite: Picos,
    pub reopen: Picos,
    pub run: Picos,
    pub window: u64,
}

fn plus(a: Cycles, b: Cycles) -> Cycles
    requires { a.0 + b.0 < 2 ^ 64 }
    ensures { result ≡ a ⊕ b }
{
    Cycles(a.0 + b.0)
}

// RULES 2.6: the only way from cycles to a time.
pub fn in_time(row: [u16; 15], c: Cycles) -> Picos
    requires { c.0 * tCK row < 2 ^ 64 }
    ensures { result ≡ in_time row c }
{
    Picos(c.0 * figure(row, Timing::Tck))
}

// pre + act + rw: what one request of a far core costs, in cycles
fn crossing(row: [u16; 15]) -> Cycles
    requires { SoundRow row }
    ensures { result ≡ pre ⊕ act row ⊕ readwrite row }
{
    plus(plus(pre(), act(row)), readwrite(row))
}

pub fn figures_of(row: [u16; 15]) -> Figures
    requires { SoundRow row }
    ensures { result ≡ figures_of row }
{
    let w = window(row);
    Figures {
        crossing: in_time(row, crossing(row)),
        conflict: in_time(row, conf(row)),
        readwrite: in_time(row, readwrite(row)),
        reopen: in_time(row, reopen(row)),
        run: in_time(row, run(row, w)),
        window: w,
    }
}
