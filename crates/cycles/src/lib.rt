// A row's figures, and what holds a command off (RULES 3.1 to 3.3), in cycles.
#![tactic(auto)]

ghost use Rattle.std.specs.Prelude.{◌≡◌, ◌+◌, ◌/◌, ◌≤◌};
ghost use Rattle.laws.specs.Idioms.{◌⊖◌, larger};
ghost use Rattle.rules.specs.Timing.{WL, BL, tWTR};
ghost use Rattle.cycles.specs.Named.{named};
ghost use Rattle.rules.specs.Delays.{pre, act, readwrite};

use rules::Cycles;

// The figures of a row, in the order of their places.
#[derive(Clone, Copy)]
pub enum Timing {
    Tck,
    Trp,
    Trcd,
    Cl,
    Wl,
    Bl,
    Twtr,
    Twr,
    Trrd,
    Tfaw,
    Tras,
    Trtp,
    Trtrs,
    Ncols,
    Ncap,
}

// A figure of a row, wide enough that no sum of figures wraps.
pub fn figure(row: [u16; 15], which: Timing) -> u64
    ensures { (result ≡ named which row) × (result ≤ 65535) }
{
    u64::from(row[which as usize])
}

// The larger of a and the difference of x and y: one that falls below zero is never the larger, so it is cut off at zero and does not wrap.
fn larger(a: u64, x: u64, y: u64) -> u64
    ensures { result ≡ larger a (x ⊖ y) }
{
    a.max(x.saturating_sub(y))
}

// WL + BL/2 + tWTR: from a write to a read.
pub fn turn(row: [u16; 15]) -> u64
    ensures { (result ≡ WL row + BL row / 2 + tWTR row) × (result ≤ 163837) }
{
    figure(row, Timing::Wl) + figure(row, Timing::Bl) / 2 + figure(row, Timing::Twtr)
}

// RULES 3.1.
pub fn pre() -> Cycles
    ensures { result ≡ pre }
{
    Cycles(1)
}

// RULES 3.2.
pub fn act(row: [u16; 15]) -> Cycles
    ensures { result ≡ act row }
{
    let rrd = figure(row, Timing::Trrd);
    let faw = figure(row, Timing::Tfaw);
    Cycles(larger(rrd, faw, 3 * rrd))
}

// RULES 3.3: the five, in that order, with the largest so far kept.
pub fn readwrite(row: [u16; 15]) -> Cycles
    ensures { result ≡ readwrite row }
{
    let cl = figure(row, Timing::Cl);
    let wl = figure(row, Timing::Wl);
    let half = figure(row, Timing::Bl) / 2;
    let rtrs = figure(row, Timing::Trtrs);
    let longest = turn(row);
    let longest = larger(longest, cl + half + 2, wl);
    let longest = larger(longest, wl + half + rtrs, cl);
    let longest = larger(longest, cl + half + rtrs, wl);
    Cycles(larger(longest, half + rtrs, 0))
}
