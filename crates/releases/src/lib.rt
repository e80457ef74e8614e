// How often a task is released in a time: how many periods begin in it.
#![tactic(auto)]

ghost use Rattle.std.specs.Prelude.{◌≡◌, ◌^◌, ◌≤◌};
ghost use Rattle.laws.specs.Idioms.{Within};
ghost use Rattle.releases.specs.Releases.{Counted};

use std::marker::Model;

// About 2^58 divided by a period, to guess a count by. What counts with it tests what it gives, so this is free to be anything that is not too large.
#[derive(Clone, Copy)]
pub struct Inverse(u64);

impl Model for Inverse {
    ghost use Rattle.std.specs.Prelude.{ℕ, ◌≤◌};

    ghost Value = { ℕ };

    ghost view = { λ a. a.0 };

    ghost invariant = { λ a. a.0 ≤ 2882303762 };

    ghost inverse = { λ n. record { 0 = n } };
}

impl Inverse {
    pub const NONE: Inverse = Inverse(0);

    // Any number that is not too large.
    pub fn new(inverse: u64) -> Inverse
        requires { inverse ≤ 2882303762 }
        ensures { result ≡ inverse }
    {
        Inverse(inverse)
    }

    fn of(period: u64) -> Inverse {
        if period < 100000000 {
            return Inverse::NONE;
        }
        Inverse::new(288230376151711744 / period)
    }
}

// RULES 5.1: how often a task is released in t.
fn divided(t: u64, period: u64) -> u64
    requires { (t ≤ 10 ^ 12) × Within (10 ^ 8) (10 ^ 12) period }
    ensures { Counted t period result }
{
    (t + (period - 1)) / period
}

// Those of the first n periods. The places are lent, so that they are not copied. That none is too large is their type's promise.
pub fn inverses(n: usize, periods: &[u64; 33], out: &mut [Inverse; 33])
    requires { n ≤ 33 }
{
    for i in 0..n {
        out[i] = Inverse::of(periods[i]);
    }
}

// RULES 5.1 again: 1 where t is within one period; else guessed by a multiplication and tested; divided where the guess is wrong. A difference that
// would be below 0, because t is 0 or the guess is too large, wraps and is no less than any period.
pub fn up(t: u64, period: u64, inverse: Inverse) -> u64
    requires { (t ≤ 10 ^ 12) × Within (10 ^ 8) (10 ^ 12) period }
    ensures { Counted t period result }
{
    let last = t.wrapping_sub(1);
    if last < period {
        return 1;
    }
    let guess = ((t >> 8) * inverse.0) >> 50;
    let over = last.wrapping_sub(guess * period);
    if over < period {
        return guess + 1;
    }
    divided(t, period)
}
