// Refusals, bounds and starts as plain numbers, as C has them.
#![tactic(auto)]

ghost use Rattle.std.specs.Prelude.{◌≡◌, take};
ghost use Rattle.laws.specs.Idioms.{filled};
ghost use Rattle.rules.specs.Chain.{refusal_of};
ghost use Rattle.rules.specs.Judgement.{bound_of};
ghost use Rattle.plain.specs.Codes.{code_of};

use rules::{Refusal, Verdict};

// Number and place in one; 0 where nothing is refused, as a refusal of number 0 would say, which no operation gives.
pub fn code(answered: Result<(), Refusal>) -> u16
    ensures { result ≡ code_of (refusal_of answered) }
{
    match answered {
        Ok(()) => 0,
        // no check gives such a refusal
        Err(refusal) if refusal.number == 0 => 0,
        Err(refusal) => (refusal.number as u16) + 256 * (refusal.place as u16),
    }
}

// Its bound, or 0 where it misses.
pub fn bound_of(verdict: Verdict) -> u64
    ensures { result ≡ bound_of verdict }
{
    match verdict {
        Verdict::Misses => 0,
        Verdict::Holds(bound, _) => bound.0,
    }
}

// The starts that are lent, and 0 in the other places.
pub fn all_starts(starts: &[u64]) -> [u64; 32]
    ensures { result ≡ filled 32 0 (take 32 starts.now) }
{
    let mut all = [0; 32];
    for i in 0..starts.len().min(32) {
        all[i] = starts[i];
    }
    all
}
