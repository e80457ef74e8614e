// Starts that come after the latest allowed response, and the answers where no task is judged.
#![tactic(auto)]

ghost use Rattle.std.specs.Prelude.{◌≡◌, ◌≤◌, ltb};
ghost use Rattle.laws.specs.Idioms.{Within, entry};
ghost use Rattle.rules.specs.Judgement.{misses};
ghost use Rattle.rules.specs.Chain.{granted};
ghost use Rattle.rules.specs.Operations.{no_answers};
ghost use Rattle.unjudged.specs.Unjudged.{first_after};

use chain::refuse_first;
use rules::{Answer, Refusal, Verdict};

fn is_late(k: u8, latest: &[u64; 32], starts: &[u64; 32]) -> bool
    requires { Within 1 32 k }
    ensures { result ≡ ltb (entry 0 latest.now k) (entry 0 starts.now k) }
{
    let i = k as usize - 1;
    latest[i] < starts[i]
}

// 13 for the first start that is after the latest allowed response.
pub fn late(n: usize, latest: &[u64; 32], starts: &[u64; 32]) -> Result<(), Refusal>
    requires { n ≤ 32 }
    ensures { result ≡ granted (first_after n latest.now starts.now) tt }
{
    refuse_first(13, n as u8, |k| is_late(k, latest, starts))
}

// A miss in no round.
pub fn missed() -> Answer
    ensures { result ≡ misses 0 }
{
    Answer {
        verdict: Verdict::Misses,
        rounds: 0,
    }
}

// No answer.
pub fn no_answers() -> [Answer; 32]
    ensures { result ≡ no_answers }
{
    [missed(); 32]
}
