// The rounds of F, of plain terms.
#![tactic(auto)]

ghost use Rattle.std.specs.Prelude.{◌≡◌};
ghost use Rattle.terms.specs.Terms.{terms_in};
ghost use Rattle.climb.specs.Run.{Ready, lowest_of, climbed};

use counts::Grouped;
use rules::{Answer, Picos, Verdict};
use terms::Own;

// The lowest start.
fn lowest(own: Own) -> u64
    ensures { result ≡ lowest_of own }
{
    own.exec
}

// The answer by the rounds from the larger of the lowest start and the given one; none where F lowers that. What F gives ends them, so no `for` counts them.
pub fn settle(own: Own, tasks: &Grouped, given: u64) -> Option<Answer>
    requires { Ready (terms_in own tasks.now) given }
    ensures { result ≡ climbed (terms_in own tasks.now) given }
{
    let mut t = lowest(own).max(given);
    let mut n: u64 = 1;
    loop {
        let next = terms::apply(&own, tasks, t);
        if next.time == t {
            return Some(Answer {
                verdict: Verdict::Holds(Picos(t), next.by),
                rounds: n,
            });
        }
        if next.time < t {
            return None;
        }
        if own.latest < next.time {
            return Some(Answer {
                verdict: Verdict::Misses,
                rounds: n,
            });
        }
        t = next.time;
        n += 1;
    }
}
