// The words of an answer: the end of its line in a listing.
#![tactic(auto)]

ghost use Rattle.std.specs.Prelude.{[], ◌∷◌, ◌++◌, ◌+◌, ◌≤◌, length};
ghost use Rattle.laws.specs.Decimal.{decimal};
ghost use Rattle.rules.specs.Listing.{line, delay_word, verdict_words};
ghost use Rattle.text.specs.Put.{Put};

use rules::{Delay, Verdict};
use text::put_phrase;

// The end of a line that holds: deciding delay and rounds.
fn put_delay(buf: &mut [u8], at: usize, by: Delay, rounds: u64) -> usize
    requires { at + 29 ≤ length buf.old }
    ensures put { Put buf.old at (line (delay_word by ∷ decimal rounds ∷ [])) result buf.new }
    ensures upper_bound { result ≤ at + 29 }
{
    match by {
        Delay::Request => put_phrase(buf, at, b"request ", rounds, b'\n'),
        Delay::Job => put_phrase(buf, at, b"job ", rounds, b'\n'),
    }
}

// The end of a line: verdict, bound, deciding delay and rounds.
pub fn put_answer(buf: &mut [u8], at: usize, verdict: Verdict, rounds: u64) -> usize
    requires { at + 56 ≤ length buf.old }
    ensures put { Put buf.old at (line (verdict_words verdict ++ decimal rounds ∷ [])) result buf.new }
    ensures upper_bound { result ≤ at + 56 }
{
    match verdict {
        Verdict::Misses => put_phrase(buf, at, b"misses - - ", rounds, b'\n'),
        Verdict::Holds(bound, by) => {
            let end = put_phrase(buf, at, b"holds ", bound.0, b' ');
            put_delay(buf, end, by, rounds)
        }
    }
}
