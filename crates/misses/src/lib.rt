// Which task misses first, and the last line of a listing, which says it: into a buffer that has room for it.
#![tactic(auto)]

ghost use Rattle.std.specs.Prelude.{◌≡◌, ◌+◌, ◌≤◌, length};
ghost use Rattle.rules.specs.Listing.{is_miss};
ghost use Rattle.text.specs.Put.{Put};
ghost use Rattle.misses.specs.Last.{last, last_for};

use rules::{Answer, Verdict};
use text::{put_phrase, put_word};

pub fn is_miss(verdict: Verdict) -> bool
    ensures { result ≡ is_miss verdict }
{
    matches!(verdict, Verdict::Misses)
}

// The number of the first task that misses.
pub fn first_miss(n: usize, answers: [Answer; 32]) -> Option<u64>
    requires { n ≤ 32 }
    ensures { last_for result ≡ last answers n }
{
    let place = answers[..n]
        .iter()
        .position(|answer| is_miss(answer.verdict))?;
    Some(place as u64 + 1)
}

// That all hold, or the first task that misses.
pub fn put_last(buf: &mut [u8], at: usize, first: Option<u64>) -> usize
    requires { at + 32 ≤ length buf.old }
    ensures put { Put buf.old at (last_for first) result buf.new }
    ensures upper_bound { result ≤ at + 32 }
{
    match first {
        None => put_word(buf, at, b"all hold\n"),
        Some(number) => put_phrase(buf, at, b"first miss ", number, b'\n'),
    }
}
