// Answers put into three outputs that are lent, as plain numbers.
#![tactic(auto)]

ghost use Rattle.std.specs.Prelude.{◌≡◌, ◌||◌, ltb, length};
ghost use Rattle.rules.specs.Chain.{granted, refusal_of};
ghost use Rattle.plain.specs.Codes.{by_number};
ghost use Rattle.stored.specs.Stored.{check_outputs, Stored};

use chain::refuse_if;
use rules::{Answer, Delay, Refusal, Verdict};

// The refusal of an output that is too short for the answers, which only C has (RULES 9.3).
const TOO_SHORT: u8 = 255;

// Which delay decided, as C has it: 1 request, 2 job; 0 where it misses.
fn by_number(verdict: Verdict) -> u8
    ensures { result ≡ by_number verdict }
{
    match verdict {
        Verdict::Misses => 0,
        Verdict::Holds(_, Delay::Request) => 1,
        Verdict::Holds(_, Delay::Job) => 2,
    }
}

// Some output has fewer places than n.
fn short(n: usize, bounds: usize, rounds: usize, by: usize) -> bool
    ensures { result ≡ (ltb bounds n || ltb rounds n || ltb by n) }
{
    bounds < n || rounds < n || by < n
}

// Each answer in its place of each output; where an output is too short for them, 255, and nothing changes. C lends the three by themselves, and `Stored`
// speaks of three lists, so they are no struct.
pub fn store_answers(
    answers: &[Answer],
    bounds: &mut [u64],
    rounds: &mut [u64],
    by: &mut [u8],
) -> Result<(), Refusal>
    ensures value { result ≡ granted (check_outputs (length answers.now) bounds.old rounds.old by.old) tt }
    ensures stored { Stored (refusal_of result) answers.now bounds.old rounds.old by.old bounds.new rounds.new by.new }
{
    refuse_if(
        short(answers.len(), bounds.len(), rounds.len(), by.len()),
        TOO_SHORT,
        0,
    )?;
    for (i, answer) in answers.iter().enumerate() {
        bounds[i] = plain::bound_of(answer.verdict);
        rounds[i] = answer.rounds;
        by[i] = by_number(answer.verdict);
    }
    Ok(())
}
