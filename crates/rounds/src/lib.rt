// Judgement of the tasks of lent columns: the rounds, and the refusals that a judgement meets on the way.
#![tactic(auto)]

ghost use Rattle.std.specs.Prelude.{◌≡◌, ◌≤◌, ◌<◌, get_or};
ghost use Rattle.rules.specs.Chain.{granted};
ghost use Rattle.floors.specs.Floors.{Doubled};
ghost use Rattle.climb.specs.Run.{climbed};
ghost use Rattle.rounds.specs.Lent.{place_at, terms_at, Judgeable, judged_lent};

use chain::refuse;
use own::Lent;
use rules::{Answer, Refusal};
use unjudged::{late, no_answers};

// The task in place i, which stands at `place`, from a start that is not late: its answer, or none where F lowers the start.
pub fn judge_at(l: &Lent, doubled: &[u64; 8], i: usize, place: usize, start: u64) -> Option<Answer>
    requires judgeable { Judgeable l.now }
    requires doubled { Doubled l.now.board.cores l.now.tasks.begins l.now.tasks.requests doubled.now }
    requires here { (i < l.now.board.tasks) × (place ≡ place_at l.now i) × (start ≤ get_or l.now.latest i 0) }
    ensures { result ≡ climbed (terms_at l.now i) start }
{
    let own = own::own_of(l, doubled, i, place);
    climb::settle(own, &l.tasks, start)
}

// Every task: 13 with the first start that is late; else 14 with the first that F lowers; else the answers.
pub fn judge_lent(l: &Lent, starts: &[u64; 32]) -> Result<[Answer; 32], Refusal>
    requires { Judgeable l.now }
    ensures { result ≡ granted (judged_lent l.now starts.now).refusal (judged_lent l.now starts.now).answers }
{
    late(l.board.tasks, &l.latest, starts)?;
    let doubled = floors::doubled(l.board.cores, &l.tasks);
    let mut next = l.tasks.begins;
    let mut answers = no_answers();
    for i in 0..l.board.tasks {
        let p = (l.core[i] as usize) - 1;
        let place = next[p];
        next[p] = place + 1;
        let Some(answer) = judge_at(l, &doubled, i, place, starts[i]) else {
            return refuse(14, (i as u8) + 1);
        };
        answers[i] = answer;
    }
    Ok(answers)
}
