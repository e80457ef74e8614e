// Judgement of one task and of all: what is refused before them, then the rounds.
#![tactic(auto)]

ghost use Rattle.std.specs.Prelude.{◌≡◌};
ghost use Rattle.rules.specs.Chain.{granted};
ghost use Rattle.rules.specs.Operations.{judge_one, judge_all};
ghost use Rattle.starts.specs.Starts.{in_picos};

use rules::{Answer, Picos, Refusal, Table};

// RULES 6.3, of one task: refusals 5 to 14 and 16, or the answer.
pub fn judge_one(table: Table, k: u8, start: Picos) -> Result<Answer, Refusal>
    ensures { result ≡ granted (judge_one table k start.0).refusal (judge_one table k start.0).answer }
{
    admit::start(table, k, start)?;
    let high = Refusal {
        number: 14,
        place: k,
    };
    columns::judge_task(table, k, start.0).ok_or(high)
}

// RULES 6.3, of all tasks: refusals 5 to 11, 16, 13 and 14, or the answers.
pub fn judge_all(table: Table, starts: [Picos; 32]) -> Result<[Answer; 32], Refusal>
    ensures { result ≡ granted (judge_all table (in_picos starts)).refusal (judge_all table (in_picos starts)).answers }
{
    admit::table(table)?;
    columns::judge_tasks(table, starts::numbers(starts))
}
