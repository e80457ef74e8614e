// The answers of a newer table after an older one, where both may be judged; and those put into three outputs that are lent.
#![tactic(auto)]

ghost use Rattle.std.specs.Prelude.{◌≡◌, true, take};
ghost use Rattle.laws.specs.Idioms.{entry};
ghost use Rattle.rules.specs.Chain.{is_accepted, granted, refusal_of};
ghost use Rattle.rules.specs.Refusals.{check_judged};
ghost use Rattle.rules.specs.Order.{worsens};
ghost use Rattle.rules.specs.Operations.{answers_from, rejudging, older_bounds};
ghost use Rattle.facts.specs.Starts.{AllAllowed};
ghost use Rattle.stored.specs.Stored.{check_outputs, Stored};

use rules::{Answer, Refusal, Table};

// The answers of a table that may be judged, from starts none of which is refused.
fn answers(table: Table, starts: [u64; 32]) -> [Answer; 32]
    requires table_value { is_accepted (check_judged table) ≡ true }
    requires all_allowed { AllAllowed table starts }
    ensures { result ≡ answers_from table (entry 0 starts) }
{
    columns::judge_tasks(table, starts).unwrap()
}

// RULES 6.5: the starts that the older table gives.
fn older_starts(older: Table) -> [u64; 32]
    requires { is_accepted (check_judged older) ≡ true }
    ensures { result ≡ older_bounds older }
{
    let all = answers(older, [0; 32]);
    let mut starts = [0u64; 32];
    for i in 0..32 {
        starts[i] = plain::bound_of(all[i].verdict);
    }
    starts
}

// The answers of two tables that may be judged: each task from its older bound where the newer table is the older one worsened, else fresh.
pub fn answers_after(older: Table, newer: Table, carried: bool) -> [Answer; 32]
    requires older_value { is_accepted (check_judged older) ≡ true }
    requires newer_value { is_accepted (check_judged newer) ≡ true }
    requires carried_value { carried ≡ worsens older newer }
    ensures { result ≡ (rejudging older newer).answers }
{
    if carried {
        return answers(newer, older_starts(older));
    }
    answers(newer, [0; 32])
}

// The answers of two tables that may be judged into the outputs; 255 where one is too short for them, and nothing changes.
pub fn store_after(
    older: Table,
    newer: Table,
    bounds: &mut [u64],
    rounds: &mut [u64],
    by: &mut [u8],
) -> Result<(), Refusal>
    requires older_value { is_accepted (check_judged older) ≡ true }
    requires newer_value { is_accepted (check_judged newer) ≡ true }
    ensures value { result ≡ granted (check_outputs newer.tasks bounds.old rounds.old by.old) tt }
    ensures stored { Stored (refusal_of result) (take newer.tasks (rejudging older newer).answers) bounds.old rounds.old by.old bounds.new rounds.new by.new }
{
    let n = newer.tasks as usize;
    let answers = answers_after(older, newer, order::worsens(older, newer));
    stored::store_answers(&answers[..n], bounds, rounds, by)
}
