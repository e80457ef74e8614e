// What a judgement of a table that is passed directly meets before any round.
#![tactic(auto)]

ghost use Rattle.std.specs.Prelude.{◌≡◌};
ghost use Rattle.rules.specs.Chain.{granted};
ghost use Rattle.rules.specs.Refusals.{check_judged, check_start};

use basics::outside;
use chain::refuse_if;
use rules::{Picos, Refusal, Table};

// The checks before every judgement: those of the table, then 18.
pub fn table(t: Table) -> Result<(), Refusal>
    ensures { result ≡ granted (check_judged t) tt }
{
    checks::check(t)?;
    refuse_if(basics::says_salvaged(t.fourth), 18, 0)
}

// Those before a judgement of one task: then 12 and 13.
pub fn start(t: Table, k: u8, start: Picos) -> Result<(), Refusal>
    ensures { result ≡ granted (check_start t k start.0) tt }
{
    table(t)?;
    refuse_if(outside(1, t.tasks as u64, k as u64), 12, 0)?;
    let task = t.task[k as usize - 1];
    refuse_if(basics::latest(task) < start.0, 13, k)
}
