// The judgement of one task of an accepted table, and of all: its figures go into lent columns.
#![tactic(auto)]

ghost use Rattle.std.specs.Prelude.{◌≡◌, true, ◌≤◌};
ghost use Rattle.laws.specs.Idioms.{Within};
ghost use Rattle.facts.specs.Sound.{Sound};
ghost use Rattle.rules.specs.Tasks as Tasks;
ghost use Rattle.rules.specs.Tasks.{task_of};
ghost use Rattle.rules.specs.Chain.{is_accepted, granted};
ghost use Rattle.rules.specs.Refusals.{check_judged};
ghost use Rattle.rules.specs.Operations.{judge_all};
ghost use Rattle.prices.specs.Costs.{priced_of};
ghost use Rattle.columns.specs.Numbered.{climbed_for};
ghost use Rattle.columns.specs.Held.{Held};

use own::Lent;
use prices::Priced;
use rules::{Answer, Refusal, Table};
use table_columns::{Checked, Source};

// What an accepted table's cores cost each other.
fn priced<S: Source>(source: &S) -> Priced
    ensures { result ≡ priced_of (S.table source.now) }
{
    let cores = source.cores();
    let sets = source.sets();
    let costs = board::all_costs(source.fourth(), cores, &sets, source.timing());
    Priced {
        tasks: source.tasks(),
        cores,
        costs,
    }
}

// All that judging needs of an accepted table, wherever it stands, into lent columns.
pub fn lay<S: Source>(source: &S, lent: &mut Lent)
    ensures { Held (S.table source.now) lent.new }
{
    lent.board = priced(source);
    table_columns::per_task(source, &mut lent.core, &mut lent.latest);
    let mut order = [0usize; 33];
    lent.tasks.begins = groups::grouped(lent.board.tasks, lent.board.cores, &lent.core, &mut order);
    table_columns::columns(source, &order, &mut lent.tasks);
}

// Task number k of an accepted table, from a start that is not late: its answer, or none where F lowers the start.
pub fn judge_task(table: Table, k: u8, start: u64) -> Option<Answer>
    requires sound { Sound table }
    requires within { Within 1 table.tasks k × (start ≤ Tasks.latest (task_of table k)) }
    ensures { result ≡ climbed_for table k start }
{
    let mut lent = Lent::empty();
    lay(&Checked { table: &table }, &mut lent);
    let i = (k as usize) - 1;
    let p = (lent.core[i] as usize) - 1;
    let place = standing::place(i, lent.tasks.begins[p], &lent.core);
    let doubled = floors::doubled(lent.board.cores, &lent.tasks);
    rounds::judge_at(&lent, &doubled, i, place, start)
}

// Every task of a table that may be judged: 13 with the first late start, 14 with the first whose start F lowers, or the answers.
pub fn judge_tasks(table: Table, starts: [u64; 32]) -> Result<[Answer; 32], Refusal>
    requires { is_accepted (check_judged table) ≡ true }
    ensures { result ≡ granted (judge_all table starts).refusal (judge_all table starts).answers }
{
    let mut lent = Lent::empty();
    lay(&Checked { table: &table }, &mut lent);
    rounds::judge_lent(&lent, &starts)
}
