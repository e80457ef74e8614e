// The tasks of a table in lent columns, and the figures of its own that the judgement of one of them starts from.
#![tactic(auto)]

ghost use Rattle.std.specs.Prelude.{◌≡◌, ◌≤◌, ◌<◌, get_or};
ghost use Rattle.laws.specs.Idioms.{Within};
ghost use Rattle.floors.specs.Floors.{Doubled, Fits};
ghost use Rattle.prices.specs.Costs.{no_costs};
ghost use Rattle.own.specs.Own.{no_lent, cost_at, own_of};

use counts::Grouped;
use prices::{CoreCosts, Priced};
use terms::Own;

// How many tasks and cores there are, and what the cores cost each other; by the tasks' numbers the core and the latest allowed response; the tasks'
// figures, core after core.
#[derive(Drop)]
pub struct Lent {
    pub board: Priced,
    pub core: [u8; 32],
    pub latest: [u64; 32],
    pub tasks: Grouped,
}

impl Lent {
    // Columns of no tasks, to be filled in their places: what is returned by value is copied.
    pub fn empty() -> Lent
        ensures { result ≡ no_lent }
    {
        Lent {
            board: Priced {
                tasks: 0,
                cores: 0,
                costs: [prices::no_costs(); 8],
            },
            core: [0; 32],
            latest: [0; 32],
            tasks: Grouped::empty(),
        }
    }
}

// What the core in place p costs. There are eight places, which the check doesn't find of an array of structs in a lent struct: so `get`, and no premise.
fn cost_in(board: &Priced, p: usize) -> CoreCosts
    ensures { result ≡ get_or board.now.costs p no_costs }
{
    match board.costs.get(p) {
        Some(cost) => *cost,
        None => prices::no_costs(),
    }
}

// The figures of the task in place i, which stands at `place` where the tasks are core after core: C and H, the latest allowed response, RD of its core and
// what it meets of the others, the place of its core's first task and its own.
pub fn own_of(l: &Lent, doubled: &[u64; 8], i: usize, place: usize) -> Own
    requires here { (i < 32) × Within 1 8 (get_or l.now.core i 0) × (place ≤ 32) }
    requires doubled { Doubled l.now.board.cores l.now.tasks.begins l.now.tasks.requests doubled.now × Fits l.now.board.cores (cost_at l.now i).weight doubled.now }
    ensures { result ≡ own_of l.now i place }
{
    let p = (l.core[i] as usize) - 1;
    let cost = cost_in(&l.board, p);
    Own {
        exec: l.tasks.execs[place],
        requests: l.tasks.requests[place],
        latest: l.latest[i],
        delay: cost.request,
        others: floors::with_floor(l.board.cores, cost.weight, doubled),
        first: l.tasks.begins[p],
        place,
    }
}
