// What the cores of a board pay, whatever its kind.
#![tactic(auto)]

ghost use Rattle.std.specs.Prelude.{◌≡◌, ℕ, ◌≤◌};
ghost use Rattle.laws.specs.Idioms.{Within};
ghost use Rattle.prices.specs.Costs.{no_costs, EachBy};

use rules::Picos;

// For one core, as times: RD, and what one request of each core costs one of its jobs.
#[derive(Clone, Copy)]
pub struct CoreCosts {
    pub request: Picos,
    pub weight: [Picos; 8],
}

// How many tasks and cores there are, and what the cores cost each other.
#[derive(Clone, Copy)]
pub struct Priced {
    pub tasks: usize,
    pub cores: usize,
    pub costs: [CoreCosts; 8],
}

pub fn no_costs() -> CoreCosts
    ensures { result ≡ no_costs }
{
    let free = Picos(0);
    CoreCosts {
        request: free,
        weight: [free; 8],
    }
}

// Those of each core, counted from 1, by what gives the costs of one.
pub fn each_core<F: Fn(usize) -> CoreCosts>(cores: usize, costs: F) -> [CoreCosts; 8]
    requires few { cores ≤ 8 }
    requires callable { (p : ℕ) → Within 1 cores p → F.pre costs p }
    ensures { EachBy cores (F.post costs) result }
{
    let none = no_costs();
    let mut all = [none; 8];
    for p in 0..cores {
        all[p] = costs(p + 1);
    }
    all
}
