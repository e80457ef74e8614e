// What the cores of a DRAM table cost each other: RULES 4.2 to 4.7 core by core, as prices.
#![tactic(auto)]

ghost use Rattle.std.specs.Prelude.{◌≡◌, ◌≤◌};
ghost use Rattle.rules.specs.declared.Table.{Table};
ghost use Rattle.facts.specs.Sound.{SoundRow};
ghost use Rattle.facts.specs.Prices.{dram_prices};
ghost use Rattle.delays.specs.Figures.{FiguresBounded};
ghost use Rattle.weights.specs.Shows.{Shows};
ghost use Rattle.prices.specs.Costs.{costs_at, each_costs};

use delays::Figures;
use prices::CoreCosts;
use rules::Picos;

// Both costs of core p.
fn costs(cores: usize, near: u8, far: &[u8; 8], p: usize, f: Figures) -> CoreCosts
    requires le_p { (1 ≤ p) × (p ≤ cores) × (cores ≤ 8) }
    requires figures_bounded { FiguresBounded f }
    ensures { (t : Table) → t.cores ≡ cores → Shows p near far.now f t → result ≡ costs_at t.cores (dram_prices t p) }
{
    let mut sum: u64 = 0;
    let free = Picos(0);
    let mut weight = [free; 8];
    for q in 0..cores {
        let each = weights::weigh(near, far, p, q + 1, f);
        weight[q] = Picos(each);
        sum += each;
    }
    let request = Picos(weights::request_delay(near, far, p, f, sum));
    CoreCosts { request, weight }
}

// The costs of every core.
pub fn all_costs(cores: usize, sets: &[u16; 8], row: [u16; 15]) -> [CoreCosts; 8]
    requires { (cores ≤ 8) × SoundRow row }
    ensures { (t : Table) → t.cores ≡ cores → t.sets ≡ sets.now → t.timing ≡ row → result ≡ each_costs t.cores (dram_prices t) }
{
    let figures = delays::figures_of(row);
    let mut near = [0u8; 8];
    let mut far = [0u8; 8];
    sides::all_sides(cores, sets, &mut near, &mut far);
    prices::each_core(cores, |p| costs(cores, near[p - 1], &far, p, figures))
}
