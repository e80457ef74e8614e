// What the cores of a bus table cost each other: RULES 4.8 and 4.9 core by core, as prices.
#![tactic(auto)]

ghost use Rattle.std.specs.Prelude.{◌≡◌, ◌≤◌};
ghost use Rattle.rules.specs.declared.Table.{Table};
ghost use Rattle.rules.specs.Units.{ps};
ghost use Rattle.rules.specs.Bus.{slot_in};
ghost use Rattle.facts.specs.Prices.{if_other, bus_prices};
ghost use Rattle.prices.specs.Costs.{costs_at, each_costs};

use prices::CoreCosts;
use rules::Picos;

// The time s (RULES 2.8). No clock is involved.
fn slot(row: [u16; 15]) -> Picos
    ensures { (result ≡ slot_in row) × (result.0 ≤ 65535) }
{
    Picos(u64::from(row[0]))
}

// What one request of core q costs a job of core p: a turn, unless it is the same core.
fn price(p: usize, q: usize, s: Picos) -> Picos
    ensures { (t : Table) → slot_in t.timing ≡ s → result ≡ ps (if_other t p q) }
{
    if q == p { Picos(0) } else { s }
}

// The costs of core p. One of its requests waits for a turn of every other core.
fn costs(cores: usize, p: usize, s: Picos) -> CoreCosts
    requires { (1 ≤ cores) × (cores ≤ 8) × (s.0 ≤ 65535) }
    ensures { (t : Table) → t.cores ≡ cores → slot_in t.timing ≡ s → result ≡ costs_at t.cores (bus_prices t p) }
{
    let free = Picos(0);
    let mut weight = [free; 8];
    for q in 0..cores {
        weight[q] = price(p, q + 1, s);
    }
    let request = Picos((cores as u64 - 1) * s.0);
    CoreCosts { request, weight }
}

// The costs of every core.
pub fn all_costs(cores: usize, row: [u16; 15]) -> [CoreCosts; 8]
    requires { cores ≤ 8 }
    ensures { (t : Table) → t.cores ≡ cores → t.timing ≡ row → result ≡ each_costs t.cores (bus_prices t) }
{
    let s = slot(row);
    prices::each_core(cores, |p| costs(cores, p, s))
}
