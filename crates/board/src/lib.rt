// What a board's cores cost each other, whatever its kind: the one place that chooses.
#![tactic(auto)]

ghost use Rattle.std.specs.Prelude.{◌≡◌, false, ◌≤◌};
ghost use Rattle.rules.specs.declared.Table.{Table};
ghost use Rattle.rules.specs.Kinds.{says_bus};
ghost use Rattle.facts.specs.Sound.{SoundRow};
ghost use Rattle.prices.specs.Costs.{all_costs};

use prices::CoreCosts;

// The costs of every core.
pub fn all_costs(fourth: u8, cores: usize, sets: &[u16; 8], row: [u16; 15]) -> [CoreCosts; 8]
    requires { (cores ≤ 8) × (says_bus fourth ≡ false → SoundRow row) }
    ensures { (t : Table) → t.fourth ≡ fourth → t.cores ≡ cores → t.sets ≡ sets.now → t.timing ≡ row → result ≡ all_costs t }
{
    if basics::says_bus(fourth) {
        return bus::all_costs(cores, row);
    }
    dram::all_costs(cores, sets, row)
}
