// A board's counts and sets against their limits: refusals 5 and 8.
#![tactic(auto)]

ghost use Rattle.std.specs.Prelude.{◌≡◌, ◌≤◌};
ghost use Rattle.laws.specs.Idioms.{entry};
ghost use Rattle.rules.specs.Chain.{first, granted};
ghost use Rattle.rules.specs.Refusals.{counts_fault, set_fault};

use basics::outside;
use chain::refuse_first;
use rules::Refusal;

// Is a count outside its limits, or a bit of the fourth byte set that no table has (RULES 2.1)?
pub fn counts_fault(cores: u8, partitions: u8, tasks: u8, fourth: u8) -> bool
    ensures { result ≡ counts_fault cores partitions tasks fourth }
{
    outside(1, 8, cores as u64)
        || outside(1, 16, partitions as u64)
        || outside(1, 32, tasks as u64)
        || 4 <= fourth
}

fn set_fault(partitions: u8, set: u16) -> bool
    requires { partitions ≤ 16 }
    ensures { result ≡ set_fault partitions set }
{
    set == 0 || 1u32 << partitions <= set as u32
}

// Refusal 8 (RULES 9.3), with the first core whose set is at fault (RULES 2.3).
pub fn check_sets(cores: u8, partitions: u8, sets: &[u16; 8]) -> Result<(), Refusal>
    requires { (cores ≤ 8) × (partitions ≤ 16) }
    ensures { result ≡ granted (first 8 (λ p. set_fault partitions (entry 0 sets.now p)) cores) tt }
{
    refuse_first(8, cores, |p| set_fault(partitions, sets[p as usize - 1]))
}
