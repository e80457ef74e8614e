// Starts as a column of numbers.
#![tactic(auto)]

ghost use Rattle.std.specs.Prelude.{◌≡◌};
ghost use Rattle.starts.specs.Starts.{in_picos};

use rules::Picos;

pub fn numbers(starts: [Picos; 32]) -> [u64; 32]
    ensures { result ≡ in_picos starts }
{
    starts.map(|start| start.0)
}
