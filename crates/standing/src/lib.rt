// Where a task stands among those of its core.
#![tactic(auto)]

ghost use Rattle.std.specs.Prelude.{◌≡◌, length, get_or, ◌+◌, ◌≤◌, ◌<◌};
ghost use Rattle.standing.specs.OnCore.{places_on};

// Where the task in place k stands, when the first of its core stands at `first`: after its higher tasks.
pub fn place(k: usize, first: usize, core: &[u8; 32]) -> usize
    requires { (k < 32) × (first ≤ 32) }
    ensures { result ≡ first + length (places_on core.now (get_or core.now k 0) k) }
{
    let own = core[k];
    first + core[..k].iter().filter(|c| **c == own).count()
}
