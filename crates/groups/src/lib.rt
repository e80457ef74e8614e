// The tasks core after core: in which order they stand, and where each core's begin.
#![tactic(auto)]

ghost use Rattle.std.specs.Prelude.{length, ◌+◌, ◌≤◌};
ghost use Rattle.standing.specs.OnCore.{places_on};
ghost use Rattle.groups.specs.Grouped.{PlacesBelow, Joined, Ordered};

// The places of the tasks on core q, after the m that are taken. Each is written at the next place, which counts only where the core is q.
fn group(n: usize, q: u8, m: usize, core: &[u8; 32], order: &mut [usize; 33]) -> usize
    requires n_bound { (n ≤ 32) × (m + length (places_on core.now q n) ≤ 32) }
    requires places_below { PlacesBelow n order.old }
    ensures { Joined n (places_on core.now q n) m result order.old order.new }
{
    let mut at = m;
    for i in 0..n {
        order[at] = i;
        at += usize::from(core[i] == q);
    }
    at
}

// The places of the tasks of every core, core after core; and where each core's begin.
pub fn grouped(n: usize, cores: usize, core: &[u8; 32], order: &mut [usize; 33]) -> [usize; 9]
    requires n_bound { (n ≤ 32) × (cores ≤ 8) }
    requires places_below { PlacesBelow n order.old }
    ensures { Ordered cores n core.now result order.new }
{
    let mut from = [0usize; 9];
    let mut m: usize = 0;
    for q in 0..cores {
        m = group(n, (q as u8) + 1, m, core, order);
        from[q + 1] = m;
    }
    from
}
