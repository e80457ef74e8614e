// RULES 4.1: which cores are near a core and which far from it, by the sets of partitions, as bits.
#![tactic(auto)]

ghost use Rattle.std.specs.Prelude.{◌≡◌, ◌≤◌, replicate, true, false};
ghost use Rattle.rules.specs.Cores.{share};
ghost use Rattle.sides.specs.Masks.{as_bit, mask, on_side, side_masks};

// The two sets have a partition in common.
pub fn shares(a: u16, b: u16) -> bool
    ensures { result ≡ share a b }
{
    a & b != 0
}

// Whether core q is on the near side of p, or on the far side, as a bit.
fn on_side(sets: &[u16; 8], p: usize, q: usize, near: bool) -> u8
    requires { (1 ≤ p) × (p ≤ 8) × (1 ≤ q) × (q ≤ 8) }
    ensures { (result ≡ as_bit (on_side near sets.now p q)) × (result ≤ 1) }
{
    u8::from(q != p && shares(sets[p - 1], sets[q - 1]) == near)
}

// The cores near a core and those far from it, as bits.
#[derive(Clone, Copy)]
pub struct Sides {
    pub near: u8,
    pub far: u8,
}

// Those of core p.
fn sides_of(cores: usize, sets: &[u16; 8], p: usize) -> Sides
    requires { (1 ≤ p) × (p ≤ cores) × (cores ≤ 8) }
    ensures near_value { result.near ≡ mask (on_side true sets.now p) cores }
    ensures far_value { result.far ≡ mask (on_side false sets.now p) cores }
{
    let mut near: u8 = 0;
    let mut far: u8 = 0;
    for q in (1..=cores).rev() {
        near = near * 2 + on_side(sets, p, q, true);
        far = far * 2 + on_side(sets, p, q, false);
    }
    Sides { near, far }
}

// Those of each core, near and far apart: `weights` reads one core's near ones, and the far ones of all.
pub fn all_sides(cores: usize, sets: &[u16; 8], near: &mut [u8; 8], far: &mut [u8; 8])
    requires cores_bound { cores ≤ 8 }
    requires near_value { (near.old ≡ replicate 8 0) × (far.old ≡ replicate 8 0) }
    ensures near_after { near.new ≡ side_masks true cores sets.now }
    ensures far_after { far.new ≡ side_masks false cores sets.now }
{
    for p in 0..cores {
        let both = sides_of(cores, sets, p + 1);
        near[p] = both.near;
        far[p] = both.far;
    }
}
