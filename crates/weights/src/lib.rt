// What one request of a core costs a job of another, and RD, from the bits of near and far cores: RULES 4.2 to 4.7 as numbers.
#![tactic(auto)]

ghost use Rattle.std.specs.Prelude.{◌≡◌, ◌-◌, ◌*◌, ◌/◌, ◌%◌, ◌^◌, ◌≤◌};
ghost use Rattle.std.specs.Int.Count.{ones};
ghost use Rattle.rules.specs.declared.Table.{Table};
ghost use Rattle.laws.specs.Idioms.{sum_over, up_to};
ghost use Rattle.rules.specs.Dram.{RD};
ghost use Rattle.facts.specs.Prices.{weight};
ghost use Rattle.delays.specs.Figures.{FiguresBounded};
ghost use Rattle.weights.specs.Shows.{Shows};

use delays::Figures;

// How many cores the bits stand for.
fn count(bits: u8) -> u64
    ensures { (result ≡ ones bits) × (result ≤ 8) }
{
    u64::from(bits.count_ones())
}

// The bit of core q.
fn bit(bits: u8, q: usize) -> u64
    requires { (1 ≤ q) × (q ≤ 8) }
    ensures { (result ≡ bits / 2 ^ (q - 1) % 2) × (result ≤ 1) }
{
    u64::from((bits >> (q - 1)) % 2)
}

// What one request of core q costs a job of core p: a crossing if q is far, a conflict if it is near, and a crossing for each core near p
// that q is far from.
pub fn weigh(near: u8, far: &[u8; 8], p: usize, q: usize, f: Figures) -> u64
    requires le_p { (1 ≤ p) × (p ≤ 8) × (1 ≤ q) × (q ≤ 8) }
    requires figures_bounded { FiguresBounded f }
    ensures upper_bound { result ≤ 3 * 10 ^ 7 }
    ensures value { (t : Table) → p ≤ t.cores → q ≤ t.cores → Shows p near far.now f t → result ≡ weight t p q }
{
    let across = bit(far[p - 1], q);
    if near != 0 {
        let crossings = across + count(near & far[q - 1]);
        return crossings * f.crossing.0 + bit(near, q) * f.conflict.0;
    }
    across * f.crossing.0
}

// RD from what one request of each core costs: the row's part is added, unless no core is near.
pub fn request_delay(near: u8, far: &[u8; 8], p: usize, f: Figures, weights: u64) -> u64
    requires le_p { (1 ≤ p) × (p ≤ 8) × (weights ≤ 3 * 10 ^ 8) }
    requires figures_bounded { FiguresBounded f }
    ensures { (t : Table) → p ≤ t.cores → Shows p near far.now f t → weights ≡ sum_over (up_to t.cores) (weight t p) → result ≡ RD t p }
{
    if near == 0 {
        return weights;
    }
    let others = count(far[p - 1]);
    f.run.0 + f.window * f.readwrite.0 * others + f.reopen.0 + weights
}
