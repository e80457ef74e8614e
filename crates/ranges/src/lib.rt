// The ranges of a DRAM's timing figures, and check 6: each figure in its range.
#![tactic(auto)]

ghost use Rattle.std.specs.Prelude.{◌≡◌};
ghost use Rattle.rules.specs.Timing.{ranges};
ghost use Rattle.rules.specs.Chain.{first, granted};
ghost use Rattle.rules.specs.Refusals.{figure_fault};
ghost use Rattle.ranges.specs.Ranges.{not_burst, out_of_range};

use basics::outside;
use chain::refuse_first;
use rules::Refusal;

// The lowest and highest of each figure (RULES 2.4), in that order. Of BL not all between them pass.
const LIMITS: [(u16, u16); 15] = [
    (1, 5000),
    (1, 127),
    (1, 127),
    (1, 127),
    (1, 127),
    (4, 16),
    (1, 127),
    (1, 127),
    (1, 127),
    (1, 127),
    (1, 127),
    (1, 127),
    (0, 127),
    (64, 2048),
    (0, 65535),
];

// RULES 2.4: x is no burst length.
fn not_burst(x: u16) -> bool
    ensures { result ≡ not_burst x }
{
    x != 4 && x != 8 && x != 16
}

// Is x, figure k, outside its range? Figure 6 is BL.
fn is_outside(limits: (u16, u16), k: u8, x: u16) -> bool
    ensures { result ≡ out_of_range limits.0 limits.1 k x }
{
    outside(limits.0 as u64, limits.1 as u64, x as u64) || k == 6 && not_burst(x)
}

// In a function of its own, so that the walk is proved without the table's fifteen entries.
fn all_limits() -> [(u16, u16); 15]
    ensures { result ≡ ranges }
{
    LIMITS
}

// Refusal 6 (RULES 9.3), with the first figure at fault.
pub fn check_ranges(row: [u16; 15]) -> Result<(), Refusal>
    ensures { result ≡ granted (first 6 (figure_fault row) 15) tt }
{
    let table = all_limits();
    refuse_first(
        6,
        15,
        |k| is_outside(table[k as usize - 1], k, row[k as usize - 1]),
    )
}
