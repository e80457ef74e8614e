// The order of two tables: is the newer the older one worsened, and if not, which figure is at fault?
#![tactic(auto)]

ghost use Rattle.std.specs.Prelude.{◌≡◌};
ghost use Rattle.rules.specs.Order as Order;
ghost use Rattle.changes.specs.Difference as Difference;
ghost use Rattle.changes.specs.Difference.{counts_difference, board_difference, tasks_difference};

use changes::{Change, Figure, unequal, unlike};
use rules::Table;
use tasks::task_of;

// The counts and the fourth byte.
fn counts_difference(older: &Table, newer: &Table) -> Option<Change<Figure>>
    ensures { result ≡ counts_difference older.now newer.now }
{
    unequal(Figure::Cores, 0, older.cores as u64, newer.cores as u64)
        .or_else(|| unequal(
            Figure::Partitions,
            0,
            older.partitions as u64,
            newer.partitions as u64,
        ))
        .or_else(|| unequal(Figure::Tasks, 0, older.tasks as u64, newer.tasks as u64))
        .or_else(|| unequal(Figure::Fourth, 0, older.fourth as u64, newer.fourth as u64))
}

// The counts, the timing figures and the used sets.
fn board_difference(older: &Table, newer: &Table) -> Option<Change<Figure>>
    ensures { result ≡ board_difference older.now newer.now }
{
    counts_difference(older, newer)
        .or_else(|| unlike(Figure::Timing, 15, &older.timing, &newer.timing))
        .or_else(|| unlike(Figure::Set, older.cores, &older.sets, &newer.sets))
}

// The first task at fault.
fn tasks_difference(older: &Table, newer: &Table) -> Option<Change<Figure>>
    ensures { result ≡ tasks_difference older.now newer.now }
{
    changes::first_of(
        changes::last_place(older.tasks, &older.task, &newer.task),
        |k| changes::task_difference(k, task_of(older, k), task_of(newer, k)),
    )
}

// The first figure that keeps the newer table from being the older one worsened.
pub fn difference(older: Table, newer: Table) -> Option<Change<Figure>>
    ensures { result ≡ Difference.difference older newer }
{
    board_difference(&older, &newer).or_else(|| tasks_difference(&older, &newer))
}

// Are the two alike but that the newer may raise execution times and request counts and shorten periods? Then nothing is at fault.
pub fn worsens(older: Table, newer: Table) -> bool
    ensures { result ≡ Order.worsens older newer }
{
    difference(older, newer).is_none()
}
