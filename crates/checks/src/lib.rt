// Checks 5 to 11 and 16 of a table, in their order: 5 to 8 of its board, of which 5 and 8 are in `limits`, 6 and 7, and 16 in their place, in `timing`; then 9 to 11, which are in `tasks`.
#![tactic(auto)]

ghost use Rattle.std.specs.Prelude.{◌≡◌};
ghost use Rattle.rules.specs.Chain.{granted};
ghost use Rattle.rules.specs.Refusals.{check_row, board_refusal, check_board, check_table};

use chain::refuse_if;
use rules::{Refusal, Table};

// 6 and 7, or 16: the timing figures, by the table's kind.
fn check_row(fourth: u8, row: [u16; 15]) -> Result<(), Refusal>
    ensures { result ≡ granted (check_row fourth row) tt }
{
    if basics::says_bus(fourth) {
        timing::check_bus(row)
    } else {
        timing::check(row)
    }
}

// 5 to 8 and 16: the board, by its counts, its timing figures and its sets. A struct of the six would be made of a table or of a file's bytes, and taken apart here.
pub fn board_refusal(
    cores: u8,
    partitions: u8,
    tasks: u8,
    fourth: u8,
    row: [u16; 15],
    sets: &[u16; 8],
) -> Result<(), Refusal>
    ensures { result ≡ granted (board_refusal cores partitions tasks fourth row sets.now) tt }
{
    refuse_if(limits::counts_fault(cores, partitions, tasks, fourth), 5, 0)?;
    check_row(fourth, row)?;
    limits::check_sets(cores, partitions, sets)
}

fn check_lent_board(t: &Table) -> Result<(), Refusal>
    ensures { result ≡ granted (check_board t.now) tt }
{
    board_refusal(t.cores, t.partitions, t.tasks, t.fourth, t.timing, &t.sets)
}

pub fn check_board(t: Table) -> Result<(), Refusal>
    ensures { result ≡ granted (check_board t) tt }
{
    check_lent_board(&t)
}

// 5 to 11 and 16 of a table that is lent, so that it is not copied.
pub fn check_lent(t: &Table) -> Result<(), Refusal>
    ensures { result ≡ granted (check_table t.now) tt }
{
    check_lent_board(t)?;
    tasks::check_lent(t)
}

// 5 to 11 and 16: what a table passed directly meets (RULES 9.4).
pub fn check(t: Table) -> Result<(), Refusal>
    ensures { result ≡ granted (check_table t) tt }
{
    check_lent(&t)
}
