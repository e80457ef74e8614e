// What a table file holds, as far as it reaches: whether its board is one, and the table of its first records. Nothing is said of its trailer.
#![tactic(auto)]

ghost use Rattle.std.specs.Prelude.{◌≡◌, ◌+◌, ◌≤◌, length, replicate};
ghost use Rattle.laws.specs.Idioms.{filled};
ghost use Rattle.rules.specs.Chain.{granted};
ghost use Rattle.rules.specs.Tasks.{no_task};
ghost use Rattle.rules.specs.Refusals.{check_board};
ghost use Rattle.rules.specs.File.{records_at, record_at, cores_in, form_in, first_tasks, decode};
ghost use Rattle.contents.specs.Tasks.{tasks_to};

use chain::refuse_if;
use places::Header;
use rules::{Refusal, Table, Task};

// 5 to 8 and 16, of a file that reaches the end of its sets. Sets that have no room in a table are refused by their count before they are looked at.
pub fn board(file: &[u8]) -> Result<(), Refusal>
    requires { records_at (form_in file.now) (cores_in file.now) ≤ length file.now }
    ensures { result ≡ granted (check_board (decode file.now)) tt }
{
    let header = Header::of(file);
    refuse_if(8 < header.cores, 5, 0)?;
    checks::board_refusal(
        header.cores,
        header.partitions,
        header.tasks,
        header.form,
        fields::row_in(file),
        &fields::sets_in(file),
    )
}

// The tasks of the first n records into places of which none has a task yet. They are lent, so that the tasks are not copied.
fn put_tasks(file: &[u8], n: usize, all: &mut [Task; 32])
    requires n_bound { n ≤ 32 }
    requires n_in_bounds { record_at (form_in file.now) (cores_in file.now) (n + 1) ≤ length file.now }
    requires none { all.old ≡ replicate 32 no_task }
    ensures { all.new ≡ filled 32 no_task (tasks_to file.now n) }
{
    for i in 0..n {
        all[i] = fields::record_task(file, i);
    }
}

// The table of the first n records, with a fourth byte, of a file that reaches their end and has cores that have room in a table.
pub fn table(file: &[u8], fourth: u8, n: u8) -> Table
    requires file_bound { (cores_in file.now ≤ 8) × (n ≤ 32) }
    requires n_in_bounds { record_at (form_in file.now) (cores_in file.now) (n + 1) ≤ length file.now }
    ensures { result ≡ first_tasks file.now fourth n }
{
    let header = Header::of(file);
    let mut table = Table {
        cores: header.cores,
        partitions: header.partitions,
        tasks: n,
        fourth,
        timing: fields::row_in(file),
        sets: fields::sets_in(file),
        task: [tasks::no_task(); 32],
    };
    put_tasks(file, usize::from(n), &mut table.task);
    table
}
