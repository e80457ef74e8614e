// The rows of a listing, into a buffer that has room for them: a line for each task.
#![tactic(auto)]

ghost use Rattle.std.specs.Prelude.{◌+◌, ◌≤◌, length};
ghost use Rattle.rules.specs.Listing.{task_line};
ghost use Rattle.text.specs.Put.{Put};
ghost use Rattle.rows.specs.Rows.{rows};

use rules::{Answer, Table};
use text::put_field;

// The line of task number k.
fn put_row(buf: &mut [u8], at: usize, k: u64, core: u8, answer: Answer) -> usize
    requires { at + 100 ≤ length buf.old }
    ensures put { Put buf.old at (task_line k core answer) result buf.new }
    ensures upper_bound { result ≤ at + 100 }
{
    let verdict = answer.verdict;
    let number = put_field(buf, at, k, b' ');
    let end = put_field(buf, number, core as u64, b' ');
    words::put_answer(buf, end, verdict, answer.rounds)
}

// The lines of all tasks.
pub fn put_rows(buf: &mut [u8], at: usize, t: Table, answers: [Answer; 32]) -> usize
    requires tasks_bound { t.tasks ≤ 32 }
    requires at_in_bounds { at + 3200 ≤ length buf.old }
    ensures put { Put buf.old at (rows t answers t.tasks) result buf.new }
    ensures upper_bound { result ≤ at + 3200 }
{
    let mut end = at;
    for i in 0..usize::from(t.tasks) {
        end = put_row(buf, end, i as u64 + 1, t.task[i].core, answers[i]);
    }
    end
}
