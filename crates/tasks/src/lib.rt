// Checks 9 to 11 of a table's tasks.
#![tactic(auto)]

ghost use Rattle.std.specs.Prelude.{◌≡◌};
ghost use Rattle.rules.specs.Chain.{granted};
ghost use Rattle.rules.specs.Tasks.{no_task, task_of};
ghost use Rattle.rules.specs.Refusals.{check_tasks};

use rules::{Picos, Refusal, Table, Task};

pub fn no_task() -> Task
    ensures { result ≡ no_task }
{
    Task {
        core: 0,
        exec: Picos(0),
        period: Picos(0),
        deadline: Picos(0),
        requests: 0,
    }
}

// Task number k. Beyond the array there is no task.
pub fn task_of(t: &Table, k: u8) -> Task
    ensures { result ≡ task_of t.now k }
{
    match t.task.get((k as usize).saturating_sub(1)) {
        Some(task) => *task,
        None => no_task(),
    }
}

// 9 to 11 of a table that is lent, so that it is not copied.
pub fn check_lent(t: &Table) -> Result<(), Refusal>
    ensures { result ≡ granted (check_tasks t.now) tt }
{
    task_walk::check_each(t.cores, t.tasks, |k| task_of(t, k))
}

// 9 to 11 of a table.
pub fn check(t: Table) -> Result<(), Refusal>
    ensures { result ≡ granted (check_tasks t) tt }
{
    check_lent(&t)
}
