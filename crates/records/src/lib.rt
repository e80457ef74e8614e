// The records of a table's tasks, into a lent buffer that has room for them. Where they stand is `places`'.
#![tactic(auto)]

ghost use Rattle.std.specs.Prelude.{◌≡◌, ◌+◌, ◌≤◌, map, length};
ghost use Rattle.std.proofs.lemmas.List.Edits.{sets};
ghost use Rattle.laws.specs.Idioms.{joined};
ghost use Rattle.rules.specs.File.{records_at, record_at, record_bytes};

use rules::Task;

// The record of a task (RULES 7.1).
fn put_task(out: &mut [u8], at: usize, form: u8, task: Task)
    requires { at + 29 ≤ length out.old }
    ensures { out.new ≡ sets out.old at (record_bytes form task) }
{
    lent_bytes::put(out, at, task.core as u64, 1);
    lent_bytes::put(out, at + 1, task.exec.0, 8);
    lent_bytes::put(out, at + 9, task.period.0, 8);
    lent_bytes::put(out, at + 17, task.deadline.0, 8);
    lent_bytes::put(out, at + 25, task.requests as u64, 4);
}

// The records of some tasks, from the first record's place on.
pub fn put_tasks(out: &mut [u8], form: u8, cores: u8, tasks: &[Task])
    requires few { length tasks.now ≤ 32 }
    requires in_bounds { record_at form cores (length tasks.now + 1) ≤ length out.old }
    ensures { out.new ≡ sets out.old (records_at form cores) (joined (map (record_bytes form) tasks.now)) }
{
    for i in 0..tasks.len() {
        put_task(out, places::record_at(form, cores, i), form, tasks[i]);
    }
}
