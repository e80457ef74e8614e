// Checks 9 to 11 of tasks, each given by its number, in one walk over them: a table's and a file's.
#![tactic(auto)]

ghost use Rattle.std.specs.Prelude.{◌≡◌, ◌≤◌, ℕ};
ghost use Rattle.rules.specs.declared.Task.{Task};
ghost use Rattle.rules.specs.Chain.{granted};
ghost use Rattle.rules.specs.Refusals.{core_fault, time_fault, request_fault, tasks_refusal};
ghost use Rattle.rules.specs.Salvage.{task_fault};
ghost use Rattle.task_walk.specs.Faults.{earliest, no_faults, with_task, placed, told_by};

use basics::outside;
use chain::refuse;
use rules::{Refusal, Task};

fn core_fault(cores: u8, x: Task) -> bool
    ensures { result ≡ core_fault cores x }
{
    outside(1, cores as u64, x.core as u64)
}

// Is T, D or C outside its limits (RULES 2.2)?
fn time_fault(x: Task) -> bool
    ensures { result ≡ time_fault x }
{
    outside(100000000, 1000000000000, x.period.0)
        || outside(1, x.period.0, x.deadline.0)
        || outside(1, x.deadline.0, x.exec.0)
}

fn request_fault(x: Task) -> bool
    ensures { result ≡ request_fault x }
{
    1000000 < x.requests
}

// Do 9 to 11 find a fault in a task?
pub fn task_fault(cores: u8, x: Task) -> bool
    ensures { result ≡ task_fault cores x }
{
    core_fault(cores, x) || time_fault(x) || request_fault(x)
}

// The first task at fault of each kind, 9 to 11.
#[derive(Clone, Copy)]
pub struct Faults {
    pub core: Option<u8>,
    pub time: Option<u8>,
    pub request: Option<u8>,
}

fn earliest(seen: Option<u8>, k: u8, fault: bool) -> Option<u8>
    ensures { result ≡ earliest seen k fault }
{
    seen.or(fault.then_some(k))
}

pub fn no_faults() -> Faults
    ensures { result ≡ no_faults }
{
    Faults {
        core: None,
        time: None,
        request: None,
    }
}

// What has been seen, and task number k.
pub fn noted(seen: Faults, k: u8, cores: u8, x: Task) -> Faults
    ensures { result ≡ with_task seen k cores x }
{
    Faults {
        core: earliest(seen.core, k, core_fault(cores, x)),
        time: earliest(seen.time, k, time_fault(x)),
        request: earliest(seen.request, k, request_fault(x)),
    }
}

// The refusal of the place that was seen.
fn refuse_seen(number: u8, seen: Option<u8>) -> Result<(), Refusal>
    requires { 1 ≤ number }
    ensures { result ≡ granted (placed number seen) tt }
{
    match seen {
        Some(place) => refuse(number, place),
        None => Ok(()),
    }
}

// RULES 9.1: 9, then 10, then 11.
pub fn told(seen: Faults) -> Result<(), Refusal>
    ensures { result ≡ granted (told_by seen) tt }
{
    refuse_seen(9, seen.core)?;
    refuse_seen(10, seen.time)?;
    refuse_seen(11, seen.request)
}

// 9 to 11 of tasks 1 to n, in one walk; each is given by its number. What was seen is only looked at where a task has a fault.
pub fn check_each<F: Fn(u8) -> Task>(cores: u8, n: u8, task: F) -> Result<(), Refusal>
    requires { (k : ℕ) → 1 ≤ k → k ≤ n → F.pre task k }
    ensures { (at : ℕ → Task) → ((k : ℕ) (x : Task) → 1 ≤ k → k ≤ n → F.post task k x → x ≡ at k) → result ≡ granted (tasks_refusal cores at n) tt }
{
    let mut seen = no_faults();
    for i in 0..n {
        let k = i + 1;
        let x = task(k);
        if task_fault(cores, x) {
            seen = noted(seen, k, cores, x);
        }
    }
    told(seen)
}
