// What tasks ask for in a time.
#![tactic(auto)]

ghost use Rattle.std.specs.Prelude.{◌≡◌, ◌*◌, ◌^◌, ◌≤◌};
ghost use Rattle.laws.specs.Idioms.{Within};
ghost use Rattle.counts.specs.Counts.{no_tasks, released, later_of, Summed, Slots};

use releases::Inverse;

// The figures of tasks, core after core: T with an inverse of it, C and H. Those of the core in place q stand in places begins[q] to begins[q + 1].
// Columns and no array of records: each sum (`asked_by`) is of the periods and one cost, and every contract would map records to the two.
#[derive(Drop)]
pub struct Grouped {
    pub begins: [usize; 9],
    pub periods: [u64; 33],
    pub inverses: [Inverse; 33],
    pub execs: [u64; 33],
    pub requests: [u64; 33],
}

impl Grouped {
    // Figures of no tasks, to start with.
    pub fn empty() -> Grouped
        ensures { result ≡ no_tasks }
    {
        Grouped {
            begins: [0; 9],
            periods: [0; 33],
            inverses: [Inverse::NONE; 33],
            execs: [0; 33],
            requests: [0; 33],
        }
    }
}

// The requests in t of the tasks of a core, those in places a to e, less those of each task's first job. From time 1 on there is one.
pub fn later(a: usize, e: usize, tasks: &Grouped, t: u64) -> u64
    requires within { Within 1 (10 ^ 12) t }
    requires slots { Slots (10 ^ 6) a e tasks.now.periods tasks.now.requests }
    ensures { Summed (10000 * 10 ^ 6) (later_of t tasks.now.periods tasks.now.requests) a e result }
{
    let mut sum: u64 = 0;
    for i in a..e {
        sum += (releases::up(t, tasks.periods[i], tasks.inverses[i]) - 1) * tasks.requests[i];
    }
    sum
}

// What the higher tasks of a core ask for: the sums of C and of H.
#[derive(Clone, Copy)]
pub struct Higher {
    pub execs: u64,
    pub requests: u64,
}

// That of the tasks in places a to e in t, with no job carried in. Each task is counted once for both sums.
pub fn asked_higher(a: usize, e: usize, tasks: &Grouped, t: u64) -> Higher
    requires t_bound { t ≤ 10 ^ 12 }
    requires slots { Slots (10 ^ 12) a e tasks.now.periods tasks.now.execs }
    requires slots_2 { Slots (10 ^ 6) a e tasks.now.periods tasks.now.requests }
    ensures summed { Summed (10000 * 10 ^ 12) (released 0 t tasks.now.periods tasks.now.execs) a e result.execs }
    ensures summed_2 { Summed (10000 * 10 ^ 6) (released 0 t tasks.now.periods tasks.now.requests) a e result.requests }
{
    let mut exec_sum: u64 = 0;
    let mut request_sum: u64 = 0;
    for i in a..e {
        let count = releases::up(t, tasks.periods[i], tasks.inverses[i]);
        exec_sum += count * tasks.execs[i];
        request_sum += count * tasks.requests[i];
    }
    Higher {
        execs: exec_sum,
        requests: request_sum,
    }
}
