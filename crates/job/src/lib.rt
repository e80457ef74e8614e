// Job, of plain terms: added up core by core, and no further than request.
#![tactic(auto)]

ghost use Rattle.std.specs.Prelude.{◌*◌, ◌^◌, ◌≤◌};
ghost use Rattle.laws.specs.Idioms.{Within};
ghost use Rattle.counts.specs.Counts.{Slots};
ghost use Rattle.job.specs.Job.{Charged, Groups, job_by, Reached};

use counts::Grouped;
use floors::Others;

// What the tasks of a core, those in places a to e, cost after their first jobs, at so much a request. Of a core whose requests cost nothing, as the
// own core's, nothing is counted.
fn charged(a: usize, e: usize, tasks: &Grouped, weight: u64, t: u64) -> u64
    requires within { Within 1 (10 ^ 12) t × (weight ≤ 2 * 10 ^ 7) }
    requires slots { Slots (10 ^ 6) a e tasks.now.periods tasks.now.requests }
    ensures { Charged a e tasks.now.periods tasks.now.requests weight t result }
{
    if weight == 0 {
        return 0;
    }
    counts::later(a, e, tasks, t) * weight
}

// Job from its floor, or as much of it as is no less than request. At time 0 only the jobs carried in count: one of each task, where the floor has two.
pub fn reached(others: &Others, request: u64, tasks: &Grouped, t: u64) -> u64
    requires t_bound { t ≤ 10 ^ 12 }
    requires groups { Groups others.now tasks.now.begins tasks.now.periods tasks.now.requests }
    ensures { Reached request (job_by others.now tasks.now.begins tasks.now.periods tasks.now.requests t) result }
{
    let mut sum = others.floor.0;
    if t == 0 {
        return sum / 2;
    }
    for q in 0..others.cores {
        if request <= sum {
            return sum;
        }
        sum += charged(
            tasks.begins[q],
            tasks.begins[q + 1],
            tasks,
            others.weight[q].0,
            t,
        );
    }
    sum
}
