// What the tasks of other cores cost a job at least: from time 1 on two jobs of each of them count, one released and one carried in.
#![tactic(auto)]

ghost use Rattle.std.specs.Prelude.{◌≡◌, ◌*◌, ◌^◌, get_or};
ghost use Rattle.counts.specs.Counts.{twice_of, Summed, Bounded};
ghost use Rattle.floors.specs.Floors.{Lots, Doubled, Fits, others_with};

use counts::Grouped;
use rules::Picos;

// The requests of two jobs of each task in places a to e.
fn twice(a: usize, e: usize, requests: &[u64; 33]) -> u64
    requires { Bounded (10 ^ 6) a e requests.now }
    ensures { Summed (2 * 10 ^ 6) (twice_of requests.now) a e result }
{
    let mut sum: u64 = 0;
    for n in &requests[a..e] {
        sum += 2 * *n;
    }
    sum
}

// That of each core's tasks, once a table.
pub fn doubled(cores: usize, tasks: &Grouped) -> [u64; 8]
    requires { Lots cores tasks.now.begins tasks.now.requests }
    ensures { Doubled cores tasks.now.begins tasks.now.requests result }
{
    let mut out = [0u64; 8];
    for q in 0..cores {
        out[q] = twice(tasks.begins[q], tasks.begins[q + 1], &tasks.requests);
    }
    out
}

// What a job meets of the other cores: how many cores there are, its own with them; the weight of one request of each, which is 0 for its own; and
// what two jobs of each task cost.
#[derive(Clone, Copy)]
pub struct Others {
    pub cores: usize,
    pub weight: [Picos; 8],
    pub floor: Picos,
}

pub fn with_floor(cores: usize, weight: [Picos; 8], doubled: &[u64; 8]) -> Others
    requires { Fits cores weight doubled.now }
    ensures { result ≡ others_with cores weight (λ q. get_or doubled.now q 0) }
{
    let mut sum: u64 = 0;
    for q in 0..cores {
        sum += doubled[q] * weight[q].0;
    }
    Others {
        cores,
        weight,
        floor: Picos(sum),
    }
}
