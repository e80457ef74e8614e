// F without overflow, of plain terms: the tasks of all cores, core after core.
#![tactic(auto)]

ghost use Rattle.std.specs.Prelude.{◌≡◌, ◌*◌, ◌^◌, ◌≤◌, min};
ghost use Rattle.terms.specs.Terms.{Fair, terms_in, applied};

use counts::Grouped;
use floors::Others;
use rules::{Delay, Picos};

// The product, or the largest u64 where it is larger than that. The test stays before `saturating_mul`: without it a round takes 4 to 25 % longer.
fn capped(a: u64, b: u64) -> u64
    ensures { result ≡ min (a * b) 18446744073709551615 }
{
    if a < 4294967296 && b < 4294967296 {
        return a * b;
    }
    a.saturating_mul(b)
}

// The judged task's own figures: C, H and the latest allowed response; RD of its core, and what it meets of the others; the place of its core's first
// task, and its own.
#[derive(Clone, Copy)]
pub struct Own {
    pub exec: u64,
    pub requests: u64,
    pub latest: u64,
    pub delay: Picos,
    pub others: Others,
    pub first: usize,
    pub place: usize,
}

// What F gives, and which of the two delays decided.
#[derive(Clone, Copy)]
pub struct Applied {
    pub time: u64,
    pub by: Delay,
}

// F. Request may be far above 64 bits; capped, it is above job where it was. Of job as much is added up as decides.
pub fn apply(own: &Own, tasks: &Grouped, t: u64) -> Applied
    requires t_bound { t ≤ 10 ^ 12 }
    requires fair { Fair (terms_in own.now tasks.now) }
    ensures { result ≡ applied (terms_in own.now tasks.now) t }
{
    let higher = counts::asked_higher(own.first, own.place, tasks, t);
    let exec = own.exec + higher.execs;
    let requests = own.requests + higher.requests;
    let delay = own.delay.0;
    let request = capped(delay, requests);
    let job = job::reached(&own.others, request, tasks, t);
    if request <= job {
        Applied {
            time: exec + request,
            by: Delay::Request,
        }
    } else {
        Applied {
            time: exec + job,
            by: Delay::Job,
        }
    }
}
