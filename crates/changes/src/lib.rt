// A change between two tables that keeps the newer from being the older one worsened: of a figure, of a list, of a task.
#![tactic(auto)]

ghost use Rattle.std.specs.Prelude.{◌≡◌, ◌≤◌, ℕ, Option, length, min, max};
ghost use Rattle.changes.specs.declared.Change.{Change};
ghost use Rattle.laws.specs.Idioms.{entry};
ghost use Rattle.changes.specs.Difference.{first_of, unless, unequal, lower, longer, unlike, task_difference};

use rules::Task;

// Which figure of a table differs, or of one of its tasks, from Core on.
#[derive(Clone, Copy)]
pub enum Figure {
    Cores,
    Partitions,
    Tasks,
    Fourth,
    Timing,
    Set,
    Core,
    Deadline,
    Exec,
    Requests,
    Period,
}

// What is at fault, mostly a figure, its place, and what it was and is.
#[derive(Clone, Copy)]
pub struct Change<W> {
    pub what: W,
    pub place: u8,
    pub was: u64,
    pub is: u64,
}

// A change, unless it is fine.
fn unless<W: Copy>(fine: bool, what: W, place: u8, was: u64, is: u64) -> Option<Change<W>>
    ensures { result ≡ unless fine what place was is }
{
    if fine {
        return None;
    }
    Some(Change {
        what,
        place,
        was,
        is,
    })
}

// A figure that must stay as it was.
pub fn unequal<W: Copy>(what: W, place: u8, was: u64, is: u64) -> Option<Change<W>>
    ensures { result ≡ unequal what place was is }
{
    unless(was == is, what, place, was, is)
}

// One that may not get lower.
fn lower<W: Copy>(what: W, place: u8, was: u64, is: u64) -> Option<Change<W>>
    ensures { result ≡ lower what place was is }
{
    unless(was <= is, what, place, was, is)
}

// One that may not get longer.
fn longer<W: Copy>(what: W, place: u8, was: u64, is: u64) -> Option<Change<W>>
    ensures { result ≡ longer what place was is }
{
    unless(is <= was, what, place, was, is)
}

// The first change of places 1 to n.
pub fn first_of<T: Drop, F: Fn(u8) -> Option<T>>(n: u8, change: F) -> Option<T>
    requires callable { (k : ℕ) → 1 ≤ k → k ≤ n → F.pre change k }
    ensures { (d : ℕ → Option T) → ((k : ℕ) (c : Option T) → 1 ≤ k → k ≤ n → F.post change k c → c ≡ d k) → result ≡ first_of d n }
{
    for i in 0..n {
        let found = change(i + 1);
        if found.is_some() {
            return found;
        }
    }
    None
}

// The figure in place k of a list; beyond it 0.
fn in_place(list: &[u16], k: u8) -> u64
    requires { 1 ≤ k }
    ensures { result ≡ entry 0 list.now k }
{
    match list.get(k as usize - 1) {
        Some(x) => *x as u64,
        None => 0,
    }
}

// The last of places 1 to n that one of two lists reaches: beyond both they are alike.
pub fn last_place<T>(n: u8, a: &[T], b: &[T]) -> u8
    ensures { result ≡ min n (max (length a.now) (length b.now)) }
{
    usize::from(n).min(a.len().max(b.len())) as u8
}

// The first of places 1 to n at which two lists are not equal.
pub fn unlike<W: Copy>(what: W, n: u8, a: &[u16], b: &[u16]) -> Option<Change<W>>
    ensures { result ≡ unlike what n a.now b.now }
{
    first_of(
        last_place(n, a, b),
        |k|
            requires { 1 ≤ k }
        { unequal(what, k, in_place(a, k), in_place(b, k)) },
    )
}

// Task number k, which was i and is j: the same task, or with C and H raised and T shortened.
pub fn task_difference(k: u8, i: Task, j: Task) -> Option<Change<Figure>>
    ensures { result ≡ task_difference k i j }
{
    unequal(Figure::Core, k, i.core as u64, j.core as u64)
        .or_else(|| unequal(Figure::Deadline, k, i.deadline.0, j.deadline.0))
        .or_else(|| lower(Figure::Exec, k, i.exec.0, j.exec.0))
        .or_else(|| lower(Figure::Requests, k, i.requests as u64, j.requests as u64))
        .or_else(|| longer(Figure::Period, k, i.period.0, j.period.0))
}
