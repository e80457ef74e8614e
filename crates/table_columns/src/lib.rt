// The figures of an accepted table's tasks in lent columns, wherever the table stands.
#![tactic(auto)]

ghost use Rattle.std.specs.Prelude.{◌≡◌, ◌≤◌, ◌<◌, get_or};
ghost use Rattle.rules.specs.declared.Table.{Table};
ghost use Rattle.rules.specs.Tasks.{no_task};
ghost use Rattle.facts.specs.Sound.{Sound};
ghost use Rattle.groups.specs.Grouped.{PlacesBelow};
ghost use Rattle.groups.specs.Columns.{PerTask, Columns};

use counts::Grouped;
use rules::{Table, Task};

// Where the figures of an accepted table stand: in a table itself, or in the bytes of a file.
pub trait Source {
    ghost table: { Self → Table };

    fn tasks(&self) -> usize
        ensures value { result ≡ (table self.now).tasks }
        ensures few { result ≤ 32 };

    fn cores(&self) -> usize
        ensures value { result ≡ (table self.now).cores }
        ensures few { result ≤ 8 };

    fn fourth(&self) -> u8
        ensures { result ≡ (table self.now).fourth };

    fn sets(&self) -> [u16; 8]
        ensures { result ≡ (table self.now).sets };

    // The fifteen timing figures.
    fn timing(&self) -> [u16; 15]
        ensures { result ≡ (table self.now).timing };

    // The task in place i.
    fn task(&self, i: usize) -> Task
        requires { i < (table self.now).tasks }
        ensures { result ≡ get_or (table self.now).task i no_task };

    ghost sound: { (s : Self) → Sound (table s) };
}

// A table that is accepted.
#[derive(Clone, Copy)]
pub struct Checked<'a> {
    pub table: &'a Table,
    pub ghost sound: { Sound table.now },
}

impl<'a> Source for Checked<'a> {
    ghost table = { λ s. s.table.now };

    fn tasks(&self) -> usize {
        self.table.tasks as usize
    }

    fn cores(&self) -> usize {
        self.table.cores as usize
    }

    fn fourth(&self) -> u8 {
        self.table.fourth
    }

    fn sets(&self) -> [u16; 8] {
        self.table.sets
    }

    fn timing(&self) -> [u16; 15] {
        self.table.timing
    }

    fn task(&self, i: usize) -> Task {
        self.table.task[i]
    }

    ghost sound = { λ s. s.sound };
}

// Of each task its core and its latest allowed response.
pub fn per_task<S: Source>(source: &S, core: &mut [u8; 32], latest: &mut [u64; 32])
    ensures { PerTask (S.table source.now).task (S.table source.now).tasks core.new latest.new }
{
    for i in 0..source.tasks() {
        let task = source.task(i);
        core[i] = task.core;
        latest[i] = basics::latest(task);
    }
}

// T with its inverse, C and H of the tasks, in an order of their places.
pub fn columns<S: Source>(source: &S, order: &[usize; 33], tasks: &mut Grouped)
    requires { PlacesBelow (S.table source.now).tasks order.now }
    ensures columns { Columns (S.table source.now).task (S.table source.now).tasks order.now tasks.new.periods tasks.new.execs tasks.new.requests }
    ensures begins { tasks.new.begins ≡ tasks.old.begins }
{
    let n = source.tasks();
    for k in 0..n {
        let task = source.task(order[k]);
        tasks.periods[k] = task.period.0;
        tasks.execs[k] = task.exec.0;
        tasks.requests[k] = task.requests as u64;
    }
    releases::inverses(n, &tasks.periods, &mut tasks.inverses);
}
