// The figures and records of a file that reaches so far. What the bytes mean is in the rules, where they stand is `places`'.
#![tactic(auto)]

ghost use Rattle.std.specs.Prelude.{◌≡◌, ◌+◌, ◌*◌, ◌≤◌, ◌<◌, length};
ghost use Rattle.laws.specs.Idioms.{filled};
ghost use Rattle.rules.specs.Tasks.{task_of};
ghost use Rattle.rules.specs.File.{records_at, record_size, record_at, record_task, record_in, cores_in, tasks_in, form_in, decode};
ghost use Rattle.fields.specs.Places.{Sized, figures_in, sets_of};

use places::Header;
use rules::{Picos, Task};

// The record in place i, as a part of the file.
pub fn record_in<'a>(file: &'a [u8], i: usize) -> &'a [u8]
    requires i_bound { i ≤ 255 }
    requires file_in_bounds { record_at (form_in file.now) (cores_in file.now) (i + 1) + record_size (form_in file.now) ≤ length file.now }
    ensures { result.now ≡ record_in file.now (i + 1) }
{
    let header = Header::of(file);
    let a = places::record_at(header.form, header.cores, i);
    let e = a + places::record_size(header.form);
    &file[a..e]
}

// The task of a record.
fn task_in(part: &[u8]) -> Task
    requires { 29 ≤ length part.now }
    ensures { result ≡ record_task part.now }
{
    Task {
        core: part[0],
        exec: Picos(lent_bytes::le64(part, 1)),
        period: Picos(lent_bytes::le64(part, 9)),
        deadline: Picos(lent_bytes::le64(part, 17)),
        requests: lent_bytes::le32(part, 25),
    }
}

// The task of the record in place i.
pub fn record_task(file: &[u8], i: usize) -> Task
    requires i_bound { i ≤ 255 }
    requires file_in_bounds { record_at (form_in file.now) (cores_in file.now) (i + 1) + record_size (form_in file.now) ≤ length file.now }
    ensures { result ≡ record_task (record_in file.now (i + 1)) }
{
    task_in(record_in(file, i))
}

// The task in place i, of a file that is as long as its header says.
pub fn task_at(file: &[u8], i: usize) -> Task
    requires i_bound { i < tasks_in file.now }
    requires sized { Sized file.now }
    ensures { result ≡ task_of (decode file.now) (i + 1) }
{
    record_task(file, i)
}

// The n figures of two bytes from a place on, and 0 in the other places.
fn figures<const N: usize>(file: &[u8], at: usize, n: usize) -> [u16; N]
    requires room { n ≤ N }
    requires n_bound { n ≤ 255 }
    requires in_bounds { at + 2 * n ≤ length file.now }
    ensures { result ≡ filled N 0 (figures_in file.now at n) }
{
    let mut all = [0u16; N];
    for i in 0..n {
        all[i] = lent_bytes::le16(file, at + 2 * i);
    }
    all
}

// The 15 timing figures.
pub fn row_in(file: &[u8]) -> [u16; 15]
    requires { 34 ≤ length file.now }
    ensures { result ≡ figures_in file.now 4 15 }
{
    figures(file, 4, 15)
}

// The sets of the cores, which have room in a table.
pub fn sets_in(file: &[u8]) -> [u16; 8]
    requires file_bound { cores_in file.now ≤ 8 }
    requires file_in_bounds { records_at (form_in file.now) (cores_in file.now) ≤ length file.now }
    ensures { result ≡ sets_of file.now }
{
    let header = Header::of(file);
    figures(
        file,
        places::sets_at(header.form),
        usize::from(header.cores),
    )
}
