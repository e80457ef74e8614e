// What the header of an accepted file shows: how many tasks it has, and where a task's record starts.
#![tactic(auto)]

ghost use Rattle.std.specs.Prelude.{◌≡◌};
ghost use Rattle.shown.specs.Shown.{task_count, record_place};

use places::Header;

// How many tasks a file has, 0 where it is refused.
pub fn task_count(file: &[u8]) -> usize
    ensures { result ≡ task_count file.now }
{
    if file::check(file).is_err() {
        return 0;
    }
    usize::from(Header::of(file).tasks)
}

// Where a task's record starts in the file, 0 where there is none: the position of what `view::view` shows.
pub fn record_place(file: &[u8], task: u8) -> usize
    ensures { result ≡ record_place file.now task }
{
    if view::view_refusal(file, task).is_err() {
        return 0;
    }
    let header = Header::of(file);
    places::record_at(header.form, header.cores, usize::from(task) - 1)
}
