// Small steps that many crates take: the kind of a table asked for and its mark, a task's latest response, a number held to its limits.
#![tactic(auto)]

ghost use Rattle.std.specs.Prelude.{◌≡◌, not, ◌<◌};
ghost use Rattle.laws.specs.Idioms.{within};
ghost use Rattle.rules.specs.Kinds.{says_bus, says_salvaged, marked};
ghost use Rattle.rules.specs.Tasks as Tasks;

use rules::Task;

// RULES 2.1: a table with this fourth byte is a bus table.
pub fn says_bus(fourth: u8) -> bool
    ensures { result ≡ says_bus fourth }
{
    fourth % 2 == 1
}

// RULES 2.1: a table with this fourth byte is salvaged, and so is not judged.
pub fn says_salvaged(fourth: u8) -> bool
    ensures { result ≡ says_salvaged fourth }
{
    fourth / 2 % 2 == 1
}

// RULES 7.8: bit 1 set, and the other bits as they are, of a fourth byte that passes check 5.
pub fn mark_salvaged(fourth: u8) -> u8
    requires { fourth < 4 }
    ensures { result ≡ marked fourth }
{
    fourth | 2
}

// The latest allowed response of a task: the one place that takes it from the figures.
pub fn latest(task: Task) -> u64
    ensures { result ≡ Tasks.latest task }
{
    task.deadline.0
}

// Is x below the lowest or above the highest?
pub fn outside(lowest: u64, highest: u64, x: u64) -> bool
    ensures { result ≡ not (within lowest highest x) }
{
    !(lowest..=highest).contains(&x)
}
