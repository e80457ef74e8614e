// How a program that lists a file ends: the number that it gives to whoever started it.
#![tactic(auto)]

ghost use Rattle.std.specs.Prelude.{◌≡◌, cond, ◌≤◌};
ghost use Rattle.status.specs.Status.{all_hold, file_status};

use places::Header;
use rules::Answer;

// Of a file's answers: 0 where every task holds, 1 where one misses.
fn of_answers(tasks: u8, answers: [Answer; 32]) -> u8
    requires { tasks ≤ 32 }
    ensures { result ≡ cond (all_hold tasks answers) 0 1 }
{
    let n = tasks as usize;
    for i in 0..n {
        if misses::is_miss(answers[i].verdict) {
            return 1;
        }
    }
    0
}

// 0 where a file may be judged and every task holds, 1 where a task misses, 2 where it is refused.
pub fn of_file(file: &[u8]) -> u8
    ensures { result ≡ file_status file.now }
{
    if admit_file::check(file).is_err() {
        return 2;
    }
    let answers = verdicts::judge_accepted(file, [0; 32]).unwrap();
    of_answers(Header::of(file).tasks, answers)
}
