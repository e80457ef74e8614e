// The listing (RULES 8): its bytes for a table with its answers, and for a table file, into a lent buffer.
#![tactic(auto)]

ghost use Rattle.std.specs.Prelude.{◌≡◌, true, ◌≤◌, length, replicate};
ghost use Rattle.rules.specs.Chain.{is_accepted};
ghost use Rattle.rules.specs.Refusals.{check_judged};
ghost use Rattle.rules.specs.Operations.{judge_all};
ghost use Rattle.rules.specs.Listing.{table_lines, listing, table_text, refused_line};
ghost use Rattle.text.specs.Put.{Put, Given};

use misses::{first_miss, put_last};
use receipt::refused;
use rows::put_rows;
use rules::{Answer, Table};
use text::{give, put_word};

// The lines of a table, which take at most 34 bytes, 100 a task and 32.
fn put_table(buf: &mut [u8], t: Table, answers: [Answer; 32]) -> usize
    requires tasks_bound { t.tasks ≤ 32 }
    requires in_bounds { 3266 ≤ length buf.old }
    ensures put { Put buf.old 0 (table_lines t answers) result buf.new }
    ensures upper_bound { result ≤ 3266 }
{
    let n = t.tasks as usize;
    let head = put_word(buf, 0, b"task core verdict bound by rounds\n");
    let end = put_rows(buf, head, t, answers);
    put_last(buf, end, first_miss(n, answers))
}

// The lines of a table that may be judged, as `lines` gives them.
fn accepted_lines(t: Table, answers: [Answer; 32], out: &mut [u8]) -> usize
    requires { is_accepted (check_judged t) ≡ true }
    ensures given { Given (table_lines t answers) out.old result out.new }
    ensures answers_len_bound { length (table_lines t answers) ≤ 3266 }
{
    let mut made = [0u8; 3266];
    let n = put_table(&mut made, t, answers);
    give(&made[..n], out)
}

// The lines of a table with its answers, or the line of its refusal, whole, and their length; where they do not fit, nothing, and 0.
// A buffer of 3266 bytes has room for any.
pub fn lines(t: Table, answers: [Answer; 32], out: &mut [u8]) -> usize
    ensures given { Given (table_text t answers) out.old result out.new }
    ensures answers_len_bound { length (table_text t answers) ≤ 3266 }
{
    match admit::table(t) {
        Ok(()) => accepted_lines(t, answers, out),
        Err(refusal) => refused(refusal.number, out),
    }
}

// A table that was read to judge it, judged from nothing: no such start is refused. It is not checked again.
fn list_table(t: Table, out: &mut [u8]) -> usize
    requires { is_accepted (check_judged t) ≡ true }
    ensures given { Given (table_lines t (judge_all t (replicate 32 0)).answers) out.old result out.new }
    ensures replicate_len_bound { length (table_lines t (judge_all t (replicate 32 0)).answers) ≤ 3266 }
{
    let answers = columns::judge_tasks(t, [0u64; 32]).unwrap();
    accepted_lines(t, answers, out)
}

// The listing of a table file, whole, and its length; where it does not fit, nothing, and 0.
pub fn list(file: &[u8], out: &mut [u8]) -> usize
    ensures given { Given (listing file.now) out.old result out.new }
    ensures file_len_bound { length (listing file.now) ≤ 3266 }
{
    match admit_file::read(file) {
        Ok(table) => list_table(table, out),
        Err(refusal) => refused(refusal.number, out),
    }
}
