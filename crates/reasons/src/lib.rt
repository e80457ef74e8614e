// A short text for a refusal's number, into a lent buffer.
#![tactic(auto)]

ghost use Rattle.std.specs.Prelude.{◌≤◌, length};
ghost use Rattle.laws.specs.Idioms.{Within};
ghost use Rattle.text.specs.Put.{Given};
ghost use Rattle.reasons.specs.Reasons.{reason_text, longest_reason};

use text::give;

// Room for any of the texts.
pub const LONGEST: usize = 66;

// The text for a number, whole, and its length; where it does not fit, nothing, and 0. Every number has a text, of 1 to LONGEST bytes.
pub fn reason(number: u8, out: &mut [u8]) -> usize
    ensures given { Given (reason_text number) out.old result out.new }
    ensures within { Within 1 longest_reason (length (reason_text number)) }
{
    // 255 is the C interface's own
    if number == 255 {
        return give(b"an output is shorter than the tasks", out);
    }
    // one text, in the order of the numbers: a match would have an arm for each of them, and each arm a proof
    let texts = b"nothing is refused|\
        the file has under 46 bytes|\
        the file's length is not what its counts say|\
        the file's trailer gives another length|\
        a sum is wrong: the file's bytes were altered|\
        a count is outside its limits, or the fourth byte has unknown bits|\
        a timing figure is outside its range|\
        the timing figures contradict each other|\
        a core's set of partitions is empty or names one that is not there|\
        a task's core is not one of the table's|\
        a task's period, deadline or execution time is outside its limits|\
        a task's request count is above 1000000|\
        there is no such task|\
        a given start is above its task's deadline|\
        a given start is above what the equation gives there|\
        the output is shorter than the file|\
        a bus table's s is 0, or another of its timing figures is not 0|\
        the file ends before its core sets do, or no task record is kept|\
        the table is salvaged: tasks may be missing, so it is not judged|\
        the file is not cut: it is accepted as it is|\
        no refusal has this number";
    give(pieces::piece(texts, b'|', number), out)
}
