// The C interface: include/ryeobadum.h. A `&[u8]` is a pointer and then a length.
#![tactic(auto)]

ghost use Rattle.std.specs.Prelude.{◌≡◌, cond};
ghost use Rattle.rules.specs.File.{check_whole};
ghost use Rattle.rules.specs.Operations.{check_file, check_view};
ghost use Rattle.rules.specs.Salvage.{salvaging, salvaged_out};
ghost use Rattle.rules.specs.Listing.{listing};
ghost use Rattle.text.specs.Put.{Given};
ghost use Rattle.plain.specs.Codes.{code_of, salvage_code};
ghost use Rattle.judged.specs.JudgedFile.{check_judged_file, JudgedFile};
ghost use Rattle.recarry.specs.Files.{carry_code, carry_refusal, CarriedFiles, files_worsen};
ghost use Rattle.reasons.specs.Reasons.{reason_text};
ghost use Rattle.shown.specs.Shown.{task_count, record_place};

// The refusal of a table file, 0 where it is accepted.
#[unsafe(no_mangle)]
pub extern "C" fn ryb_read(file: &[u8]) -> u16
    ensures { result ≡ code_of (check_file file.now) }
{
    plain::code(file::check(file))
}

// Did it come whole? The refusal where it did not, 1 to 4; else 0, whatever its figures are.
#[unsafe(no_mangle)]
pub extern "C" fn ryb_whole(file: &[u8]) -> u16
    ensures { result ≡ code_of (check_whole file.now) }
{
    plain::code(arrival::whole(file))
}

// How many tasks it has, 0 where it is refused.
#[unsafe(no_mangle)]
pub extern "C" fn ryb_tasks(file: &[u8]) -> usize
    ensures { result ≡ task_count file.now }
{
    shown::task_count(file)
}

// Reads and judges all tasks. A refusal changes nothing.
#[unsafe(no_mangle)]
pub extern "C" fn ryb_judge(
    file: &[u8],
    starts: &[u64],
    bounds: &mut [u64],
    rounds: &mut [u64],
    by: &mut [u8],
) -> u16
    ensures value { result ≡ code_of (check_judged_file file.now starts.now bounds.old rounds.old by.old) }
    ensures judged_file { JudgedFile file.now starts.now bounds.old rounds.old by.old bounds.new rounds.new by.new }
{
    plain::code(judged::judge_file(file, starts, bounds, rounds, by))
}

// The listing of a table file, whole, and its length; where it does not fit, nothing, and 0.
#[unsafe(no_mangle)]
pub extern "C" fn ryb_list(file: &[u8], out: &mut [u8]) -> usize
    ensures { Given (listing file.now) out.old result out.new }
{
    listing::list(file, out)
}

// The refusal of a task's record, 0 where it is shown.
#[unsafe(no_mangle)]
pub extern "C" fn ryb_view(file: &[u8], task: u8) -> u16
    ensures { result ≡ code_of (check_view file.now task) }
{
    plain::code(view::view_refusal(file, task))
}

// Where a task's record starts in the file, 0 where there is none.
#[unsafe(no_mangle)]
pub extern "C" fn ryb_record(file: &[u8], task: u8) -> usize
    ensures { result ≡ record_place file.now task }
{
    shown::record_place(file, task)
}

// Reads two files and judges the newer one's tasks after the older one. A refusal changes nothing.
#[unsafe(no_mangle)]
pub extern "C" fn ryb_carry(
    older: &[u8],
    newer: &[u8],
    bounds: &mut [u64],
    rounds: &mut [u64],
    by: &mut [u8],
) -> u32
    ensures value { result ≡ carry_code (carry_refusal older.now newer.now bounds.old rounds.old by.old) }
    ensures carried_files { CarriedFiles older.now newer.now bounds.old rounds.old by.old bounds.new rounds.new by.new }
{
    recarry::code(recarry::carry_files(older, newer, bounds, rounds, by))
}

// 1 where both files are accepted and the newer is the older one worsened, else 0.
#[unsafe(no_mangle)]
pub extern "C" fn ryb_worsens(older: &[u8], newer: &[u8]) -> u8
    ensures { result ≡ cond (files_worsen older.now newer.now) 1 0 }
{
    u8::from(recarry::worsens_files(older, newer))
}

// Takes back what is whole of a cut table file, as a new one. A refusal changes nothing.
#[unsafe(no_mangle)]
pub extern "C" fn ryb_salvage(file: &[u8], out: &mut [u8]) -> u64
    ensures value { result ≡ salvage_code (salvaging file.now out.old) }
    ensures out_after { out.new ≡ salvaged_out file.now out.old }
{
    salvaging::salvage_told(file, out)
}

// The words for a refusal's number, whole, and their length; where they do not fit, nothing, and 0.
#[unsafe(no_mangle)]
pub extern "C" fn ryb_reason(number: u8, out: &mut [u8]) -> usize
    ensures { Given (reason_text number) out.old result out.new }
{
    reasons::reason(number, out)
}
