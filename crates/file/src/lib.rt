// Table files, read. Reading is two parts (RULES 7.4): did the file come whole, which is `arrival`'s; and its figures, which are taken out here. What the
// bytes mean is in the rules; how figures and records are read is `fields`', and what they are together `contents`'.
#![tactic(auto)]

ghost use Rattle.std.specs.Prelude.{◌≡◌, true};
ghost use Rattle.rules.specs.Chain.{is_accepted, granted};
ghost use Rattle.rules.specs.File.{check_whole, decode};
ghost use Rattle.rules.specs.Refusals.{check_tasks, check_table};
ghost use Rattle.rules.specs.Operations.{taking, reading, check_file};
ghost use Rattle.fields.specs.Places.{Sized};

use places::Header;
use rules::{Refusal, Table};

// ---- the second part: of a file that came whole. Nothing outside this crate can call these

// 9 to 11.
fn records_in(file: &[u8]) -> Result<(), Refusal>
    requires { Sized file.now }
    ensures { result ≡ granted (check_tasks (decode file.now)) tt }
{
    let header = Header::of(file);
    task_walk::check_each(header.cores, header.tasks, |k| {
        fields::task_at(file, usize::from(k) - 1)
    })
}

// 5 to 11 and 16, from the bytes: no table is made.
fn figures_refusal(file: &[u8]) -> Result<(), Refusal>
    requires { is_accepted (check_whole file.now) ≡ true }
    ensures { result ≡ granted (check_table (decode file.now)) tt }
{
    contents::board(file)?;
    records_in(file)
}

// The figures taken out: 5 to 11 and 16, then the table.
fn take(file: &[u8]) -> Result<Table, Refusal>
    requires { is_accepted (check_whole file.now) ≡ true }
    ensures { result ≡ granted (taking file.now).refusal (taking file.now).table }
{
    figures_refusal(file)?;
    let header = Header::of(file);
    Ok(contents::table(file, header.form, header.tasks))
}

// ---- the first part and then the second

// Reading.
pub fn read(file: &[u8]) -> Result<Table, Refusal>
    ensures { result ≡ granted (reading file.now).refusal (reading file.now).table }
{
    arrival::whole(file)?; // the first part
    take(file)
}

// What reading refuses, where the table is not asked for: 1 to 4, then 5 to 11 and 16.
pub fn check(file: &[u8]) -> Result<(), Refusal>
    ensures { result ≡ granted (check_file file.now) tt }
{
    arrival::whole(file)?;
    figures_refusal(file)
}
