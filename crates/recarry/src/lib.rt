// A newer table file judged after an older one, from the older bounds where that is sound, into three outputs that are lent.
#![tactic(auto)]

ghost use Rattle.std.specs.Prelude.{◌≡◌, ◌≤◌};
ghost use Rattle.recarry.specs.Files.{granted_carry, refusal_carried, carry_refusal, CarriedFiles, files_worsen, table_number, carry_code};

use rejudge::about;
use rules::{CarryRefusal, Faulty};

// Which of the two, as C has it.
fn table_number(faulty: Faulty) -> u32
    ensures value { result ≡ table_number faulty }
    ensures upper_bound { result ≤ 2 }
{
    match faulty {
        Faulty::Neither => 0,
        Faulty::Older => 1,
        Faulty::Newer => 2,
    }
}

// Number, place and table in one; 0 where nothing is refused.
pub fn code(answered: Result<(), CarryRefusal>) -> u32
    ensures { result ≡ carry_code (refusal_carried answered) }
{
    match answered {
        Ok(()) => 0,
        Err(refused) => plain::code(Err(refused.refusal)) as u32
            + 65536 * table_number(refused.faulty),
    }
}

// The older file's 1 to 11, 16 and 18, then the newer's, then 255 where an output has fewer places than the newer file has tasks; or every task's answer.
// A refusal changes nothing.
pub fn carry_files(
    older: &[u8],
    newer: &[u8],
    bounds: &mut [u64],
    rounds: &mut [u64],
    by: &mut [u8],
) -> Result<(), CarryRefusal>
    ensures value { result ≡ granted_carry (carry_refusal older.now newer.now bounds.old rounds.old by.old) tt }
    ensures carried_files { CarriedFiles older.now newer.now bounds.old rounds.old by.old bounds.new rounds.new by.new }
{
    let before = about(Faulty::Older, admit_file::read(older))?;
    let after = about(Faulty::Newer, admit_file::read(newer))?;
    about(
        Faulty::Neither,
        after::store_after(before, after, bounds, rounds, by),
    )
}

// Both files may be judged, and the newer is the older one worsened: then a judgement of the newer starts from the older bounds.
pub fn worsens_files(older: &[u8], newer: &[u8]) -> bool
    ensures { result ≡ files_worsen older.now newer.now }
{
    let Ok(before) = admit_file::read(older) else {
        return false;
    };
    let Ok(after) = admit_file::read(newer) else {
        return false;
    };
    order::worsens(before, after)
}
