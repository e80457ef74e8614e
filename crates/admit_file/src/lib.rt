// What a judgement of a table file meets before any round: what reading refuses, then 18.
#![tactic(auto)]

ghost use Rattle.std.specs.Prelude.{◌≡◌};
ghost use Rattle.rules.specs.Chain.{granted};
ghost use Rattle.rules.specs.Operations.{check_to_judge, read_to_judge};

use basics::says_salvaged;
use chain::refuse_if;
use places::Header;
use rules::{Refusal, Table};

// The refusal alone.
pub fn check(file: &[u8]) -> Result<(), Refusal>
    ensures { result ≡ granted (check_to_judge file.now) tt }
{
    file::check(file)?;
    refuse_if(says_salvaged(Header::of(file).form), 18, 0)
}

// With the table, which is given only where it is to be judged.
pub fn read(file: &[u8]) -> Result<Table, Refusal>
    ensures { result ≡ granted (read_to_judge file.now).refusal (read_to_judge file.now).table }
{
    check(file)?;
    let header = Header::of(file);
    Ok(contents::table(file, header.form, header.tasks))
}
