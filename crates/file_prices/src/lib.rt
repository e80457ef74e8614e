// An accepted table file as a place where a table's figures stand: they are read from its bytes, and no table is made.
#![tactic(auto, using(crate::proofs::InFile::known))]

ghost use Rattle.std.specs.Prelude.{◌≡◌, true};
ghost use Rattle.rules.specs.Chain.{is_accepted};
ghost use Rattle.rules.specs.File.{decode};
ghost use Rattle.rules.specs.Operations.{check_file};

use places::Header;
use rules::Task;
use table_columns::Source;

// The bytes of a file that reading accepts.
#[derive(Clone, Copy)]
pub struct Accepted<'a> {
    pub file: &'a [u8],
    pub ghost accepted: { is_accepted (check_file file.now) ≡ true },
}

impl<'a> Source for Accepted<'a> {
    ghost use Rattle.file.proofs.Reading.{file_sound};

    ghost table = { λ s. decode s.file.now };

    fn tasks(&self) -> usize {
        usize::from(Header::of(self.file).tasks)
    }

    fn cores(&self) -> usize {
        usize::from(Header::of(self.file).cores)
    }

    fn fourth(&self) -> u8 {
        Header::of(self.file).form
    }

    fn sets(&self) -> [u16; 8] {
        fields::sets_in(self.file)
    }

    fn timing(&self) -> [u16; 15] {
        fields::row_in(self.file)
    }

    fn task(&self, i: usize) -> Task {
        fields::task_at(self.file, i)
    }

    ghost sound = { λ s. file_sound s.file.now s.accepted };
}
