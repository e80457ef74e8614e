// How many records of a file are kept (RULES 7.7): those before the first that the file does not reach the end of, or in which 9 to 11 find a fault.
#![tactic(auto)]

ghost use Rattle.std.specs.Prelude.{◌≡◌, ◌+◌, ◌≤◌, length};
ghost use Rattle.rules.specs.File.{records_at, cores_in, form_in};
ghost use Rattle.rules.specs.Salvage.{is_sound, kept};

use places::Header;

// Is the record in place i whole, and its task without a fault?
fn is_sound(file: &[u8], i: usize) -> bool
    requires i_bound { i ≤ 255 }
    requires file_in_bounds { records_at (form_in file.now) (cores_in file.now) ≤ length file.now }
    ensures { result ≡ is_sound file.now (i + 1) }
{
    let header = Header::of(file);
    let end = places::record_at(header.form, header.cores, i) + places::record_size(header.form);
    end <= file.len() && !task_walk::task_fault(header.cores, fields::record_task(file, i))
}

// How many are kept, of a file that reaches the end of its sets.
pub fn count(file: &[u8]) -> u8
    requires { records_at (form_in file.now) (cores_in file.now) ≤ length file.now }
    ensures { result ≡ kept file.now }
{
    let promised = Header::of(file).tasks;
    for i in 0..promised {
        if !is_sound(file, usize::from(i)) {
            return i;
        }
    }
    promised
}
