// Where the parts of a table file stand, and how long it is, by its header's bytes.
#![tactic(auto)]

ghost use Rattle.std.specs.Prelude.{◌≡◌, ◌+◌, ◌≤◌, length};
ghost use Rattle.rules.specs.File.{sets_at, record_size, record_at, file_length};
ghost use Rattle.places.specs.Header.{header_in};

// The four bytes that a file begins with (RULES 7.1).
#[derive(Clone, Copy)]
pub struct Header {
    pub cores: u8,
    pub partitions: u8,
    pub tasks: u8,
    pub form: u8,
}

impl Header {
    // Those of a file.
    pub fn of(file: &[u8]) -> Header
        requires { 4 ≤ length file.now }
        ensures { result ≡ header_in file.now }
    {
        Header {
            cores: file[0],
            partitions: file[1],
            tasks: file[2],
            form: file[3],
        }
    }
}

// RULES 7.1: the bytes before the sets.
pub fn sets_at(form: u8) -> usize
    ensures value { result ≡ sets_at form }
    ensures upper_bound { result ≤ 64 }
{
    34
}

// RULES 7.1: the bytes of a task's record.
pub fn record_size(form: u8) -> usize
    ensures value { result ≡ record_size form }
    ensures upper_bound { result ≤ 64 }
{
    29
}

// Where the record in place i starts, which is that of task number i + 1 (RULES 7.2).
pub fn record_at(form: u8, cores: u8, i: usize) -> usize
    requires { i ≤ 255 }
    ensures value { result ≡ record_at form cores (i + 1) }
    ensures upper_bound { result ≤ 16894 }
{
    sets_at(form) + 2 * usize::from(cores) + record_size(form) * i
}

// RULES 7.2: the trailer's 12 bytes stand where one record more would start.
pub fn file_length(form: u8, cores: u8, tasks: u8) -> usize
    ensures value { result ≡ file_length form cores tasks }
    ensures upper_bound { result ≤ 16906 }
{
    record_at(form, cores, usize::from(tasks)) + 12
}
