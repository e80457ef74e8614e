// How much of an input a program reads: the array that it reads into has its length by its type, and what stands in it tells of the whole input.
#![tactic(auto)]

ghost use Rattle.std.specs.Prelude.{◌≡◌, List, ℕ, ◌≤◌, length, take};
ghost use Rattle.input.specs.StandsFor.{StandsFor};

// The first n bytes, of a slice that is longer than any header's counts ask for.
fn front_of(s: &[u8], n: usize) -> &[u8]
    requires { 7952 ≤ length s.now }
    ensures result_value { result.now ≡ take n s.now }
    ensures by_index { (whole : List ℕ) → take (length s.now) whole ≡ result.now → StandsFor whole result.now }
{
    lent_bytes::front(s, n)
}

// The first n bytes of the array, or all where n is larger. They stand for every input of which they are the first bytes, as many as the array
// has room for: it is refused as they are, read as they are, listed as they are and salvaged as they are.
pub fn front(input: &[u8; 7952], n: usize) -> &[u8]
    ensures result_value { result.now ≡ take n input.now }
    ensures by_index { (s : List ℕ) → take (length input.now) s ≡ result.now → StandsFor s result.now }
{
    front_of(input, n)
}
