// A record: five words of eight bytes, the least byte first.
ghost use Rattle.std.specs.Prelude.{◌≡◌, ◌+◌, ◌≤◌, length};
ghost use Rattle.file_layout.specs.Bytes.{eight_bytes};
ghost use Rattle.test_vectors.specs.Match.{matches_of, agrees_of};

use crate::function::Function;

// The number of a function, its arguments' bits, and the bits that its result should have.
#[derive(Clone, Copy, Debug, PartialEq, Eq)]
pub struct Record {
    pub function: u64,
    pub a: u64,
    pub b: u64,
    pub c: u64,
    pub expected: u64,
}

impl Record {
    // The record that starts at index `at` of s. A caller asks for one only where 40 bytes are left.
    pub fn parsed(s: &[u8], at: usize) -> Record
        requires { at + 40 ≤ length s.now }
        ensures function { result.function ≡ eight_bytes s.now at }
        ensures arguments { (result.a ≡ eight_bytes s.now (at + 8)) × (result.b ≡ eight_bytes s.now (at + 16)) × (result.c ≡ eight_bytes s.now (at + 24)) }
        ensures expected { result.expected ≡ eight_bytes s.now (at + 32) }
    {
        Record {
            function: file_layout::word(s, at),
            a: file_layout::word(s, at + 8),
            b: file_layout::word(s, at + 16),
            c: file_layout::word(s, at + 24),
            expected: file_layout::word(s, at + 32),
        }
    }

    // Whether the function that the record names gives what the record expects. A number that no function
    // has never agrees.
    pub fn agrees(self) -> bool
        ensures { result ≡ agrees_of self.function self.a self.b self.c self.expected }
    {
        let Ok(function) = Function::try_from(self.function) else {
            return false;
        };
        let a = file_layout::float_of(self.a);
        let b = file_layout::float_of(self.b);
        let c = file_layout::float_of(self.c);
        matches(function.of(a, b, c), self.expected)
    }
}

// Whether x is what the bits expect.
fn matches(x: f64, expected: u64) -> bool
    ensures { result ≡ matches_of x expected }
{
    if x.is_nan() {
        file_layout::float_of(expected).is_nan()
    } else {
        x.to_bits() == expected
    }
}
