// Numbers and floats in a list of bytes, the least byte first.
ghost use Rattle.std.specs.Prelude.{◌≡◌, ◌+◌, ◌<◌, ◌≤◌, length};
ghost use Rattle.file_layout.specs.Bytes.{four_bytes, eight_bytes, float_of, float_at};

// The float at place `at`. A caller has a part or a record that lies within the list, and with it these eight
// bytes.
pub fn float_at(s: &[u8], at: usize) -> f64
    requires { at + 8 ≤ length s.now }
    ensures { result ≡ float_at s.now at }
{
    float_of(word(s, at))
}

// The float with the bits b; a NaN is a NaN whatever its pattern.
pub fn float_of(b: u64) -> f64
    ensures { result ≡ float_of b }
{
    let is_number = b % 0x8000_0000_0000_0000 <= 0x7ff0_0000_0000_0000;
    if is_number {
        f64::from_bits(b)
    } else {
        f64::NAN
    }
}

// The u64 at place `at`. A caller has a part or a record that lies within the list, and with it these eight
// bytes.
pub fn word(s: &[u8], at: usize) -> u64
    requires { at + 8 ≤ length s.now }
    ensures { result ≡ eight_bytes s.now at }
{
    u64::from_le_bytes(s[at..at + 8].try_into().unwrap())
}

// The u32 at place `at`. A caller has these four bytes in the same way.
pub fn half(s: &[u8], at: usize) -> u64
    requires { at + 4 ≤ length s.now }
    ensures upper_bound { result < 0x1_0000_0000 }
    ensures value { result ≡ four_bytes s.now at }
{
    u64::from(u32::from_le_bytes(s[at..at + 4].try_into().unwrap()))
}
