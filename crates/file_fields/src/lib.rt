// A field of a line, with the byte that ends it, at the front of a buffer.
#![tactic(auto)]

ghost use Rattle.std.specs.Prelude.{◌≡◌, ◌+◌, ◌<◌, ◌≤◌, length};
ghost use Rattle.file_fields.specs.Text.{bytes_of, Begins};
ghost use Rattle.file_fields.specs.Fields.{decimal_of, hex_in, hex_of, bits_of, ending};

// Puts n in decimal, and the byte `end`, and answers how many bytes these are. A caller that writes a line has room
// for 20 digits and the byte.
// Nearly every number printed has at most three digits: `io::decimal` takes three times as long for those.
pub fn put_decimal(n: u64, end: u8, out: &mut [u8]) -> usize
    requires { 21 ≤ length out.old }
    ensures upper_bound { result ≤ 21 }
    ensures written { Begins result (ending end (decimal_of n)) out.old out.new }
{
    match n {
        0..=9 => put(&[digit(n)], end, out),
        10..=99 => put(&[digit(n / 10), digit(n % 10)], end, out),
        100..=999 => put(
            &[digit(n / 100), digit(n / 10 % 10), digit(n % 10)],
            end,
            out,
        ),
        _ => {
            let mut text = [0u8; 20];
            let k = io::decimal(n, &mut text);
            put(&text[..k], end, out)
        }
    }
}

// A decimal digit: a caller has divided, so that d is below 10.
fn digit(d: u64) -> u8
    requires { d < 10 }
    ensures { result ≡ 48 + d }
{
    b'0' + d as u8
}

// The same with the 16 hexadecimal digits of n, the first eight and the last eight. A caller that writes a line
// has room for them and the byte.
pub fn put_hex(n: u64, end: u8, out: &mut [u8]) -> usize
    requires { 17 ≤ length out.old }
    ensures upper_bound { result ≤ 17 }
    ensures written { Begins result (ending end (hex_of n)) out.old out.new }
{
    out[..8].copy_from_slice(&spelled(n / 0x1_0000_0000).to_le_bytes());
    8 + put(&spelled(n).to_le_bytes(), end, &mut out[8..])
}

// The last eight hexadecimal digits of x as the bytes of a word, the first digit in the lowest byte, all
// worked at once. The halves of x go to lanes of 32 bits, their bytes to lanes of 16 and their digits to
// lanes of 8, the first to the lowest lane. Then each digit has 48 added, and 39 more where it is a letter:
// where 6 more bring it to 16.
// Lanes by hand: `io::hex`, which works a digit at a time, takes five times as long.
fn spelled(x: u64) -> u64
    ensures { bytes_of 8 result ≡ hex_in 8 x }
{
    let halves = ((x / 0x1_0000) & 0xffff) + (x & 0xffff) * 0x1_0000_0000;
    let bytes = ((halves / 0x100) & 0x0000_00ff_0000_00ff)
        + (halves & 0x0000_00ff_0000_00ff) * 0x1_0000;
    let digits = ((bytes / 0x10) & 0x000f_000f_000f_000f) + (bytes & 0x000f_000f_000f_000f) * 0x100;
    let letters = ((digits + 0x0606_0606_0606_0606) / 0x10) & 0x0101_0101_0101_0101;
    digits + 0x3030_3030_3030_3030 + letters * 39
}

// Puts a text, and the byte `end`, and answers how many bytes these are. A caller that writes a line has room for
// more than the text.
pub fn put(text: &[u8], end: u8, out: &mut [u8]) -> usize
    requires { length text.now < length out.old }
    ensures { Begins result (ending end text.now) out.old out.new }
{
    let n = text.len();
    out[..n].copy_from_slice(text);
    out[n] = end;
    n + 1
}

// The bits of x; every NaN has those of one.
pub fn bits_of(x: f64) -> u64
    ensures { result ≡ bits_of x }
{
    if x.is_nan() {
        0x7ff8_0000_0000_0000
    } else {
        x.to_bits()
    }
}
