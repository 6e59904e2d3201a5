// Numbers of 128 bits: an exact product, and shifts to the right that leave a sticky digit for what they drop.
#![tactic(auto)]

ghost use Rattle.std.specs.Prelude.{◌≡◌, ◌+◌, ◌*◌, ◌/◌, ◌%◌, ◌^◌, ◌<◌, ◌≤◌, min};
ghost use Rattle.ieee_words.specs.Words.{jammed, Width};

// a * b.
pub fn product(a: u64, b: u64) -> u128
    ensures { result ≡ a * b }
{
    a as u128 * b as u128
}

// The upper word of v.
pub fn upper(v: u128) -> u64
    ensures { result ≡ v / 2 ^ 64 }
{
    (v >> 64) as u64
}

// The lower word of v.
pub fn lower(v: u128) -> u64
    ensures { result ≡ v % 2 ^ 64 }
{
    (v % 0x1_0000_0000_0000_0000) as u64
}

// The number whose upper word is m, and its lower word 0.
pub fn above(m: u64) -> u128
    ensures { result ≡ m * 2 ^ 64 }
{
    m as u128 * 0x1_0000_0000_0000_0000
}

// How many binary digits v has.
pub fn width(v: u128) -> u64
    ensures { Width v result }
{
    128 - v.leading_zeros() as u64
}

// v shifted right by d, with the last digit sticky: 1 where it is 1 or a digit 1 was shifted out.
pub fn jam(v: u128, d: u64) -> u128
    ensures { result ≡ jammed v (d + 1) }
{
    if d < 64 {
        jam_near(v, d)
    } else {
        let c = jam_below(v, d.min(127) - 64);
        stuck(c.left as u128, c.sticky)
    }
}

// The same, by less than a word, as a caller has tested. Word by word: of `v >> d` the compiler does not know
// that no word is shifted out whole, and would choose between the two words.
fn jam_near(v: u128, d: u64) -> u128
    requires { d < 64 }
    ensures { result ≡ jammed v (d + 1) }
{
    let high = upper(v);
    let low = lower(v);
    let kept = (high << 1 << (63 - d)) + (low >> d);
    stuck(above(high >> d) + kept as u128, low - (low >> d << d))
}

// n, with its last digit 1 where what is lost is not 0.
fn stuck(n: u128, lost: u64) -> u128
    ensures { result ≡ 2 * (n / 2) + min (n % 2 + min lost 1) 1 }
{
    if lost == 0 { n } else { n / 2 * 2 + 1 }
}

// What is left of a number that is shifted right, and the sticky digit: 1 where a digit 1 was shifted out.
#[derive(Clone, Copy, Debug, PartialEq, Eq)]
pub struct Cut {
    pub left: u64,
    pub sticky: u64,
    ghost digit: { sticky ≤ 1 },
}

// v shifted right by a word and d more. A caller shifts by less than two words.
pub fn jam_below(v: u128, d: u64) -> Cut
    requires { d < 64 }
    ensures { 2 * result.left + result.sticky ≡ jammed v (64 + d) }
{
    let high = upper(v);
    let low = lower(v);
    let left = high >> d;
    let sticky = if left << d == high { low.min(1) } else { 1 };
    Cut { left, sticky }
}
