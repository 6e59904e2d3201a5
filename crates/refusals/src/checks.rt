// A test of every number of a list, and of every step from one number to the next.
ghost use Rattle.std.specs.Prelude.{◌≡◌};
ghost use Rattle.refusals.specs.Checks.{passes_of, all_of, follows_of, in_order};

// What may be asked of each number of a list.
#[derive(Clone, Copy)]
pub enum Test {
    Finite,
    Zero,
    Above(f64),
    AtLeast(f64),
}

fn passes(test: Test, x: f64) -> bool
    ensures { result ≡ passes_of test x }
{
    match test {
        Test::Finite => math_elementary::is_finite(x),
        Test::Zero => x == 0.0,
        Test::Above(t) => t < x,
        Test::AtLeast(t) => t <= x,
    }
}

// Whether every number passes the test.
pub fn all(xs: &[f64], test: Test) -> bool
    ensures { result ≡ all_of test xs.now }
{
    for x in xs {
        if !passes(test, *x) {
            return false;
        }
    }
    true
}

// Whether x may follow the number before it.
pub fn follows(strictly: bool, before: f64, x: f64) -> bool
    ensures { result ≡ follows_of strictly before x }
{
    if strictly { before < x } else { before <= x }
}

// Whether the numbers strictly rise, or whether they never fall.
pub fn in_order(xs: &[f64], strictly: bool) -> bool
    ensures { result ≡ in_order strictly xs.now }
{
    if xs.is_empty() {
        return true;
    }
    let mut before = xs[0];
    for i in 1..xs.len() {
        let x = xs[i];
        if !follows(strictly, before, x) {
            return false;
        }
        before = x;
    }
    true
}
