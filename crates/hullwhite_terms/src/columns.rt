// Each list of the terms from the lists before it, an entry for each coupon. Whoever prices or fits a
// swaption has asked rule 1: its coupons' lists are of one length, and each list it lends has that length.
ghost use Rattle.std.specs.Prelude.{◌≡◌, ℕ, ◌<◌, length, get_or};
ghost use Rattle.std.specs.Float.{nan};
ghost use Rattle.search_sum.specs.Sum.{weights_of};
ghost use Rattle.hullwhite_terms.specs.Terms.{coefficient_at, coefficients_of, bs_of, curve_parts_of, a_list_at};

// Writes each place of a lent list, by its number.
fn fill<F: Fn(usize) -> f64>(out: &mut [f64], entry: F)
    requires { (i : ℕ) → i < length out.old → F.pre entry i }
    ensures { (i : ℕ) → i < length out.old → F.post entry i (get_or out.new i nan) }
{
    for (i, x) in out.iter_mut().enumerate() {
        *x = entry(i);
    }
}

// The coefficient of one coupon: the last one's has the notional beside it.
fn coefficient(last: bool, accrual: f64, strike: f64) -> f64
    ensures { result ≡ coefficient_at last accrual strike }
{
    if last {
        ieee::fused(accrual, strike, 1.0)
    } else {
        accrual * strike
    }
}

// The coefficients of the coupons. A caller lends a place for each.
pub fn coefficients(strike: f64, accruals: &[f64], out: &mut [f64])
    requires { length out.old ≡ length accruals.now }
    ensures { out.new ≡ coefficients_of strike accruals.now }
{
    fill(
        out,
        |i| coefficient(i + 1 == accruals.len(), accruals[i], strike),
    );
}

// B from t to each payment time. A caller lends a place for each.
pub fn bs(alpha: f64, t: f64, payments: &[f64], out: &mut [f64])
    requires { length out.old ≡ length payments.now }
    ensures { out.new ≡ bs_of alpha t payments.now }
{
    fill(out, |i| hullwhite_formulas::b_of(alpha, t, payments[i]));
}

// The curve's part of each ln A. A caller has worked `bs` on the coupons whose factors it has, and
// lends a place for each.
pub fn curve_parts(forward: f64, p_t: f64, b: &[f64], p: &[f64], out: &mut [f64])
    requires { (length out.old ≡ length b.now) × (length p.now ≡ length b.now) }
    ensures { out.new ≡ curve_parts_of forward p_t b.now p.now }
{
    fill(
        out,
        |i| hullwhite_formulas::curve_part_of(b[i], forward, p_t, p[i]),
    );
}

// A of each term at a sigma, from half the state's variance for that sigma. A caller has a curve's part
// for each B, and lends a place for each A.
pub fn a_list_at(half_variance: f64, b: &[f64], curve_part: &[f64], out: &mut [f64])
    requires { (length out.old ≡ length b.now) × (length curve_part.now ≡ length b.now) }
    ensures { out.new ≡ a_list_at half_variance b.now curve_part.now }
{
    fill(
        out,
        |i| hullwhite_formulas::a_at(half_variance, b[i], curve_part[i]),
    );
}

// The weight of each term in the coupon sum, coefficient × A. A caller has an A for each coefficient, and lends
// a place for each weight.
pub fn weights(c: &[f64], a: &[f64], out: &mut [f64])
    requires { (length out.old ≡ length c.now) × (length a.now ≡ length c.now) }
    ensures { out.new ≡ weights_of c.now a.now }
{
    fill(out, |i| c[i] * a[i]);
}
