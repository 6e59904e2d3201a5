// A swaption's price at a sigma, from terms that do not depend on sigma.
ghost use Rattle.std.specs.Prelude.{◌≡◌, ◌≤◌, length};
ghost use Rattle.hullwhite_jamshidian.specs.Ahead.{ahead_of, put_ahead, puts_ahead, price_ahead};

use refusals::Refusal;
use search::{Root, Unfound};

// What no sigma changes of a swaption's price, beside its lists of terms: alpha, and of the option time the
// stationary share, the state's deviation and the factor.
#[derive(Clone, Copy)]
pub struct SwaptionAhead {
    pub alpha: f64,
    pub share: f64,
    pub deviation: f64,
    pub p_t: f64,
}

// A swaption's price, and where its root lies.
#[derive(Clone, Copy, Default)]
pub struct Swaption {
    pub value: f64,
    pub root: Root,
}

// At an option time t whose factor is p_t.
pub fn ahead_of(alpha: f64, t: f64, p_t: f64) -> SwaptionAhead
    ensures { result ≡ ahead_of alpha t p_t }
{
    let share = hullwhite_formulas::stationary_share_of(alpha, t);
    SwaptionAhead {
        alpha,
        share,
        deviation: hullwhite_formulas::state_deviation_at(alpha, share),
        p_t,
    }
}

// One coupon's bond put, struck at the bond's price at the critical rate.
fn coupon_put(ahead: SwaptionAhead, sigma: f64, rate: f64, a: f64, b: f64, p: f64) -> f64
    ensures { result ≡ put_ahead ahead sigma rate a b p }
{
    let strike = hullwhite_formulas::zcb_price_of(a, b, rate);
    hullwhite_formulas::bond_put_of(
        hullwhite_formulas::zcb_price_volatility_at(sigma, b, ahead.deviation),
        strike,
        ahead.p_t,
        p,
    )
}

// The coupons' puts, each times its coefficient, fused. A caller has an A, a B and a factor for each
// coefficient.
fn puts(
    ahead: SwaptionAhead,
    sigma: f64,
    rate: f64,
    c: &[f64],
    a: &[f64],
    b: &[f64],
    p: &[f64],
) -> f64
    requires { (length a.now ≡ length c.now) × (length b.now ≡ length c.now) × (length p.now ≡ length c.now) }
    ensures { result ≡ puts_ahead ahead sigma rate c.now a.now b.now p.now }
{
    let mut total = 0.0;
    for i in 0..c.len() {
        let price = coupon_put(ahead, sigma, rate, a[i], b[i], p[i]);
        total = ieee::fused(c[i], price, total);
    }
    total
}

// The price at a sigma: A a coupon, the search, then the puts. c, b, curve_part and p are the terms' coefficients,
// B, curve's parts and factors. A caller that has asked rule 1 of the coupons has them of one length of at most 64.
pub fn price_at(
    ahead: SwaptionAhead,
    sigma: f64,
    c: &[f64],
    b: &[f64],
    curve_part: &[f64],
    p: &[f64],
) -> Result<Swaption, Refusal>
    requires { (length c.now ≤ 64) × (length b.now ≡ length c.now) × (length curve_part.now ≡ length c.now) × (length p.now ≡ length c.now) }
    ensures { result ≡ price_ahead ahead sigma c.now b.now curve_part.now p.now }
{
    let n = c.len();
    let mut a = [0.0; 64];
    let half_variance = hullwhite_formulas::half_variance_of(ahead.alpha, sigma, ahead.share);
    hullwhite_terms::a_list_at(half_variance, b, curve_part, &mut a[..n]);
    // Document 01 has the answer of a search taken apart by let .. else.
    let found = hullwhite_terms::find_critical_rate_of(c, &a[..n], b);
    if let Err(Unfound::NotANumber) = found {
        return Err(Refusal::NanReached);
    }
    let Ok(root) = found else {
        return Err(Refusal::NoBracket);
    };
    let value = puts(ahead, sigma, root.rate, c, &a[..n], b, p);
    Ok(Swaption { value, root })
}
