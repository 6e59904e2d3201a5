// hullwhitemodel.rs: the analytic formulas of the one-factor model, on factors that are already fetched.
ghost use Rattle.std.specs.Prelude.{◌≡◌};
ghost use Rattle.hullwhite_formulas.specs.HullWhite.{h, stationary_share_of, b_of, forward_of, curve_part_of, half_variance_of, a_at, a_of, zcb_price_of, state_variance_of, state_deviation_at, state_deviation_of, zcb_price_volatility_at, zcb_price_volatility_of, slope_of, theta_of, short_rate_variance_of, moneyness_of, bond_d1_at, bond_put_at, bond_put_of, bond_call_at, growth_of};

// A day, the step of every finite difference.
pub fn day() -> f64
    ensures { result ≡ h }
{
    1.0 / 365.0
}

// B(t, T).
pub fn b_of(alpha: f64, t: f64, bond: f64) -> f64
    ensures { result ≡ b_of alpha t bond }
{
    (1.0 - math_exponential::exp(-alpha * (bond - t))) / alpha
}

// 1 - exp(-2 × alpha × t): of its stationary variance, sigma²/(2 × alpha), the share that the state's
// variance has reached by t.
pub fn stationary_share_of(alpha: f64, t: f64) -> f64
    ensures { result ≡ stationary_share_of alpha t }
{
    1.0 - math_exponential::exp(-2.0 * alpha * t)
}

// The forward rate over a day, from the factors at its two ends.
pub fn forward_of(p: f64, p_plus: f64) -> f64
    ensures { result ≡ forward_of p p_plus }
{
    -math_elementary::ln(p_plus / p) / day()
}

// The curve's part of ln A(t, T), which no sigma changes, from b = B(t, T), the forward rate at t, and the
// factors at t and T.
pub fn curve_part_of(b: f64, forward: f64, p_t: f64, p_bond: f64) -> f64
    ensures { result ≡ curve_part_of b forward p_t p_bond }
{
    ieee::fused(b, forward, math_elementary::ln(p_bond / p_t))
}

// Half the variance of the state at the option time, whose share is given. It is the same for every bond.
pub fn half_variance_of(alpha: f64, sigma: f64, share: f64) -> f64
    ensures { result ≡ half_variance_of alpha sigma share }
{
    sigma * sigma / (4.0 * alpha) * share
}

// A(t, T) from its parts.
pub fn a_at(half_variance: f64, b: f64, curve_part: f64) -> f64
    ensures { result ≡ a_at half_variance b curve_part }
{
    math_exponential::exp(ieee::fused(half_variance * b, -b, curve_part))
}

// A(t, T).
pub fn a_of(alpha: f64, t: f64, sigma: f64, b: f64, forward: f64, p_t: f64, p_bond: f64) -> f64
    ensures { result ≡ a_of alpha t sigma b forward p_t p_bond }
{
    let curve_part = curve_part_of(b, forward, p_t, p_bond);
    let half_variance = half_variance_of(alpha, sigma, stationary_share_of(alpha, t));
    a_at(half_variance, b, curve_part)
}

// A bond's price at a short rate.
pub fn zcb_price_of(a: f64, b: f64, rate: f64) -> f64
    ensures { result ≡ zcb_price_of a b rate }
{
    a * math_exponential::exp(-b * rate)
}

// The deviation of the state, for a sigma of 1, from the share of its stationary variance that is reached.
pub fn state_deviation_at(alpha: f64, share: f64) -> f64
    ensures { result ≡ state_deviation_at alpha share }
{
    ieee::sqrt(share / (2.0 * alpha))
}

// The deviation of the state at the option time, for a sigma of 1.
pub fn state_deviation_of(alpha: f64, t: f64) -> f64
    ensures { result ≡ state_deviation_of alpha t }
{
    state_deviation_at(alpha, stationary_share_of(alpha, t))
}

// The volatility of a bond's price, from its parts.
pub fn zcb_price_volatility_at(sigma: f64, b: f64, deviation: f64) -> f64
    ensures { result ≡ zcb_price_volatility_at sigma b deviation }
{
    sigma * b * deviation
}

// What a bond's volatility takes from exp: B(t, T), and the variance of the state at the option time for a
// sigma of 1.
#[derive(Clone, Copy)]
pub struct VolatilityParts {
    pub b: f64,
    pub variance: f64,
}

// Both. The root waits for the variance, so its exp comes first.
pub fn volatility_parts(alpha: f64, t: f64, bond: f64) -> VolatilityParts
    ensures { (result.b ≡ b_of alpha t bond) × (result.variance ≡ state_variance_of alpha t) }
{
    let variance = stationary_share_of(alpha, t) / (2.0 * alpha);
    VolatilityParts {
        b: b_of(alpha, t, bond),
        variance,
    }
}

// The volatility of a bond's price.
pub fn zcb_price_volatility_of(alpha: f64, sigma: f64, t: f64, bond: f64) -> f64
    ensures { result ≡ zcb_price_volatility_of alpha sigma t bond }
{
    let d = volatility_parts(alpha, t, bond);
    zcb_price_volatility_at(sigma, d.b, ieee::sqrt(d.variance))
}

// The slope of the forward rate, from its values a day apart.
pub fn forward_slope_of(later: f64, earlier: f64) -> f64
    ensures { result ≡ slope_of later earlier }
{
    (later - earlier) / day()
}

// The drift of the short rate.
pub fn theta_of(alpha: f64, t: f64, sigma: f64, forward: f64, slope: f64) -> f64
    ensures { result ≡ theta_of alpha t sigma forward slope }
{
    let drift = ieee::fused(alpha, forward, slope);
    ieee::fused(
        sigma * sigma / (2.0 * alpha),
        stationary_share_of(alpha, t),
        drift,
    )
}

// The variance of the short rate at a later time.
pub fn short_rate_variance_of(alpha: f64, t: f64, bond: f64, sigma: f64) -> f64
    ensures { result ≡ short_rate_variance_of alpha t bond sigma }
{
    sigma * sigma * stationary_share_of(alpha, bond - t) / (2.0 * alpha)
}

// The logarithm of a bond's factor over what its strike is worth today.
pub fn moneyness_of(p_bond: f64, strike_value: f64) -> f64
    ensures { result ≡ moneyness_of p_bond strike_value }
{
    math_elementary::ln(p_bond / strike_value)
}

fn bond_d1(sigma_p: f64, moneyness: f64) -> f64
    ensures { result ≡ bond_d1_at sigma_p moneyness }
{
    ieee::fused(0.5 * sigma_p, sigma_p, moneyness) / sigma_p
}

// A put on a bond, from the bond's volatility, its moneyness, what its strike is worth today, and its
// factor.
pub fn bond_put_at(sigma_p: f64, moneyness: f64, strike_value: f64, p_bond: f64) -> f64
    ensures { result ≡ bond_put_at sigma_p moneyness strike_value p_bond }
{
    let d1 = bond_d1(sigma_p, moneyness);
    let d2 = d1 - sigma_p;
    let n = math_normal::norm_cdf_two(-d1, -d2);
    let taken = p_bond * n.first;
    ieee::fused(strike_value, n.second, -taken)
}

// The same from the strike and the factors at the option's and the bond's time.
pub fn bond_put_of(sigma_p: f64, strike: f64, p_t: f64, p_bond: f64) -> f64
    ensures { result ≡ bond_put_of sigma_p strike p_t p_bond }
{
    let strike_value = strike * p_t;
    let moneyness = moneyness_of(p_bond, strike_value);
    bond_put_at(sigma_p, moneyness, strike_value, p_bond)
}

// A call on a bond, as `bond_put_at`.
pub fn bond_call_at(sigma_p: f64, moneyness: f64, strike_value: f64, p_bond: f64) -> f64
    ensures { result ≡ bond_call_at sigma_p moneyness strike_value p_bond }
{
    let d1 = bond_d1(sigma_p, moneyness);
    let d2 = d1 - sigma_p;
    let n = math_normal::norm_cdf_two(d1, d2);
    let taken = strike_value * n.second;
    ieee::fused(p_bond, n.first, -taken)
}

// 1 + δ × K over an accrual period: a caplet or a floorlet is that many options on a bond, whose strike is
// 1 over it. Who wants both works it once.
pub fn growth_of(tau: f64, strike: f64) -> f64
    ensures { result ≡ growth_of tau strike }
{
    ieee::fused(tau, strike, 1.0)
}
