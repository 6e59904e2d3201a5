// hullwhitemodel.rs: the affine bond price and what it is made of, the drift and the forward rate.
// What stands behind rule 4 has times that strictly rise, and looks its factors up by halves.
ghost use Rattle.std.specs.Prelude.{◌≡◌, true};
ghost use Rattle.refusals.specs.Checks.{in_order};
ghost use Rattle.refusals.specs.Refusals.{Priced};
ghost use Rattle.hullwhite_model.specs.Curves.{b_outcome, zcb_price_volatility_outcome, short_rate_variance_outcome, FoundA, a_priced, a_outcome, zcb_priced, zcb_outcome, forward_priced, forward_outcome, theta_priced, theta_from, theta_outcome};

use super::rules;
use refusals::Refusal;

pub fn B(alpha: f64, t: f64, bond: f64) -> Result<f64, Refusal>
    ensures { Priced result (b_outcome alpha t bond) }
{
    hullwhite_options::option_rules(rules::no_faults(), alpha, t, bond, 0.0, 0.0)?;
    refusals::served(hullwhite_formulas::b_of(alpha, t, bond))
}

pub fn zcb_price_volatility(alpha: f64, sigma: f64, t: f64, bond: f64) -> Result<f64, Refusal>
    ensures { Priced result (zcb_price_volatility_outcome alpha sigma t bond) }
{
    hullwhite_options::option_rules(rules::no_faults(), alpha, t, bond, sigma, 0.0)?;
    refusals::served(hullwhite_formulas::zcb_price_volatility_of(alpha, sigma, t, bond))
}

pub fn short_rate_variance(alpha: f64, t: f64, bond: f64, sigma: f64) -> Result<f64, Refusal>
    ensures { Priced result (short_rate_variance_outcome alpha t bond sigma) }
{
    hullwhite_options::option_rules(rules::no_faults(), alpha, t, bond, sigma, 0.0)?;
    refusals::served(hullwhite_formulas::short_rate_variance_of(alpha, t, bond, sigma))
}

pub fn A(
    alpha: f64,
    times: &[f64],
    factors: &[f64],
    t: f64,
    bond: f64,
    sigma: f64,
) -> Result<f64, Refusal>
    ensures { Priced result (a_outcome alpha times.now factors.now t bond sigma) }
{
    let curve = refusals::curve_faults(times, factors);
    hullwhite_options::option_rules(curve, alpha, t, bond, sigma, 0.0)?;
    a_priced(alpha, times, factors, t, bond, sigma)
}

// A behind its rules: a caller that has asked them has a curve whose times strictly rise.
fn a_priced(
    alpha: f64,
    times: &[f64],
    factors: &[f64],
    t: f64,
    bond: f64,
    sigma: f64,
) -> Result<f64, Refusal>
    requires { in_order true times.now ≡ true }
    ensures { result ≡ a_priced alpha times.now factors.now t bond sigma }
{
    let b = hullwhite_formulas::b_of(alpha, t, bond);
    let Some(a) = a_found(alpha, times, factors, t, bond, sigma, b) else {
        return Err(Refusal::OffCurve);
    };
    refusals::served(a)
}

// A(t, bond), where the curve has the factors that it needs; b is B(t, bond). Whoever asks has the curve's
// times strictly rising.
fn a_found(
    alpha: f64,
    times: &[f64],
    factors: &[f64],
    t: f64,
    bond: f64,
    sigma: f64,
    b: f64,
) -> Option<f64>
    requires { in_order true times.now ≡ true }
    ensures { FoundA alpha times.now factors.now t bond sigma b result }
{
    let Some(p_t) = curve::factor(times, factors, t) else {
        return None;
    };
    let Some(p_bond) = curve::factor(times, factors, bond) else {
        return None;
    };
    let Some(p_plus) = curve::factor(times, factors, t + hullwhite_formulas::day()) else {
        return None;
    };
    let forward = hullwhite_formulas::forward_of(p_t, p_plus);
    Some(hullwhite_formulas::a_of(alpha, t, sigma, b, forward, p_t, p_bond))
}

pub fn zcb_price(
    alpha: f64,
    times: &[f64],
    factors: &[f64],
    rate: f64,
    t: f64,
    bond: f64,
    sigma: f64,
) -> Result<f64, Refusal>
    ensures { Priced result (zcb_outcome alpha times.now factors.now rate t bond sigma) }
{
    let curve = refusals::curve_faults(times, factors);
    hullwhite_options::option_rules(curve, alpha, t, bond, sigma, rate)?;
    zcb_priced(alpha, times, factors, rate, t, bond, sigma)
}

// The bond's price behind its rules: a caller that has asked them has a curve whose times strictly rise.
fn zcb_priced(
    alpha: f64,
    times: &[f64],
    factors: &[f64],
    rate: f64,
    t: f64,
    bond: f64,
    sigma: f64,
) -> Result<f64, Refusal>
    requires { in_order true times.now ≡ true }
    ensures { result ≡ zcb_priced alpha times.now factors.now rate t bond sigma }
{
    let b = hullwhite_formulas::b_of(alpha, t, bond);
    let Some(a) = a_found(alpha, times, factors, t, bond, sigma, b) else {
        return Err(Refusal::OffCurve);
    };
    refusals::served(hullwhite_formulas::zcb_price_of(a, b, rate))
}

pub fn forward_rate_from_curve(times: &[f64], factors: &[f64], t: f64) -> Result<f64, Refusal>
    ensures { Priced result (forward_outcome times.now factors.now t) }
{
    let curve = refusals::curve_faults(times, factors);
    rules::forward_rules(curve, t)?;
    forward_priced(times, factors, t)
}

// The forward rate behind its rules: a caller that has asked them has a curve whose times strictly rise.
fn forward_priced(times: &[f64], factors: &[f64], t: f64) -> Result<f64, Refusal>
    requires { in_order true times.now ≡ true }
    ensures { result ≡ forward_priced times.now factors.now t }
{
    let Some(p) = curve::factor(times, factors, t) else {
        return Err(Refusal::OffCurve);
    };
    let Some(p_plus) = curve::factor(times, factors, t + hullwhite_formulas::day()) else {
        return Err(Refusal::OffCurve);
    };
    refusals::served(hullwhite_formulas::forward_of(p, p_plus))
}

pub fn theta(alpha: f64, times: &[f64], factors: &[f64], t: f64, sigma: f64) -> Result<f64, Refusal>
    ensures { Priced result (theta_outcome alpha times.now factors.now t sigma) }
{
    let curve = refusals::curve_faults(times, factors);
    rules::theta_rules(curve, alpha, t, sigma)?;
    theta_priced(alpha, times, factors, t, sigma)
}

// The drift behind its rules: a caller that has asked them has a curve whose times strictly rise.
fn theta_priced(
    alpha: f64,
    times: &[f64],
    factors: &[f64],
    t: f64,
    sigma: f64,
) -> Result<f64, Refusal>
    requires { in_order true times.now ≡ true }
    ensures { result ≡ theta_priced alpha times.now factors.now t sigma }
{
    let Some(p) = curve::factor(times, factors, t) else {
        return Err(Refusal::OffCurve);
    };
    let Some(p_plus) = curve::factor(times, factors, t + hullwhite_formulas::day()) else {
        return Err(Refusal::OffCurve);
    };
    theta_from(alpha, times, factors, t, sigma, p, p_plus)
}

// A difference around t, or, within a day of 0, one ahead of it. A caller behind the rules has a curve whose
// times strictly rise.
fn theta_from(
    alpha: f64,
    times: &[f64],
    factors: &[f64],
    t: f64,
    sigma: f64,
    p: f64,
    p_plus: f64,
) -> Result<f64, Refusal>
    requires { in_order true times.now ≡ true }
    ensures { result ≡ theta_from alpha times.now factors.now t sigma p p_plus }
{
    let h = hullwhite_formulas::day();
    let forward = hullwhite_formulas::forward_of(p, p_plus);
    if t > h {
        let Some(p_minus) = curve::factor(times, factors, t - h) else {
            return Err(Refusal::OffCurve);
        };
        let slope = hullwhite_formulas::forward_slope_of(
            forward,
            hullwhite_formulas::forward_of(p_minus, p),
        );
        refusals::served(hullwhite_formulas::theta_of(alpha, t, sigma, forward, slope))
    } else {
        let Some(p_plus2) = curve::factor(times, factors, ieee::fused(2.0, h, t)) else {
            return Err(Refusal::OffCurve);
        };
        let slope = hullwhite_formulas::forward_slope_of(
            hullwhite_formulas::forward_of(p_plus, p_plus2),
            forward,
        );
        refusals::served(hullwhite_formulas::theta_of(alpha, t, sigma, forward, slope))
    }
}
