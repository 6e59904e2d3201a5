// hullwhitemodel.rs, swaption_price (kind 5).
ghost use Rattle.std.specs.Prelude.{◌≡◌, true, ◌≤◌, length, Ok};
ghost use Rattle.refusals.specs.Checks.{in_order};
ghost use Rattle.refusals.specs.Refusals.{reported, first_of, following};
ghost use Rattle.refusals.specs.Faults.{curve_faults};
ghost use Rattle.hullwhite_jamshidian.specs.Price.{no_swaption, finishing_swaption};
ghost use Rattle.hullwhite_jamshidian.specs.Ahead.{price_on};
ghost use Rattle.hullwhite_swaptions.specs.Model.{model_rules, model_priced, model_outcome};
ghost use Rattle.hullwhite_swaptions.specs.Demand3.{ModelRootLocated, ModelNoBracketExactly};

use hullwhite_jamshidian::Swaption;
use hullwhite_terms::TermsAhead;
use refusals::{Faults, Refusal, Test};

// Kind 5: the coupons are payment times and accruals.
pub fn swaption_price(
    alpha: f64,
    times: &[f64],
    factors: &[f64],
    payments: &[f64],
    accruals: &[f64],
    strike: f64,
    t: f64,
    sigma: f64,
) -> Result<Swaption, Refusal>
    ensures answer { result ≡ model_outcome alpha times.now factors.now payments.now accruals.now strike t sigma }
    ensures rooted { ModelRootLocated alpha times.now factors.now payments.now accruals.now strike t sigma result }
    ensures bracket { ModelNoBracketExactly alpha times.now factors.now payments.now accruals.now strike t sigma result }
    ensures report { reported no_swaption result ≡ reported no_swaption (model_outcome alpha times.now factors.now payments.now accruals.now strike t sigma) }
{
    let curve = refusals::curve_faults(times, factors);
    swaption_price_on(
        curve, alpha, times, factors, payments, accruals, strike, t, sigma,
    )
}

// The same on a curve whose faults are known: a caller has worked them on these very lists, for this call or
// once for many.
pub fn swaption_price_on(
    curve: Faults,
    alpha: f64,
    times: &[f64],
    factors: &[f64],
    payments: &[f64],
    accruals: &[f64],
    strike: f64,
    t: f64,
    sigma: f64,
) -> Result<Swaption, Refusal>
    requires { curve ≡ curve_faults times.now factors.now }
    ensures answer { result ≡ model_outcome alpha times.now factors.now payments.now accruals.now strike t sigma }
    ensures rooted { ModelRootLocated alpha times.now factors.now payments.now accruals.now strike t sigma result }
    ensures bracket { ModelNoBracketExactly alpha times.now factors.now payments.now accruals.now strike t sigma result }
    ensures report { reported no_swaption result ≡ reported no_swaption (model_outcome alpha times.now factors.now payments.now accruals.now strike t sigma) }
{
    let coupons = refusals::coupon_faults(payments, accruals);
    let later = refusals::all(payments, Test::Above(t));
    model_rules(curve, coupons, later, alpha, strike, t, sigma)?;
    if payments.len() == 0 {
        // It is worth 0, and has no root.
        return Ok(Swaption::default());
    }
    model_priced(alpha, times, factors, payments, accruals, strike, t, sigma)
}

fn model_rules(
    curve: Faults,
    coupons: Faults,
    later: bool,
    alpha: f64,
    strike: f64,
    t: f64,
    sigma: f64,
) -> Result<(), Refusal>
    ensures { result ≡ first_of (model_rules curve coupons later alpha strike t sigma) }
{
    let finite = math_elementary::is_finite(alpha)
        & math_elementary::is_finite(strike)
        & math_elementary::is_finite(t)
        & math_elementary::is_finite(sigma);
    refusals::first_of(&[
        Refusal::Size.when(curve.size | coupons.size),
        Refusal::NotFinite.when(curve.not_finite | coupons.not_finite | !finite),
        Refusal::MeanReversion.when(alpha <= 0.0),
        Refusal::Order.when(curve.order),
        Refusal::Times.when((t < 0.0) | !later),
        Refusal::Domain.when((sigma < 0.0) | curve.domain),
    ])
}

// The factors and the terms, then the price. A caller that has asked the rules has the coupons' lists of one
// length of at most 64, and a curve whose times strictly rise.
fn model_priced(
    alpha: f64,
    times: &[f64],
    factors: &[f64],
    payments: &[f64],
    accruals: &[f64],
    strike: f64,
    t: f64,
    sigma: f64,
) -> Result<Swaption, Refusal>
    requires { (length payments.now ≤ 64) × (length accruals.now ≡ length payments.now) × (in_order true times.now ≡ true) }
    ensures { result ≡ model_priced alpha times.now factors.now payments.now accruals.now strike t sigma }
{
    let n = payments.len();
    let mut c = [0.0; 64];
    let mut b = [0.0; 64];
    let mut p = [0.0; 64];
    let TermsAhead { p_t, forward } = hullwhite_terms::swaption_terms(
        alpha,
        times,
        factors,
        payments,
        accruals,
        strike,
        t,
        &mut c[..n],
        &mut b[..n],
        &mut p[..n],
    )?;
    model_price_on_terms(alpha, t, sigma, p_t, forward, &c[..n], &b[..n], &p[..n])
}

// The price on the terms. A caller that has worked them has the lists of one length of at most 64.
fn model_price_on_terms(
    alpha: f64,
    t: f64,
    sigma: f64,
    p_t: f64,
    forward: f64,
    c: &[f64],
    b: &[f64],
    p: &[f64],
) -> Result<Swaption, Refusal>
    requires { (length c.now ≤ 64) × (length b.now ≡ length c.now) × (length p.now ≡ length c.now) }
    ensures { result ≡ following (price_on alpha t (record { pt = p_t; forward = forward; coefficients = c.now; bs = b.now; factors = p.now }) sigma) finishing_swaption }
{
    let n = c.len();
    let mut curve_part = [0.0; 64];
    hullwhite_terms::curve_parts(forward, p_t, b, p, &mut curve_part[..n]);
    let ahead = hullwhite_jamshidian::ahead_of(alpha, t, p_t);
    let priced = hullwhite_jamshidian::price_at(ahead, sigma, c, b, &curve_part[..n], p);
    finished(priced)
}

// Rule 13 looks at every float of the answer.
fn finished(priced: Result<Swaption, Refusal>) -> Result<Swaption, Refusal>
    ensures { result ≡ following priced finishing_swaption }
{
    let Ok(swaption) = priced else {
        return priced;
    };
    if math_elementary::is_finite(swaption.value) & swaption.root.is_finite() {
        priced
    } else {
        Err(Refusal::Overflow)
    }
}
