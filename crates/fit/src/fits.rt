// calibrate_to_instruments, an instrument at a time: kinds 8 to 11.
ghost use Rattle.std.specs.Prelude.{◌≡◌, true, ◌≤◌, ◌<◌, length};
ghost use Rattle.refusals.specs.Checks.{in_order};
ghost use Rattle.refusals.specs.Refusals.{reported, first_of, following};
ghost use Rattle.refusals.specs.Faults.{curve_faults};
ghost use Rattle.math_bisection.specs.Result.{no_fit, finishing_fit};
ghost use Rattle.math_bisection.specs.Solve.{solve_of};
ghost use Rattle.fit_objective.specs.Objective.{caplet_objective};
ghost use Rattle.fit_objective.specs.Ahead.{objective_on};
ghost use Rattle.fit.specs.Fits.{strike_wrong, caplet_rules, swaption_rules, caplet_fitted, caplet_fit_outcome, swaption_fitted, swaption_fit_outcome};
ghost use Rattle.fit.specs.Demand3.{CapletFitHolds, CapletFitNeverNoBracket, SwaptionFitHolds, SwaptionFitNoBracketExactly};

use fit_objective::{CapletAhead, Instrument, Objective, Quote, VolatilityType};
use hullwhite_formulas::Optionlet;
use hullwhite_terms::TermsAhead;
use math_bisection::Fit;
use refusals::{Faults, Refusal, Test};

// Kinds 8 and 9.
pub fn fit_caplet(
    quote: Quote,
    alpha: f64,
    times: &[f64],
    factors: &[f64],
    caplet: Optionlet,
) -> Result<Fit, Refusal>
    ensures answer { result ≡ caplet_fit_outcome quote.vol_type alpha times.now factors.now caplet.strike caplet.start caplet.end quote.volatility }
    ensures held { CapletFitHolds quote.vol_type alpha times.now factors.now caplet.strike caplet.start caplet.end quote.volatility result }
    ensures bracket { CapletFitNeverNoBracket quote.vol_type alpha times.now factors.now caplet.strike caplet.start caplet.end quote.volatility result }
    ensures report { reported no_fit result ≡ reported no_fit (caplet_fit_outcome quote.vol_type alpha times.now factors.now caplet.strike caplet.start caplet.end quote.volatility) }
{
    let curve = refusals::curve_faults(times, factors);
    fit_caplet_on(curve, quote, alpha, times, factors, caplet)
}

// The same on a curve whose faults are known: a caller has worked them on these very lists, for this call or
// once for many.
pub fn fit_caplet_on(
    curve: Faults,
    quote: Quote,
    alpha: f64,
    times: &[f64],
    factors: &[f64],
    caplet: Optionlet,
) -> Result<Fit, Refusal>
    requires { curve ≡ curve_faults times.now factors.now }
    ensures answer { result ≡ caplet_fit_outcome quote.vol_type alpha times.now factors.now caplet.strike caplet.start caplet.end quote.volatility }
    ensures held { CapletFitHolds quote.vol_type alpha times.now factors.now caplet.strike caplet.start caplet.end quote.volatility result }
    ensures bracket { CapletFitNeverNoBracket quote.vol_type alpha times.now factors.now caplet.strike caplet.start caplet.end quote.volatility result }
    ensures report { reported no_fit result ≡ reported no_fit (caplet_fit_outcome quote.vol_type alpha times.now factors.now caplet.strike caplet.start caplet.end quote.volatility) }
{
    caplet_rules(curve, quote, alpha, caplet)?;
    caplet_fitted(quote, alpha, times, factors, caplet)
}

// Whether a strike is one that the quote's formula cannot take.
pub fn strike_wrong(quote: VolatilityType, strike: f64) -> bool
    ensures { result ≡ strike_wrong quote strike }
{
    match quote {
        VolatilityType::Black => strike <= 0.0,
        VolatilityType::Normal => false,
    }
}

fn caplet_rules(curve: Faults, quote: Quote, alpha: f64, caplet: Optionlet) -> Result<(), Refusal>
    ensures { result ≡ first_of (caplet_rules curve quote.vol_type alpha caplet.strike caplet.start caplet.end quote.volatility) }
{
    let finite = math_elementary::is_finite(alpha)
        & math_elementary::is_finite(caplet.strike)
        & math_elementary::is_finite(caplet.start)
        & math_elementary::is_finite(caplet.end)
        & math_elementary::is_finite(quote.volatility);
    let vol_type = quote.vol_type;
    let wrong = strike_wrong(vol_type, caplet.strike);
    let times = (caplet.start <= 0.0) | (caplet.end <= caplet.start);
    let domain = (quote.volatility <= 0.0) | wrong | curve.domain;
    refusals::first_of(&[
        Refusal::Size.when(curve.size),
        Refusal::NotFinite.when(curve.not_finite | !finite),
        Refusal::MeanReversion.when(alpha <= 0.0),
        Refusal::Order.when(curve.order),
        Refusal::Times.when(times),
        Refusal::Domain.when(domain),
    ])
}

// The factors, then the bisection. A caller that has asked the rules, of this caplet or of several at once, has
// a curve whose times strictly rise.
pub fn caplet_fitted(
    quote: Quote,
    alpha: f64,
    times: &[f64],
    factors: &[f64],
    caplet: Optionlet,
) -> Result<Fit, Refusal>
    requires { in_order true times.now ≡ true }
    ensures { result ≡ caplet_fitted quote.vol_type alpha times.now factors.now caplet.strike caplet.start caplet.end quote.volatility }
{
    let Some(p_t) = curve::factor(times, factors, caplet.start) else {
        return Err(Refusal::OffCurve);
    };
    let Some(p_end) = curve::factor(times, factors, caplet.end) else {
        return Err(Refusal::OffCurve);
    };
    caplet_worked(quote, alpha, caplet, p_t, p_end)
}

// What does not depend on sigma, once; then the bisection.
fn caplet_worked(
    quote: Quote,
    alpha: f64,
    caplet: Optionlet,
    p_t: f64,
    p_end: f64,
) -> Result<Fit, Refusal>
    ensures { result ≡ following (solve_of (caplet_objective quote.vol_type alpha caplet.strike caplet.start caplet.end quote.volatility p_t p_end)) finishing_fit }
{
    let growth = hullwhite_formulas::growth_of(caplet.end - caplet.start, caplet.strike);
    let ahead = CapletAhead {
        b: hullwhite_formulas::b_of(alpha, caplet.start, caplet.end),
        deviation: hullwhite_formulas::state_deviation_of(alpha, caplet.start),
        growth,
        bond_strike: 1.0 / growth,
        p_t,
        p_end,
    };
    let price = fit_objective::caplet_market_price(quote, caplet, p_t, p_end);
    let none = [0.0; 1];
    let empty = &none[..0];
    let objective = Objective {
        instrument: Instrument::Caplet(ahead),
        market: price,
        c: empty,
        b: empty,
        curve_part: empty,
        p: empty,
    };
    let fitted = fit_solver::solve(objective);
    math_bisection::finished(fitted)
}

// Kinds 10 and 11: strike and option time; the coupons are payment times and accruals.
pub fn fit_swaption(
    quote: Quote,
    alpha: f64,
    times: &[f64],
    factors: &[f64],
    payments: &[f64],
    accruals: &[f64],
    strike: f64,
    t: f64,
) -> Result<Fit, Refusal>
    ensures answer { result ≡ swaption_fit_outcome quote.vol_type alpha times.now factors.now payments.now accruals.now strike t quote.volatility }
    ensures held { SwaptionFitHolds quote.vol_type alpha times.now factors.now payments.now accruals.now strike t quote.volatility result }
    ensures bracket { SwaptionFitNoBracketExactly quote.vol_type alpha times.now factors.now payments.now accruals.now strike t quote.volatility result }
    ensures report { reported no_fit result ≡ reported no_fit (swaption_fit_outcome quote.vol_type alpha times.now factors.now payments.now accruals.now strike t quote.volatility) }
{
    let curve = refusals::curve_faults(times, factors);
    fit_swaption_on(
        curve, quote, alpha, times, factors, payments, accruals, strike, t,
    )
}

// The same on a curve whose faults are known: a caller has worked them on these very lists, for this call or
// once for many.
pub fn fit_swaption_on(
    curve: Faults,
    quote: Quote,
    alpha: f64,
    times: &[f64],
    factors: &[f64],
    payments: &[f64],
    accruals: &[f64],
    strike: f64,
    t: f64,
) -> Result<Fit, Refusal>
    requires { curve ≡ curve_faults times.now factors.now }
    ensures answer { result ≡ swaption_fit_outcome quote.vol_type alpha times.now factors.now payments.now accruals.now strike t quote.volatility }
    ensures held { SwaptionFitHolds quote.vol_type alpha times.now factors.now payments.now accruals.now strike t quote.volatility result }
    ensures bracket { SwaptionFitNoBracketExactly quote.vol_type alpha times.now factors.now payments.now accruals.now strike t quote.volatility result }
    ensures report { reported no_fit result ≡ reported no_fit (swaption_fit_outcome quote.vol_type alpha times.now factors.now payments.now accruals.now strike t quote.volatility) }
{
    let coupons = refusals::coupon_faults(payments, accruals);
    let later = refusals::all(payments, Test::Above(t));
    let empty = payments.len() == 0;
    swaption_rules(curve, coupons, later, empty, quote, alpha, strike, t)?;
    swaption_fitted(quote, alpha, times, factors, payments, accruals, strike, t)
}

fn swaption_rules(
    curve: Faults,
    coupons: Faults,
    later: bool,
    empty: bool,
    quote: Quote,
    alpha: f64,
    strike: f64,
    t: f64,
) -> Result<(), Refusal>
    ensures { result ≡ first_of (swaption_rules curve coupons later empty quote.vol_type alpha strike t quote.volatility) }
{
    let finite = math_elementary::is_finite(alpha)
        & math_elementary::is_finite(strike)
        & math_elementary::is_finite(t)
        & math_elementary::is_finite(quote.volatility);
    let vol_type = quote.vol_type;
    let wrong = strike_wrong(vol_type, strike);
    let domain = (quote.volatility <= 0.0) | wrong | curve.domain;
    refusals::first_of(&[
        Refusal::Size.when(curve.size | coupons.size),
        Refusal::NotFinite.when(curve.not_finite | coupons.not_finite | !finite),
        Refusal::MeanReversion.when(alpha <= 0.0),
        Refusal::Order.when(curve.order),
        Refusal::Times.when((t <= 0.0) | !later),
        Refusal::Domain.when(domain),
        Refusal::Empty.when(empty),
    ])
}

// The factors and the terms, then the bisection. A caller that has asked the rules has the coupons' lists of one
// length, from 1 to 64, and a curve whose times strictly rise.
fn swaption_fitted(
    quote: Quote,
    alpha: f64,
    times: &[f64],
    factors: &[f64],
    payments: &[f64],
    accruals: &[f64],
    strike: f64,
    t: f64,
) -> Result<Fit, Refusal>
    requires { (0 < length payments.now) × (length payments.now ≤ 64) × (length accruals.now ≡ length payments.now) × (in_order true times.now ≡ true) }
    ensures { result ≡ swaption_fitted quote.vol_type alpha times.now factors.now payments.now accruals.now strike t quote.volatility }
{
    let n = payments.len();
    let mut c = [0.0; 64];
    let mut b = [0.0; 64];
    let mut p = [0.0; 64];
    let TermsAhead { p_t, forward } = hullwhite_terms::swaption_terms(
        alpha,
        times,
        factors,
        payments,
        accruals,
        strike,
        t,
        &mut c[..n],
        &mut b[..n],
        &mut p[..n],
    )?;
    let fetched = &p[..n];
    let price = fit_objective::swaption_market_price(quote, strike, t, accruals, p_t, fetched);
    terms_fitted(alpha, t, price, p_t, forward, &c[..n], &b[..n], fetched)
}

// What else does not depend on sigma, once; then the bisection. A caller that has worked the terms has the lists of
// one length of at most 64.
fn terms_fitted(
    alpha: f64,
    t: f64,
    price: f64,
    p_t: f64,
    forward: f64,
    c: &[f64],
    b: &[f64],
    p: &[f64],
) -> Result<Fit, Refusal>
    requires { (length c.now ≤ 64) × (length b.now ≡ length c.now) × (length p.now ≡ length c.now) }
    ensures { result ≡ following (solve_of (objective_on alpha t (record { pt = p_t; forward = forward; coefficients = c.now; bs = b.now; factors = p.now }) price)) finishing_fit }
{
    let n = c.len();
    let mut curve_part = [0.0; 64];
    hullwhite_terms::curve_parts(forward, p_t, b, p, &mut curve_part[..n]);
    let objective = Objective {
        instrument: Instrument::Swaption(hullwhite_jamshidian::ahead_of(alpha, t, p_t)),
        market: price,
        c,
        b,
        curve_part: &curve_part[..n],
        p,
    };
    let fitted = fit_solver::solve(objective);
    math_bisection::finished(fitted)
}
