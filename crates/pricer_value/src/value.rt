// swaption_value behind its rules: the lookups, the terms, the search, the Newton step, and the value after it.
ghost use Rattle.std.specs.Prelude.{◌≡◌, true, ◌≤◌, length};
ghost use Rattle.refusals.specs.Checks.{in_order};
ghost use Rattle.pricer_formulas.specs.Affine.{pricer_deviation_of, affine_aList_of};
ghost use Rattle.pricer_value.specs.Value.{priced_by, swaption_priced, finishing_valuation};

use hullwhite_terms::TermsAhead;
use pricer_formulas::{Decomposition, Trade};
use refusals::Refusal;
use search::{Root, Unfound};

// The value, the critical rate after the Newton step, and where the root lies: the rate before the step, the final bracket, and
// the rungs.
#[derive(Clone, Copy, Default)]
pub struct Valuation {
    pub value: f64,
    pub after_step: f64,
    pub root: Root,
}

// The factors and the terms, then the value. A caller that has asked the rules has the coupons' lists of one length
// of at most 64, and a curve whose times strictly rise.
pub fn swaption_priced(
    trade: Trade,
    alpha: f64,
    pillars: &[f64],
    sigmas: &[f64],
    times: &[f64],
    factors: &[f64],
    payments: &[f64],
    accruals: &[f64],
    own_dfs: &[f64],
) -> Result<Valuation, Refusal>
    requires { (length payments.now ≤ 64) × (length accruals.now ≡ length payments.now) × (length own_dfs.now ≡ length payments.now) × (in_order true times.now ≡ true) }
    ensures { result ≡ swaption_priced trade.option alpha pillars.now sigmas.now times.now factors.now payments.now accruals.now own_dfs.now trade.strike trade.t trade.notional trade.side }
{
    let n = payments.len();
    let mut c = [0.0; 64];
    let mut b = [0.0; 64];
    let mut p = [0.0; 64];
    let TermsAhead { p_t, forward } = hullwhite_terms::swaption_terms(
        alpha,
        times,
        factors,
        payments,
        accruals,
        trade.strike,
        trade.t,
        &mut c[..n],
        &mut b[..n],
        &mut p[..n],
    )?;
    let state_variance = hullwhite_parameters::hull_white_piecewise_variance_of(
        alpha, pillars, sigmas, 0.0, trade.t,
    );
    terms_priced(
        trade,
        state_variance,
        p_t,
        forward,
        &c[..n],
        &b[..n],
        &p[..n],
        own_dfs,
    )
}

// A of each term, then the value; the lists are of one length of at most 64.
fn terms_priced(
    trade: Trade,
    state_variance: f64,
    p_t: f64,
    forward: f64,
    c: &[f64],
    b: &[f64],
    p: &[f64],
    own_dfs: &[f64],
) -> Result<Valuation, Refusal>
    requires { (length c.now ≤ 64) × (length b.now ≡ length c.now) × (length p.now ≡ length c.now) × (length own_dfs.now ≡ length c.now) }
    ensures { result ≡ priced_by trade.option (pricer_deviation_of state_variance) p_t c.now (affine_aList_of state_variance forward p_t b.now p.now) b.now p.now own_dfs.now trade.notional trade.side }
{
    let n = c.len();
    let mut a = [0.0; 64];
    pricer_formulas::affine_a_list(state_variance, forward, p_t, b, p, &mut a[..n]);
    let deviation = pricer_formulas::pricer_deviation(state_variance);
    priced_by(trade, deviation, p_t, c, &a[..n], b, p, own_dfs)
}

// The search, the Newton step, the components. A caller that has worked the terms has the lists of one length
// of at most 64.
fn priced_by(
    trade: Trade,
    deviation: f64,
    p_t: f64,
    c: &[f64],
    a: &[f64],
    b: &[f64],
    p: &[f64],
    own_dfs: &[f64],
) -> Result<Valuation, Refusal>
    requires { (length c.now ≤ 64) × (length a.now ≡ length c.now) × (length b.now ≡ length c.now) × (length p.now ≡ length c.now) × (length own_dfs.now ≡ length c.now) }
    ensures { result ≡ priced_by trade.option deviation p_t c.now a.now b.now p.now own_dfs.now trade.notional trade.side }
{
    // Document 01 has the answer of a search taken apart by let .. else.
    let found = hullwhite_terms::find_critical_rate_of(c, a, b);
    if let Err(Unfound::NotANumber) = found {
        return Err(Refusal::NanReached);
    }
    let Ok(root) = found else {
        return Err(Refusal::NoBracket);
    };
    let after_step = pricer_formulas::implicit_critical_rate_of(root.rate, c, a, b)?;
    let option = trade.option;
    let common = Decomposition {
        option,
        deviation,
        p_t,
        rate: after_step,
    };
    let sum = pricer_formulas::components(common, c, a, b, p, own_dfs);
    let value = sum * trade.notional * trade.side;
    finished(Valuation {
        value,
        after_step,
        root,
    })
}

// Rule 13 looks at every float of the answer.
fn finished(valuation: Valuation) -> Result<Valuation, Refusal>
    ensures { result ≡ finishing_valuation valuation }
{
    let finite = math_elementary::is_finite(valuation.value)
        & math_elementary::is_finite(valuation.after_step)
        & valuation.root.is_finite();
    if finite {
        Ok(valuation)
    } else {
        Err(Refusal::Overflow)
    }
}
