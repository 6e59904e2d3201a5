// The terms of a swaption from its curve and coupons: the factors, then what needs them and no sigma.
ghost use Rattle.std.specs.Prelude.{◌≡◌, true, length};
ghost use Rattle.refusals.specs.Checks.{in_order};
ghost use Rattle.hullwhite_terms.specs.Swaption.{terms_of, terms_outcome};

use super::{columns, factors};
use refusals::Refusal;

// The factor at the option time and the forward rate there; the lists stand in those that were lent.
#[derive(Clone, Copy)]
pub struct TermsAhead {
    pub p_t: f64,
    pub forward: f64,
}

// Looks up the factor at t, at t + h and at every payment time, in this order, and works the coefficients c and the
// B b beside the factors p. A caller that has asked the rules has the coupons' lists of one length (rule 1) and the
// curve's times strictly rising (rule 4), and lends a place a coupon in each list. Beside a refusal they hold what was
// worked before it.
pub fn swaption_terms(
    alpha: f64,
    times: &[f64],
    factors: &[f64],
    payments: &[f64],
    accruals: &[f64],
    strike: f64,
    t: f64,
    c: &mut [f64],
    b: &mut [f64],
    p: &mut [f64],
) -> Result<TermsAhead, Refusal>
    requires { (in_order true times.now ≡ true) × (length accruals.now ≡ length payments.now) × (length c.old ≡ length payments.now) × (length b.old ≡ length payments.now) × (length p.old ≡ length payments.now) }
    ensures { terms_outcome result c.new b.new p.new ≡ terms_of alpha times.now factors.now payments.now accruals.now strike t }
{
    let Some(p_t) = curve::factor(times, factors, t) else {
        return Err(Refusal::OffCurve);
    };
    let Some(p_plus) = curve::factor(times, factors, t + hullwhite_formulas::day()) else {
        return Err(Refusal::OffCurve);
    };
    factors::fetch(times, factors, payments, p)?;
    columns::coefficients(strike, accruals, c);
    columns::bs(alpha, t, payments, b);
    Ok(TermsAhead {
        p_t,
        forward: hullwhite_formulas::forward_of(p_t, p_plus),
    })
}
