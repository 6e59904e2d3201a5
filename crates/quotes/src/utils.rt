// utils.rs: a quoted volatility's price, Black's and Bachelier's, and the annuity over given coupons.
ghost use Rattle.std.specs.Prelude.{◌≡◌, true};
ghost use Rattle.refusals.specs.Checks.{in_order};
ghost use Rattle.refusals.specs.Refusals.{Priced, reported};
ghost use Rattle.quotes.specs.Utils.{no_d1_d2, d1d2_worked, d1d2_outcome, black_call_outcome, black_put_outcome, bachelier_call_outcome, annuity_priced, annuity_outcome};

use super::{quoted, rules};
use refusals::Refusal;

// The values of a call with two of them.
#[derive(Clone, Copy, Default)]
pub struct D1D2 {
    pub d1: f64,
    pub d2: f64,
}

pub fn d1_d2(fwd: f64, strike: f64, vol: f64, tau: f64) -> Result<D1D2, Refusal>
    ensures answer { result ≡ d1d2_outcome fwd strike vol tau }
    ensures report { reported no_d1_d2 result ≡ reported no_d1_d2 (d1d2_outcome fwd strike vol tau) }
{
    rules::quote_rules(true, fwd, strike, vol, tau)?;
    d1_d2_worked(fwd, strike, vol, tau)
}

fn d1_d2_worked(fwd: f64, strike: f64, vol: f64, tau: f64) -> Result<D1D2, Refusal>
    ensures { result ≡ d1d2_worked fwd strike vol tau }
{
    let d1 = quoted::quote_d1_of(fwd, strike, vol, tau);
    let d2 = quoted::quote_d2_of(vol, tau, d1);
    if math_elementary::is_finite(d1) & math_elementary::is_finite(d2) {
        Ok(D1D2 { d1, d2 })
    } else {
        Err(Refusal::Overflow)
    }
}

pub fn black_call(fwd: f64, strike: f64, vol: f64, tau: f64) -> Result<f64, Refusal>
    ensures { Priced result (black_call_outcome fwd strike vol tau) }
{
    rules::quote_rules(true, fwd, strike, vol, tau)?;
    refusals::served(quoted::black_call_of(fwd, strike, vol, tau))
}

pub fn black_put(fwd: f64, strike: f64, vol: f64, tau: f64) -> Result<f64, Refusal>
    ensures { Priced result (black_put_outcome fwd strike vol tau) }
{
    rules::quote_rules(true, fwd, strike, vol, tau)?;
    refusals::served(quoted::black_put_of(fwd, strike, vol, tau))
}

pub fn bachelier_call(fwd: f64, strike: f64, vol: f64, tau: f64) -> Result<f64, Refusal>
    ensures { Priced result (bachelier_call_outcome fwd strike vol tau) }
{
    rules::quote_rules(false, fwd, strike, vol, tau)?;
    refusals::served(quoted::bachelier_call_of(fwd, strike, vol, tau))
}

// The annuity of the coupons listed: payment times and accruals.
pub fn swap_annuity_from_curve(
    times: &[f64],
    factors: &[f64],
    payments: &[f64],
    accruals: &[f64],
) -> Result<f64, Refusal>
    ensures { Priced result (annuity_outcome times.now factors.now payments.now accruals.now) }
{
    let curve = refusals::curve_faults(times, factors);
    let coupons = refusals::coupon_faults(payments, accruals);
    rules::annuity_rules(curve, coupons)?;
    annuity_priced(times, factors, payments, accruals)
}

// The annuity behind its rules: a caller that has asked rule 4 has times that strictly rise, so each factor is
// looked up by halves.
fn annuity_priced(
    times: &[f64],
    factors: &[f64],
    payments: &[f64],
    accruals: &[f64],
) -> Result<f64, Refusal>
    requires { in_order true times.now ≡ true }
    ensures { result ≡ annuity_priced times.now factors.now payments.now accruals.now }
{
    let mut sum = 0.0;
    for (payment, accrual) in payments.iter().zip(accruals) {
        let Some(p) = curve::factor(times, factors, *payment) else {
            return Err(Refusal::OffCurve);
        };
        sum = quoted::annuity_step(sum, *accrual, p);
    }
    refusals::served(sum)
}
