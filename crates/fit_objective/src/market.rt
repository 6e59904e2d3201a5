// market_price: what an instrument is worth at its quoted volatility, Black's or Bachelier's.
ghost use Rattle.std.specs.Prelude.{◌≡◌, ◌<◌, length};
ghost use Rattle.fit_objective.specs.Market.{vanilla_call_of, caplet_market_price_of, annuity_of, swaption_market_price_of};

use hullwhite_formulas::Optionlet;

// What a quoted volatility is one of.
#[derive(Clone, Copy)]
pub enum VolatilityType {
    Black,
    Normal,
}

// A quoted volatility.
#[derive(Clone, Copy)]
pub struct Quote {
    pub vol_type: VolatilityType,
    pub volatility: f64,
}

fn vanilla_call(quote: Quote, fwd: f64, strike: f64, tau: f64) -> f64
    ensures { result ≡ vanilla_call_of quote.vol_type fwd strike quote.volatility tau }
{
    let vol_type = quote.vol_type;
    match vol_type {
        VolatilityType::Black => quotes::black_call_of(fwd, strike, quote.volatility, tau),
        VolatilityType::Normal => quotes::bachelier_call_of(fwd, strike, quote.volatility, tau),
    }
}

// p_t and p_end are the factors at the caplet's start and end.
pub fn caplet_market_price(quote: Quote, caplet: Optionlet, p_t: f64, p_end: f64) -> f64
    ensures { result ≡ caplet_market_price_of quote.vol_type caplet.strike caplet.start caplet.end quote.volatility p_t p_end }
{
    let tau = caplet.end - caplet.start;
    let fwd = (p_t / p_end - 1.0) / tau;
    p_end * tau * vanilla_call(quote, fwd, caplet.strike, caplet.start)
}

// The annuity on factors that are fetched: a caller has one for each accrual. The call on a curve adds the same
// coupons by the same step, and has a loop of its own: it keeps no factors, but looks each up as it comes to it and
// is turned down where one is missing.
fn annuity(accruals: &[f64], p: &[f64]) -> f64
    requires { length p.now ≡ length accruals.now }
    ensures { result ≡ annuity_of accruals.now p.now }
{
    let mut sum = 0.0;
    for (accrual, factor) in accruals.iter().zip(p) {
        sum = quotes::annuity_step(sum, *accrual, *factor);
    }
    sum
}

// p_t is the factor at the option time, p those at the payment times; the swap ends at the last listed payment.
// A caller that has asked rules 1 and 7 has the lists of one length, and a coupon.
pub fn swaption_market_price(
    quote: Quote,
    strike: f64,
    t: f64,
    accruals: &[f64],
    p_t: f64,
    p: &[f64],
) -> f64
    requires { (length p.now ≡ length accruals.now) × (0 < length p.now) }
    ensures { result ≡ swaption_market_price_of quote.vol_type strike t quote.volatility accruals.now p_t p.now }
{
    let sum = annuity(accruals, p);
    let fwd = (p_t - p[p.len() - 1]) / sum;
    sum * vanilla_call(quote, fwd, strike, t)
}
