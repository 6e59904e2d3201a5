// utils.rs: the market's formulas for a quoted volatility, and the annuity. Nothing is refused here.
ghost use Rattle.std.specs.Prelude.{◌≡◌};
ghost use Rattle.quotes.specs.Formulas.{quote_d1_of, quote_d2_of, black_call_of, black_put_of, bachelier_call_of, annuity_step};

pub fn quote_d1_of(fwd: f64, strike: f64, vol: f64, tau: f64) -> f64
    ensures { result ≡ quote_d1_of fwd strike vol tau }
{
    let sqrt_tau = ieee::sqrt(tau);
    ieee::fused(
        0.5 * vol,
        sqrt_tau,
        math_elementary::ln(fwd / strike) / (vol * sqrt_tau),
    )
}

pub fn quote_d2_of(vol: f64, tau: f64, d1: f64) -> f64
    ensures { result ≡ quote_d2_of vol tau d1 }
{
    ieee::fused(vol, -ieee::sqrt(tau), d1)
}

pub fn black_call_of(fwd: f64, strike: f64, vol: f64, tau: f64) -> f64
    ensures { result ≡ black_call_of fwd strike vol tau }
{
    let d1 = quote_d1_of(fwd, strike, vol, tau);
    let taken = strike * math_normal::norm_cdf(quote_d2_of(vol, tau, d1));
    ieee::fused(fwd, math_normal::norm_cdf(d1), -taken)
}

pub fn black_put_of(fwd: f64, strike: f64, vol: f64, tau: f64) -> f64
    ensures { result ≡ black_put_of fwd strike vol tau }
{
    let d1 = quote_d1_of(fwd, strike, vol, tau);
    let d2 = quote_d2_of(vol, tau, d1);
    let taken = fwd * math_normal::norm_cdf(-d1);
    ieee::fused(strike, math_normal::norm_cdf(-d2), -taken)
}

pub fn bachelier_call_of(fwd: f64, strike: f64, vol: f64, tau: f64) -> f64
    ensures { result ≡ bachelier_call_of fwd strike vol tau }
{
    let sigma_sqrt_tau = vol * ieee::sqrt(tau);
    let d = (fwd - strike) / sigma_sqrt_tau;
    let spread = sigma_sqrt_tau * math_exponential::norm_pdf(d);
    ieee::fused(fwd - strike, math_normal::norm_cdf(d), spread)
}

// One coupon more of an annuity.
pub fn annuity_step(annuity: f64, accrual: f64, factor: f64) -> f64
    ensures { result ≡ annuity_step annuity accrual factor }
{
    ieee::fused(accrual, factor, annuity)
}
