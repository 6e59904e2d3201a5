// hullwhitemodel.rs: the model's formulas that are no kind.
ghost use Rattle.std.specs.Prelude.{◌≡◌};
ghost use Rattle.refusals.specs.Refusals.{reported_price};
ghost use Rattle.hullwhite_model.specs.Curves.{b_outcome, zcb_price_volatility_outcome, short_rate_variance_outcome, a_outcome, zcb_outcome, theta_outcome, forward_outcome};

use refusals::PriceReport;

#[unsafe(no_mangle)]
pub extern "C" fn calstwid_B(alpha: f64, t: f64, bond: f64) -> PriceReport
    ensures { result ≡ reported_price (b_outcome alpha t bond) }
{
    PriceReport::from(hullwhite_model::B(alpha, t, bond))
}

#[unsafe(no_mangle)]
pub extern "C" fn calstwid_zcb_price_volatility(
    alpha: f64,
    sigma: f64,
    t: f64,
    bond: f64,
) -> PriceReport
    ensures { result ≡ reported_price (zcb_price_volatility_outcome alpha sigma t bond) }
{
    PriceReport::from(hullwhite_model::zcb_price_volatility(alpha, sigma, t, bond))
}

#[unsafe(no_mangle)]
pub extern "C" fn calstwid_short_rate_variance(
    alpha: f64,
    t: f64,
    bond: f64,
    sigma: f64,
) -> PriceReport
    ensures { result ≡ reported_price (short_rate_variance_outcome alpha t bond sigma) }
{
    PriceReport::from(hullwhite_model::short_rate_variance(alpha, t, bond, sigma))
}

#[unsafe(no_mangle)]
pub extern "C" fn calstwid_A(
    alpha: f64,
    times: &[f64],
    factors: &[f64],
    t: f64,
    bond: f64,
    sigma: f64,
) -> PriceReport
    ensures { result ≡ reported_price (a_outcome alpha times.now factors.now t bond sigma) }
{
    PriceReport::from(hullwhite_model::A(alpha, times, factors, t, bond, sigma))
}

#[unsafe(no_mangle)]
pub extern "C" fn calstwid_zcb_price(
    alpha: f64,
    times: &[f64],
    factors: &[f64],
    rate: f64,
    t: f64,
    bond: f64,
    sigma: f64,
) -> PriceReport
    ensures { result ≡ reported_price (zcb_outcome alpha times.now factors.now rate t bond sigma) }
{
    PriceReport::from(hullwhite_model::zcb_price(alpha, times, factors, rate, t, bond, sigma))
}

#[unsafe(no_mangle)]
pub extern "C" fn calstwid_theta(
    alpha: f64,
    times: &[f64],
    factors: &[f64],
    t: f64,
    sigma: f64,
) -> PriceReport
    ensures { result ≡ reported_price (theta_outcome alpha times.now factors.now t sigma) }
{
    PriceReport::from(hullwhite_model::theta(alpha, times, factors, t, sigma))
}

#[unsafe(no_mangle)]
pub extern "C" fn calstwid_forward_rate_from_curve(
    times: &[f64],
    factors: &[f64],
    t: f64,
) -> PriceReport
    ensures { result ≡ reported_price (forward_outcome times.now factors.now t) }
{
    PriceReport::from(hullwhite_model::forward_rate_from_curve(times, factors, t))
}
