// utils.rs: a quoted volatility's price, Black's and Bachelier's, and the annuity over given coupons.
ghost use Rattle.std.specs.Prelude.{◌≡◌};
ghost use Rattle.refusals.specs.Refusals.{reported_price};
ghost use Rattle.quotes.specs.Utils.{d1d2_outcome, black_call_outcome, black_put_outcome, bachelier_call_outcome, annuity_outcome};
ghost use Rattle.calstwid_exports.specs.Reports.{d1_d2_report_of};

use super::reports::D1D2Report;
use refusals::PriceReport;

#[unsafe(no_mangle)]
pub extern "C" fn calstwid_d1_d2(fwd: f64, strike: f64, vol: f64, tau: f64) -> D1D2Report
    ensures { result ≡ d1_d2_report_of (d1d2_outcome fwd strike vol tau) }
{
    D1D2Report::from(quotes::d1_d2(fwd, strike, vol, tau))
}

#[unsafe(no_mangle)]
pub extern "C" fn calstwid_black_call(fwd: f64, strike: f64, vol: f64, tau: f64) -> PriceReport
    ensures { result ≡ reported_price (black_call_outcome fwd strike vol tau) }
{
    PriceReport::from(quotes::black_call(fwd, strike, vol, tau))
}

#[unsafe(no_mangle)]
pub extern "C" fn calstwid_black_put(fwd: f64, strike: f64, vol: f64, tau: f64) -> PriceReport
    ensures { result ≡ reported_price (black_put_outcome fwd strike vol tau) }
{
    PriceReport::from(quotes::black_put(fwd, strike, vol, tau))
}

#[unsafe(no_mangle)]
pub extern "C" fn calstwid_bachelier_call(fwd: f64, strike: f64, vol: f64, tau: f64) -> PriceReport
    ensures { result ≡ reported_price (bachelier_call_outcome fwd strike vol tau) }
{
    PriceReport::from(quotes::bachelier_call(fwd, strike, vol, tau))
}

#[unsafe(no_mangle)]
pub extern "C" fn calstwid_swap_annuity_from_curve(
    times: &[f64],
    factors: &[f64],
    payments: &[f64],
    accruals: &[f64],
) -> PriceReport
    ensures { result ≡ reported_price (annuity_outcome times.now factors.now payments.now accruals.now) }
{
    PriceReport::from(quotes::swap_annuity_from_curve(times, factors, payments, accruals))
}
