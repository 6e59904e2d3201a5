// The basket: up to 64 caplets, fitted one by one and bumped.
ghost use Rattle.std.specs.Prelude.{◌≡◌};
ghost use Rattle.basket.specs.Basket.{basket_of};
ghost use Rattle.basket.specs.Demand3.{BasketHolds, BasketNeverNoBracket};
ghost use Rattle.calstwid_exports.specs.Reports.{Told, basket_report_of};

use super::reports::BasketReport;

#[unsafe(no_mangle)]
pub extern "C" fn calstwid_calibrate_to_instruments(
    alpha: f64,
    times: &[f64],
    factors: &[f64],
    normals: &[bool],
    strikes: &[f64],
    starts: &[f64],
    ends: &[f64],
    vols: &[f64],
) -> BasketReport
    ensures answer { result ≡ basket_report_of (basket_of alpha times.now factors.now normals.now strikes.now starts.now ends.now vols.now) }
    ensures held { Told basket_report_of result (BasketHolds alpha times.now factors.now normals.now strikes.now starts.now ends.now vols.now) }
    ensures bracket { Told basket_report_of result BasketNeverNoBracket }
{
    BasketReport::from(basket::calibrate_to_instruments(
        alpha, times, factors, normals, strikes, starts, ends, vols,
    ))
}
