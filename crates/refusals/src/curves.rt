// What each list of a request does wrong, rule by rule. A list in use is checked whole; the curve's faults can
// be worked once and carried to every call on the same curve.
ghost use Rattle.std.specs.Prelude.{◌≡◌};
ghost use Rattle.refusals.specs.Faults.{curve_faults, pillar_faults, coupon_faults, grid_faults, seeded_grid_faults};

use super::checks;
use super::checks::Test;

// Whether a list breaks rule 1, 2, 4, 6.
#[derive(Clone, Copy)]
pub struct Faults {
    pub size: bool,
    pub not_finite: bool,
    pub order: bool,
    pub domain: bool,
}

pub fn curve_faults(times: &[f64], factors: &[f64]) -> Faults
    ensures { result ≡ curve_faults times.now factors.now }
{
    Faults {
        size: (2048 < times.len()) | (times.len() != factors.len()),
        not_finite: !(checks::all(times, Test::Finite) & checks::all(factors, Test::Finite)),
        order: !checks::in_order(times, true),
        domain: !checks::all(factors, Test::Above(0.0)),
    }
}

pub fn pillar_faults(times: &[f64], sigmas: &[f64]) -> Faults
    ensures { result ≡ pillar_faults times.now sigmas.now }
{
    Faults {
        size: (64 < times.len()) | (times.len() != sigmas.len()),
        not_finite: !(checks::all(times, Test::Finite) & checks::all(sigmas, Test::Finite)),
        order: !checks::in_order(times, true),
        domain: !checks::all(sigmas, Test::AtLeast(0.0)),
    }
}

// The coupons of a swap, without own factors: payment times and accruals.
pub fn coupon_faults(payments: &[f64], accruals: &[f64]) -> Faults
    ensures { result ≡ coupon_faults payments.now accruals.now }
{
    Faults {
        size: (64 < payments.len()) | (payments.len() != accruals.len()),
        not_finite: !(checks::all(payments, Test::Finite) & checks::all(accruals, Test::Finite)),
        order: false,
        domain: false,
    }
}

pub fn grid_faults(times: &[f64], draws: &[f64]) -> Faults
    ensures { result ≡ grid_faults times.now draws.now }
{
    Faults {
        size: (1024 < times.len()) | (times.len() != draws.len()),
        not_finite: !(checks::all(times, Test::Finite) & checks::all(draws, Test::Finite)),
        order: !checks::in_order(times, false),
        domain: false,
    }
}

// The same of a grid whose draws a seed gives: its times alone.
pub fn seeded_grid_faults(times: &[f64]) -> Faults
    ensures { result ≡ seeded_grid_faults times.now }
{
    Faults {
        size: 1024 < times.len(),
        not_finite: !checks::all(times, Test::Finite),
        order: !checks::in_order(times, false),
        domain: false,
    }
}
