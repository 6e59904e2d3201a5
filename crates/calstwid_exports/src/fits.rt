// Kinds 8 to 11: the volatility of a caplet or a swaption, fitted to a quote.
ghost use Rattle.std.specs.Prelude.{◌≡◌};
ghost use Rattle.fit_objective.specs.declared.market.VolatilityType.TheVariants as VolatilityType;
ghost use Rattle.fit.specs.Fits.{caplet_fit_outcome, swaption_fit_outcome};
ghost use Rattle.fit.specs.Demand3.{CapletFitHolds, CapletFitNeverNoBracket, SwaptionFitHolds, SwaptionFitNoBracketExactly};
ghost use Rattle.calstwid_exports.specs.Reports.{Told, fit_report_of};

use super::reports::FitReport;
use fit::{Quote, VolatilityType};
use hullwhite_formulas::Optionlet;

// Kind 8.
#[unsafe(no_mangle)]
pub extern "C" fn calstwid_fit_caplet_black(
    alpha: f64,
    times: &[f64],
    factors: &[f64],
    strike: f64,
    start: f64,
    end: f64,
    vol: f64,
) -> FitReport
    ensures answer { result ≡ fit_report_of (caplet_fit_outcome VolatilityType.Black alpha times.now factors.now strike start end vol) }
    ensures held { Told fit_report_of result (CapletFitHolds VolatilityType.Black alpha times.now factors.now strike start end vol) }
    ensures bracket { Told fit_report_of result (CapletFitNeverNoBracket VolatilityType.Black alpha times.now factors.now strike start end vol) }
{
    let quote = Quote {
        vol_type: VolatilityType::Black,
        volatility: vol,
    };
    let caplet = Optionlet { strike, start, end };
    FitReport::from(fit::fit_caplet(quote, alpha, times, factors, caplet))
}

// Kind 9.
#[unsafe(no_mangle)]
pub extern "C" fn calstwid_fit_caplet_normal(
    alpha: f64,
    times: &[f64],
    factors: &[f64],
    strike: f64,
    start: f64,
    end: f64,
    vol: f64,
) -> FitReport
    ensures answer { result ≡ fit_report_of (caplet_fit_outcome VolatilityType.Normal alpha times.now factors.now strike start end vol) }
    ensures held { Told fit_report_of result (CapletFitHolds VolatilityType.Normal alpha times.now factors.now strike start end vol) }
    ensures bracket { Told fit_report_of result (CapletFitNeverNoBracket VolatilityType.Normal alpha times.now factors.now strike start end vol) }
{
    let quote = Quote {
        vol_type: VolatilityType::Normal,
        volatility: vol,
    };
    let caplet = Optionlet { strike, start, end };
    FitReport::from(fit::fit_caplet(quote, alpha, times, factors, caplet))
}

// Kind 10.
#[unsafe(no_mangle)]
pub extern "C" fn calstwid_fit_swaption_black(
    alpha: f64,
    times: &[f64],
    factors: &[f64],
    payments: &[f64],
    accruals: &[f64],
    strike: f64,
    t: f64,
    vol: f64,
) -> FitReport
    ensures answer { result ≡ fit_report_of (swaption_fit_outcome VolatilityType.Black alpha times.now factors.now payments.now accruals.now strike t vol) }
    ensures held { Told fit_report_of result (SwaptionFitHolds VolatilityType.Black alpha times.now factors.now payments.now accruals.now strike t vol) }
    ensures bracket { Told fit_report_of result (SwaptionFitNoBracketExactly VolatilityType.Black alpha times.now factors.now payments.now accruals.now strike t vol) }
{
    let quote = Quote {
        vol_type: VolatilityType::Black,
        volatility: vol,
    };
    FitReport::from(fit::fit_swaption(quote, alpha, times, factors, payments, accruals, strike, t))
}

// Kind 11.
#[unsafe(no_mangle)]
pub extern "C" fn calstwid_fit_swaption_normal(
    alpha: f64,
    times: &[f64],
    factors: &[f64],
    payments: &[f64],
    accruals: &[f64],
    strike: f64,
    t: f64,
    vol: f64,
) -> FitReport
    ensures answer { result ≡ fit_report_of (swaption_fit_outcome VolatilityType.Normal alpha times.now factors.now payments.now accruals.now strike t vol) }
    ensures held { Told fit_report_of result (SwaptionFitHolds VolatilityType.Normal alpha times.now factors.now payments.now accruals.now strike t vol) }
    ensures bracket { Told fit_report_of result (SwaptionFitNoBracketExactly VolatilityType.Normal alpha times.now factors.now payments.now accruals.now strike t vol) }
{
    let quote = Quote {
        vol_type: VolatilityType::Normal,
        volatility: vol,
    };
    FitReport::from(fit::fit_swaption(quote, alpha, times, factors, payments, accruals, strike, t))
}
