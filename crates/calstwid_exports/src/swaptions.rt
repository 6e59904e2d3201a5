// Kinds 5 to 7: swaptions by the model and by the pricer.
ghost use Rattle.std.specs.Prelude.{◌≡◌};
ghost use Rattle.hullwhite_swaptions.specs.Model.{model_outcome};
ghost use Rattle.hullwhite_swaptions.specs.Demand3.{ModelRootLocated, ModelNoBracketExactly};
ghost use Rattle.pricer_formulas.specs.declared.bond_option.SwaptionType.TheVariants.{Payer, Receiver};
ghost use Rattle.pricer.specs.Pricer.{pricer_outcome};
ghost use Rattle.pricer.specs.Demand3.{PricerRootLocated, PricerNoBracketExactly};
ghost use Rattle.calstwid_exports.specs.Reports.{Told, swaption_report_of, valuation_report_of};

use super::reports::{SwaptionReport, ValuationReport};
use pricer::{SwaptionType, Trade};

// Kind 5.
#[unsafe(no_mangle)]
pub extern "C" fn calstwid_swaption_price(
    alpha: f64,
    times: &[f64],
    factors: &[f64],
    payments: &[f64],
    accruals: &[f64],
    strike: f64,
    t: f64,
    sigma: f64,
) -> SwaptionReport
    ensures answer { result ≡ swaption_report_of (model_outcome alpha times.now factors.now payments.now accruals.now strike t sigma) }
    ensures rooted { Told swaption_report_of result (ModelRootLocated alpha times.now factors.now payments.now accruals.now strike t sigma) }
    ensures bracket { Told swaption_report_of result (ModelNoBracketExactly alpha times.now factors.now payments.now accruals.now strike t sigma) }
{
    SwaptionReport::from(hullwhite_swaptions::swaption_price(
        alpha, times, factors, payments, accruals, strike, t, sigma,
    ))
}

// Kind 6.
#[unsafe(no_mangle)]
pub extern "C" fn calstwid_payer_swaption_value(
    alpha: f64,
    pillars: &[f64],
    sigmas: &[f64],
    times: &[f64],
    factors: &[f64],
    payments: &[f64],
    accruals: &[f64],
    own_dfs: &[f64],
    strike: f64,
    t: f64,
    notional: f64,
    side: f64,
) -> ValuationReport
    ensures answer { result ≡ valuation_report_of (pricer_outcome Payer alpha pillars.now sigmas.now times.now factors.now payments.now accruals.now own_dfs.now strike t notional side) }
    ensures rooted { Told valuation_report_of result (PricerRootLocated alpha pillars.now sigmas.now times.now factors.now payments.now accruals.now own_dfs.now strike t notional side) }
    ensures bracket { Told valuation_report_of result (PricerNoBracketExactly alpha pillars.now sigmas.now times.now factors.now payments.now accruals.now own_dfs.now strike t notional side) }
{
    let trade = Trade {
        option: SwaptionType::Payer,
        strike,
        t,
        notional,
        side,
    };
    ValuationReport::from(pricer::swaption_value(
        trade, alpha, pillars, sigmas, times, factors, payments, accruals, own_dfs,
    ))
}

// Kind 7.
#[unsafe(no_mangle)]
pub extern "C" fn calstwid_receiver_swaption_value(
    alpha: f64,
    pillars: &[f64],
    sigmas: &[f64],
    times: &[f64],
    factors: &[f64],
    payments: &[f64],
    accruals: &[f64],
    own_dfs: &[f64],
    strike: f64,
    t: f64,
    notional: f64,
    side: f64,
) -> ValuationReport
    ensures answer { result ≡ valuation_report_of (pricer_outcome Receiver alpha pillars.now sigmas.now times.now factors.now payments.now accruals.now own_dfs.now strike t notional side) }
    ensures rooted { Told valuation_report_of result (PricerRootLocated alpha pillars.now sigmas.now times.now factors.now payments.now accruals.now own_dfs.now strike t notional side) }
    ensures bracket { Told valuation_report_of result (PricerNoBracketExactly alpha pillars.now sigmas.now times.now factors.now payments.now accruals.now own_dfs.now strike t notional side) }
{
    let trade = Trade {
        option: SwaptionType::Receiver,
        strike,
        t,
        notional,
        side,
    };
    ValuationReport::from(pricer::swaption_value(
        trade, alpha, pillars, sigmas, times, factors, payments, accruals, own_dfs,
    ))
}
