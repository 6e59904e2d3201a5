// swaption_value: kinds 6 and 7.
ghost use Rattle.std.specs.Prelude.{◌≡◌};
ghost use Rattle.refusals.specs.Refusals.{reported, first_of};
ghost use Rattle.refusals.specs.Faults.{curve_faults};
ghost use Rattle.pricer_value.specs.Value.{no_valuation};
ghost use Rattle.pricer.specs.Pricer.{own_faults, pricer_rules, pricer_outcome};
ghost use Rattle.pricer.specs.Demand3.{PricerRootLocated, PricerNoBracketExactly};

use pricer_formulas::Trade;
use pricer_value::Valuation;
use refusals::{Faults, Refusal, Test};

// Kinds 6 (payer) and 7 (receiver). Pillars are times and sigmas, and without any the state does not move; coupons
// are payment times, accruals and own discount factors, all 0 where the curve's own serve.
pub fn swaption_value(
    trade: Trade,
    alpha: f64,
    pillars: &[f64],
    sigmas: &[f64],
    times: &[f64],
    factors: &[f64],
    payments: &[f64],
    accruals: &[f64],
    own_dfs: &[f64],
) -> Result<Valuation, Refusal>
    ensures answer { result ≡ pricer_outcome trade.option alpha pillars.now sigmas.now times.now factors.now payments.now accruals.now own_dfs.now trade.strike trade.t trade.notional trade.side }
    ensures rooted { PricerRootLocated alpha pillars.now sigmas.now times.now factors.now payments.now accruals.now own_dfs.now trade.strike trade.t trade.notional trade.side result }
    ensures bracket { PricerNoBracketExactly alpha pillars.now sigmas.now times.now factors.now payments.now accruals.now own_dfs.now trade.strike trade.t trade.notional trade.side result }
    ensures report { reported no_valuation result ≡ reported no_valuation (pricer_outcome trade.option alpha pillars.now sigmas.now times.now factors.now payments.now accruals.now own_dfs.now trade.strike trade.t trade.notional trade.side) }
{
    let curve = refusals::curve_faults(times, factors);
    swaption_value_on(
        curve, trade, alpha, pillars, sigmas, times, factors, payments, accruals, own_dfs,
    )
}

// The same on a curve whose faults are known: a caller has worked them on these very lists, for this call or
// once for many.
pub fn swaption_value_on(
    curve: Faults,
    trade: Trade,
    alpha: f64,
    pillars: &[f64],
    sigmas: &[f64],
    times: &[f64],
    factors: &[f64],
    payments: &[f64],
    accruals: &[f64],
    own_dfs: &[f64],
) -> Result<Valuation, Refusal>
    requires { curve ≡ curve_faults times.now factors.now }
    ensures answer { result ≡ pricer_outcome trade.option alpha pillars.now sigmas.now times.now factors.now payments.now accruals.now own_dfs.now trade.strike trade.t trade.notional trade.side }
    ensures rooted { PricerRootLocated alpha pillars.now sigmas.now times.now factors.now payments.now accruals.now own_dfs.now trade.strike trade.t trade.notional trade.side result }
    ensures bracket { PricerNoBracketExactly alpha pillars.now sigmas.now times.now factors.now payments.now accruals.now own_dfs.now trade.strike trade.t trade.notional trade.side result }
    ensures report { reported no_valuation result ≡ reported no_valuation (pricer_outcome trade.option alpha pillars.now sigmas.now times.now factors.now payments.now accruals.now own_dfs.now trade.strike trade.t trade.notional trade.side) }
{
    let schedule = refusals::pillar_faults(pillars, sigmas);
    let coupons = refusals::coupon_faults(payments, accruals);
    let own = own_faults(payments, own_dfs);
    let later = refusals::all(payments, Test::Above(trade.t));
    let empty = payments.len() == 0;
    pricer_rules(curve, schedule, coupons, own, later, empty, alpha, trade)?;
    pricer_value::swaption_priced(
        trade, alpha, pillars, sigmas, times, factors, payments, accruals, own_dfs,
    )
}

// Own factors beside the payments. They are all 0, or all above 0.
fn own_faults(payments: &[f64], own_dfs: &[f64]) -> Faults
    ensures { result ≡ own_faults payments.now own_dfs.now }
{
    Faults {
        size: payments.len() != own_dfs.len(),
        not_finite: !refusals::all(own_dfs, Test::Finite),
        order: false,
        domain: !(refusals::all(own_dfs, Test::Zero) | refusals::all(own_dfs, Test::Above(0.0))),
    }
}

fn pricer_rules(
    curve: Faults,
    schedule: Faults,
    coupons: Faults,
    own: Faults,
    later: bool,
    empty: bool,
    alpha: f64,
    trade: Trade,
) -> Result<(), Refusal>
    ensures { result ≡ first_of (pricer_rules curve schedule coupons own later empty alpha trade.strike trade.t trade.notional trade.side) }
{
    let finite = math_elementary::is_finite(alpha)
        & math_elementary::is_finite(trade.strike)
        & math_elementary::is_finite(trade.t)
        & math_elementary::is_finite(trade.notional)
        & math_elementary::is_finite(trade.side);
    refusals::first_of(&[
        Refusal::Size.when(curve.size | schedule.size | coupons.size | own.size),
        Refusal::NotFinite.when(
            curve.not_finite | schedule.not_finite | coupons.not_finite | own.not_finite | !finite,
        ),
        Refusal::MeanReversion.when(alpha <= 0.0),
        Refusal::Order.when(curve.order | schedule.order),
        Refusal::Times.when((trade.t < 0.0) | !later),
        Refusal::Domain.when(
            schedule.domain
                | curve.domain
                | own.domain
                | ((trade.side != 1.0) & (trade.side != -1.0)),
        ),
        Refusal::Empty.when(empty),
    ])
}
