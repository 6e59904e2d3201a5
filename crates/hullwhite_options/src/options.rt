// hullwhitemodel.rs: caplets, floorlets, bond puts and bond calls (kinds 1 to 4).
// What stands behind rule 4 has times that strictly rise, and looks its factors up by halves.
ghost use Rattle.std.specs.Prelude.{◌≡◌, true, Option};
ghost use Rattle.refusals.specs.Checks.{in_order};
ghost use Rattle.refusals.specs.Refusals.{Priced};
ghost use Rattle.refusals.specs.Faults.{curve_faults};
ghost use Rattle.hullwhite_options.specs.Options.{bond_option_at, bond_option_priced, optionlet_priced, bond_option_outcome, optionlet_outcome};
ghost use Rattle.hullwhite_options.specs.declared.options.OptionType.TheVariants as Option;

use super::rules;
use hullwhite_formulas::Optionlet;
use refusals::{Faults, Refusal};

#[derive(Clone, Copy)]
pub enum OptionType {
    Put,
    Call,
}

// A bond option's own numbers: the option's time, the bond's, and the strike.
#[derive(Clone, Copy)]
pub struct BondOption {
    pub t: f64,
    pub bond: f64,
    pub strike: f64,
}

// Kind 1.
pub fn caplet_price(
    alpha: f64,
    times: &[f64],
    factors: &[f64],
    caplet: Optionlet,
    sigma: f64,
) -> Result<f64, Refusal>
    ensures { Priced result (optionlet_outcome Option.Put alpha times.now factors.now caplet.strike caplet.start caplet.end sigma) }
{
    let curve = refusals::curve_faults(times, factors);
    optionlet_on(OptionType::Put, curve, alpha, times, factors, caplet, sigma)
}

// Kind 2.
pub fn floorlet_price(
    alpha: f64,
    times: &[f64],
    factors: &[f64],
    floorlet: Optionlet,
    sigma: f64,
) -> Result<f64, Refusal>
    ensures { Priced result (optionlet_outcome Option.Call alpha times.now factors.now floorlet.strike floorlet.start floorlet.end sigma) }
{
    let curve = refusals::curve_faults(times, factors);
    optionlet_on(
        OptionType::Call,
        curve,
        alpha,
        times,
        factors,
        floorlet,
        sigma,
    )
}

// Kind 3.
pub fn bond_put_price(
    alpha: f64,
    times: &[f64],
    factors: &[f64],
    put: BondOption,
    sigma: f64,
) -> Result<f64, Refusal>
    ensures { Priced result (bond_option_outcome Option.Put alpha times.now factors.now put.t put.bond put.strike sigma) }
{
    let curve = refusals::curve_faults(times, factors);
    bond_option_on(OptionType::Put, curve, alpha, times, factors, put, sigma)
}

// Kind 4.
pub fn bond_call_price(
    alpha: f64,
    times: &[f64],
    factors: &[f64],
    call: BondOption,
    sigma: f64,
) -> Result<f64, Refusal>
    ensures { Priced result (bond_option_outcome Option.Call alpha times.now factors.now call.t call.bond call.strike sigma) }
{
    let curve = refusals::curve_faults(times, factors);
    bond_option_on(OptionType::Call, curve, alpha, times, factors, call, sigma)
}

// The same on a curve whose faults are known: a caller has worked them on these very lists, for this call or
// once for many.
pub fn bond_option_on(
    option: OptionType,
    curve: Faults,
    alpha: f64,
    times: &[f64],
    factors: &[f64],
    bond_option: BondOption,
    sigma: f64,
) -> Result<f64, Refusal>
    requires { curve ≡ curve_faults times.now factors.now }
    ensures { Priced result (bond_option_outcome option alpha times.now factors.now bond_option.t bond_option.bond bond_option.strike sigma) }
{
    rules::option_rules(
        curve,
        alpha,
        bond_option.t,
        bond_option.bond,
        sigma,
        bond_option.strike,
    )?;
    bond_option_priced(option, alpha, times, factors, bond_option, sigma)
}

// The same of a caplet or a floorlet; a caller has worked the faults too.
pub fn optionlet_on(
    option: OptionType,
    curve: Faults,
    alpha: f64,
    times: &[f64],
    factors: &[f64],
    optionlet: Optionlet,
    sigma: f64,
) -> Result<f64, Refusal>
    requires { curve ≡ curve_faults times.now factors.now }
    ensures { Priced result (optionlet_outcome option alpha times.now factors.now optionlet.strike optionlet.start optionlet.end sigma) }
{
    rules::option_rules(
        curve,
        alpha,
        optionlet.start,
        optionlet.end,
        sigma,
        optionlet.strike,
    )?;
    optionlet_priced(option, alpha, times, factors, optionlet, sigma)
}

// A price behind the rules: a caller that has asked them has a curve whose times strictly rise. The exps need
// no factor and take longest: they come before the lookups, and the root, which waits for them, behind all that
// does not.
fn bond_option_priced(
    option: OptionType,
    alpha: f64,
    times: &[f64],
    factors: &[f64],
    bond_option: BondOption,
    sigma: f64,
) -> Result<f64, Refusal>
    requires { in_order true times.now ≡ true }
    ensures { result ≡ bond_option_priced option alpha times.now factors.now bond_option.t bond_option.bond bond_option.strike sigma }
{
    let parts = hullwhite_formulas::volatility_parts(alpha, bond_option.t, bond_option.bond);
    let Some(p_t) = curve::factor(times, factors, bond_option.t) else {
        return Err(Refusal::OffCurve);
    };
    let Some(p_bond) = curve::factor(times, factors, bond_option.bond) else {
        return Err(Refusal::OffCurve);
    };
    let strike_value = bond_option.strike * p_t;
    let moneyness = hullwhite_formulas::moneyness_of(p_bond, strike_value);
    let sigma_p = hullwhite_formulas::zcb_price_volatility_at(
        sigma,
        parts.b,
        ieee::sqrt(parts.variance),
    );
    refusals::served(put_or_call(option, sigma_p, moneyness, strike_value, p_bond))
}

// The same of a caplet or a floorlet; a caller has asked the rules too.
fn optionlet_priced(
    option: OptionType,
    alpha: f64,
    times: &[f64],
    factors: &[f64],
    optionlet: Optionlet,
    sigma: f64,
) -> Result<f64, Refusal>
    requires { in_order true times.now ≡ true }
    ensures { result ≡ optionlet_priced option alpha times.now factors.now optionlet.strike optionlet.start optionlet.end sigma }
{
    let parts = hullwhite_formulas::volatility_parts(alpha, optionlet.start, optionlet.end);
    let Some(p_t) = curve::factor(times, factors, optionlet.start) else {
        return Err(Refusal::OffCurve);
    };
    let Some(p_end) = curve::factor(times, factors, optionlet.end) else {
        return Err(Refusal::OffCurve);
    };
    let growth = hullwhite_formulas::growth_of(optionlet.end - optionlet.start, optionlet.strike);
    let strike_value = 1.0 / growth * p_t;
    let moneyness = hullwhite_formulas::moneyness_of(p_end, strike_value);
    let sigma_p = hullwhite_formulas::zcb_price_volatility_at(
        sigma,
        parts.b,
        ieee::sqrt(parts.variance),
    );
    let price = put_or_call(option, sigma_p, moneyness, strike_value, p_end);
    refusals::served(growth * price)
}

fn put_or_call(
    option: OptionType,
    sigma_p: f64,
    moneyness: f64,
    strike_value: f64,
    p_bond: f64,
) -> f64
    ensures { result ≡ bond_option_at option sigma_p moneyness strike_value p_bond }
{
    match option {
        OptionType::Put => hullwhite_formulas::bond_put_at(
            sigma_p,
            moneyness,
            strike_value,
            p_bond,
        ),
        OptionType::Call => hullwhite_formulas::bond_call_at(
            sigma_p,
            moneyness,
            strike_value,
            p_bond,
        ),
    }
}
