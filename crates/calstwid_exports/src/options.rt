// Kinds 1 to 4: caplets, floorlets, bond puts and bond calls.
ghost use Rattle.std.specs.Prelude.{◌≡◌};
ghost use Rattle.refusals.specs.Refusals.{reported_price};
ghost use Rattle.hullwhite_options.specs.Options.{optionlet_outcome, bond_option_outcome};
ghost use Rattle.hullwhite_options.specs.declared.options.OptionType.TheVariants as Option;

use hullwhite_formulas::Optionlet;
use hullwhite_options::BondOption;
use refusals::PriceReport;

// Kind 1.
#[unsafe(no_mangle)]
pub extern "C" fn calstwid_caplet_price(
    alpha: f64,
    times: &[f64],
    factors: &[f64],
    strike: f64,
    start: f64,
    end: f64,
    sigma: f64,
) -> PriceReport
    ensures { result ≡ reported_price (optionlet_outcome Option.Put alpha times.now factors.now strike start end sigma) }
{
    let caplet = Optionlet { strike, start, end };
    PriceReport::from(hullwhite_options::caplet_price(alpha, times, factors, caplet, sigma))
}

// Kind 2.
#[unsafe(no_mangle)]
pub extern "C" fn calstwid_floorlet_price(
    alpha: f64,
    times: &[f64],
    factors: &[f64],
    strike: f64,
    start: f64,
    end: f64,
    sigma: f64,
) -> PriceReport
    ensures { result ≡ reported_price (optionlet_outcome Option.Call alpha times.now factors.now strike start end sigma) }
{
    let floorlet = Optionlet { strike, start, end };
    PriceReport::from(hullwhite_options::floorlet_price(alpha, times, factors, floorlet, sigma))
}

// Kind 3.
#[unsafe(no_mangle)]
pub extern "C" fn calstwid_bond_put_price(
    alpha: f64,
    times: &[f64],
    factors: &[f64],
    t: f64,
    bond: f64,
    strike: f64,
    sigma: f64,
) -> PriceReport
    ensures { result ≡ reported_price (bond_option_outcome Option.Put alpha times.now factors.now t bond strike sigma) }
{
    let put = BondOption { t, bond, strike };
    PriceReport::from(hullwhite_options::bond_put_price(alpha, times, factors, put, sigma))
}

// Kind 4.
#[unsafe(no_mangle)]
pub extern "C" fn calstwid_bond_call_price(
    alpha: f64,
    times: &[f64],
    factors: &[f64],
    t: f64,
    bond: f64,
    strike: f64,
    sigma: f64,
) -> PriceReport
    ensures { result ≡ reported_price (bond_option_outcome Option.Call alpha times.now factors.now t bond strike sigma) }
{
    let call = BondOption { t, bond, strike };
    PriceReport::from(hullwhite_options::bond_call_price(alpha, times, factors, call, sigma))
}
