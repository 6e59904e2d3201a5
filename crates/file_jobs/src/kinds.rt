// The kinds of jobs: which call each is, on which of a job's fields.
ghost use Rattle.std.specs.Prelude.{◌≡◌, []};
ghost use Rattle.refusals.specs.Faults.{curve_faults};
ghost use Rattle.file_jobs.specs.Results.{request_of_lists, option_result};
ghost use Rattle.file_jobs.specs.Worked.{swaption_whole, fit_whole, work_of};

use super::results::{JobResult, Worked};
use file_layout::Job;
use fit::{Quote, VolatilityType};
use hullwhite_formulas::Optionlet;
use hullwhite_options::{BondOption, OptionType};
use pricer::{SwaptionType, Trade};
use refusals::Faults;

// Kinds 1 to 4: caplet, floorlet, bond put, bond call. What is told is all that their calls return.
// A caller that works a file's jobs has the curve's faults, worked once for all of them.
pub fn option_result(curve: Faults, alpha: f64, times: &[f64], factors: &[f64], j: Job) -> JobResult
    requires { curve ≡ curve_faults times.now factors.now }
    ensures { result ≡ option_result (request_of_lists alpha [] [] times.now factors.now [] [] [] [] [] []) j }
{
    let optionlet = Optionlet {
        strike: j.a,
        start: j.b,
        end: j.c,
    };
    let bond_option = BondOption {
        t: j.a,
        bond: j.b,
        strike: j.c,
    };
    if j.kind == 1 {
        return JobResult::from(hullwhite_options::optionlet_on(
            OptionType::Put,
            curve,
            alpha,
            times,
            factors,
            optionlet,
            j.d,
        ));
    }
    if j.kind == 2 {
        return JobResult::from(hullwhite_options::optionlet_on(
            OptionType::Call,
            curve,
            alpha,
            times,
            factors,
            optionlet,
            j.d,
        ));
    }
    if j.kind == 3 {
        return JobResult::from(hullwhite_options::bond_option_on(
            OptionType::Put,
            curve,
            alpha,
            times,
            factors,
            bond_option,
            j.d,
        ));
    }
    JobResult::from(hullwhite_options::bond_option_on(
        OptionType::Call,
        curve,
        alpha,
        times,
        factors,
        bond_option,
        j.d,
    ))
}

// Kind 5, the model's swaption; 6 and 7, payer and receiver by the pricer.
// A caller has the curve's faults, worked on these very lists.
fn swaption_work(
    curve: Faults,
    alpha: f64,
    pillars: &[f64],
    sigmas: &[f64],
    times: &[f64],
    factors: &[f64],
    payments: &[f64],
    accruals: &[f64],
    owns: &[f64],
    j: Job,
) -> Worked
    requires { curve ≡ curve_faults times.now factors.now }
    ensures { result ≡ swaption_whole (request_of_lists alpha pillars.now sigmas.now times.now factors.now payments.now accruals.now owns.now [] [] []) j }
{
    if j.kind == 5 {
        return Worked::Swaption(hullwhite_swaptions::swaption_price_on(
            curve, alpha, times, factors, payments, accruals, j.a, j.b, j.c,
        ));
    }
    if j.kind == 6 {
        let payer = Trade {
            option: SwaptionType::Payer,
            strike: j.a,
            t: j.b,
            notional: j.c,
            side: j.d,
        };
        return Worked::Valuation(pricer::swaption_value_on(
            curve, payer, alpha, pillars, sigmas, times, factors, payments, accruals, owns,
        ));
    }
    let receiver = Trade {
        option: SwaptionType::Receiver,
        strike: j.a,
        t: j.b,
        notional: j.c,
        side: j.d,
    };
    Worked::Valuation(pricer::swaption_value_on(
        curve, receiver, alpha, pillars, sigmas, times, factors, payments, accruals, owns,
    ))
}

// Kinds 8 and 9, a caplet's fit, Black and normal; 10 and 11, a swaption's.
// A caller has the curve's faults, worked on these very lists.
fn fit_work(
    curve: Faults,
    alpha: f64,
    times: &[f64],
    factors: &[f64],
    payments: &[f64],
    accruals: &[f64],
    j: Job,
) -> Worked
    requires { curve ≡ curve_faults times.now factors.now }
    ensures { result ≡ fit_whole (request_of_lists alpha [] [] times.now factors.now payments.now accruals.now [] [] [] []) j }
{
    let caplet = Optionlet {
        strike: j.a,
        start: j.b,
        end: j.c,
    };
    if j.kind == 8 {
        let quote = Quote {
            vol_type: VolatilityType::Black,
            volatility: j.d,
        };
        return Worked::Fit(fit::fit_caplet_on(curve, quote, alpha, times, factors, caplet));
    }
    if j.kind == 9 {
        let quote = Quote {
            vol_type: VolatilityType::Normal,
            volatility: j.d,
        };
        return Worked::Fit(fit::fit_caplet_on(curve, quote, alpha, times, factors, caplet));
    }
    if j.kind == 10 {
        let quote = Quote {
            vol_type: VolatilityType::Black,
            volatility: j.c,
        };
        return Worked::Fit(fit::fit_swaption_on(
            curve, quote, alpha, times, factors, payments, accruals, j.a, j.b,
        ));
    }
    let quote = Quote {
        vol_type: VolatilityType::Normal,
        volatility: j.c,
    };
    Worked::Fit(fit::fit_swaption_on(
        curve, quote, alpha, times, factors, payments, accruals, j.a, j.b,
    ))
}

// A job of kinds 5 to 11, by the call that its kind is: all that the call returns. A caller that works a file's
// jobs has the curve's faults, worked once for all of them.
pub fn work(
    curve: Faults,
    alpha: f64,
    pillars: &[f64],
    sigmas: &[f64],
    times: &[f64],
    factors: &[f64],
    payments: &[f64],
    accruals: &[f64],
    owns: &[f64],
    j: Job,
) -> Worked
    requires { curve ≡ curve_faults times.now factors.now }
    ensures { result ≡ work_of (request_of_lists alpha pillars.now sigmas.now times.now factors.now payments.now accruals.now owns.now [] [] []) j }
{
    if j.kind < 8 {
        return swaption_work(
            curve, alpha, pillars, sigmas, times, factors, payments, accruals, owns, j,
        );
    }
    fit_work(curve, alpha, times, factors, payments, accruals, j)
}
