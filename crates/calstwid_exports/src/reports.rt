// What a call hands back to a program in another language: the answer's number first, 0 where the call is served, and the
// values, all 0 beside a refusal.
ghost use Rattle.std.specs.Prelude.{◌≡◌};
ghost use Rattle.refusals.specs.Refusals.{answer_number, answer_of, value_or};
ghost use Rattle.calstwid_exports.specs.Reports.{d1_d2_report_of, count_told, draws_told, critical_rate_report_of, implicit_rate_report_of, swaption_report_of, valuation_report_of, fit_report_of, basket_report_of};

use basket::Basket;
use hullwhite_swaptions::Swaption;
use math_bisection::Fit;
use pricer::Valuation;
use pricer_critical_rate::ImplicitRate;
use quotes::D1D2;
use refusals::Refusal;
use search::Root;

#[repr(C)]
#[derive(Clone, Copy)]
pub struct D1D2Report {
    pub answer: u64,
    pub d1: f64,
    pub d2: f64,
}

// How many values were written, or how many pillar times were reached.
#[repr(C)]
#[derive(Clone, Copy)]
pub struct CountReport {
    pub answer: u64,
    pub count: u64,
}

// How many values were drawn, or written from draws, and the state reached.
#[repr(C)]
#[derive(Clone, Copy)]
pub struct DrawsReport {
    pub answer: u64,
    pub count: u64,
    pub state: u64,
}

#[repr(C)]
#[derive(Clone, Copy)]
pub struct CriticalRateReport {
    pub answer: u64,
    pub rate: f64,
    pub lower: f64,
    pub upper: f64,
    pub lower_sum: f64,
    pub upper_sum: f64,
    pub lower_rung: u64,
    pub upper_rung: u64,
}

// `stepped` is the rate after the Newton step, `rate` the one before it.
#[repr(C)]
#[derive(Clone, Copy)]
pub struct ImplicitRateReport {
    pub answer: u64,
    pub stepped: f64,
    pub rate: f64,
    pub lower: f64,
    pub upper: f64,
    pub lower_sum: f64,
    pub upper_sum: f64,
    pub lower_rung: u64,
    pub upper_rung: u64,
}

#[repr(C)]
#[derive(Clone, Copy)]
pub struct SwaptionReport {
    pub answer: u64,
    pub value: f64,
    pub rate: f64,
    pub lower: f64,
    pub upper: f64,
    pub lower_sum: f64,
    pub upper_sum: f64,
    pub lower_rung: u64,
    pub upper_rung: u64,
}

#[repr(C)]
#[derive(Clone, Copy)]
pub struct ValuationReport {
    pub answer: u64,
    pub value: f64,
    pub stepped: f64,
    pub rate: f64,
    pub lower: f64,
    pub upper: f64,
    pub lower_sum: f64,
    pub upper_sum: f64,
    pub lower_rung: u64,
    pub upper_rung: u64,
}

#[repr(C)]
#[derive(Clone, Copy)]
pub struct FitReport {
    pub answer: u64,
    pub sigma: f64,
    pub residual: f64,
    pub low: f64,
    pub high: f64,
    pub low_residual: f64,
    pub high_residual: f64,
    pub halvings: u64,
    pub converged: bool,
}

// 64 places of each; those from `count` on are 0.
#[repr(C)]
#[derive(Clone, Copy)]
pub struct BasketReport {
    pub answer: u64,
    pub count: u64,
    pub sigmas: [f64; 64],
    pub statuses: [f64; 64],
    pub halvings: [f64; 64],
    pub residuals: [f64; 64],
    pub diagonal: [f64; 64],
    pub bumped_statuses: [f64; 64],
}

// The number that an outcome is told by, and its values, or those that it is to have beside a refusal: zeros.
fn told<T: Copy>(outcome: Result<T, Refusal>, zeros: T) -> (u64, T)
    ensures number { result.0 ≡ answer_number (answer_of outcome) }
    ensures values { result.1 ≡ value_or zeros outcome }
{
    match outcome {
        Ok(values) => (0, values),
        Err(refusal) => (refusal.into(), zeros),
    }
}

impl From<Result<D1D2, Refusal>> for D1D2Report {
    ghost from_gives = { λ worked report. report ≡ d1_d2_report_of worked };

    fn from(worked: Result<D1D2, Refusal>) -> D1D2Report {
        let (answer, values) = told(worked, D1D2::default());
        D1D2Report {
            answer,
            d1: values.d1,
            d2: values.d2,
        }
    }
}

pub fn count_report(answer: Result<(), Refusal>, count: u64) -> CountReport
    ensures { result ≡ count_told answer count }
{
    match answer {
        Ok(()) => CountReport { answer: 0, count },
        Err(refusal) => CountReport {
            answer: refusal.into(),
            count: 0,
        },
    }
}

pub fn draws_report(drawn: Result<u64, Refusal>, count: u64) -> DrawsReport
    ensures { result ≡ draws_told drawn count }
{
    match drawn {
        Ok(state) => DrawsReport {
            answer: 0,
            count,
            state,
        },
        Err(refusal) => DrawsReport {
            answer: refusal.into(),
            count: 0,
            state: 0,
        },
    }
}

impl From<Result<Root, Refusal>> for CriticalRateReport {
    ghost from_gives = { λ found report. report ≡ critical_rate_report_of found };

    fn from(found: Result<Root, Refusal>) -> CriticalRateReport {
        let (answer, root) = told(found, Root::default());
        let bracket = root.bracket;
        CriticalRateReport {
            answer,
            rate: root.rate,
            lower: bracket.lower,
            upper: bracket.upper,
            lower_sum: bracket.lower_sum,
            upper_sum: bracket.upper_sum,
            lower_rung: root.low_rung,
            upper_rung: root.high_rung,
        }
    }
}

impl From<Result<ImplicitRate, Refusal>> for ImplicitRateReport {
    ghost from_gives = { λ found report. report ≡ implicit_rate_report_of found };

    fn from(found: Result<ImplicitRate, Refusal>) -> ImplicitRateReport {
        let (answer, implicit) = told(found, ImplicitRate::default());
        let root = implicit.root;
        let bracket = root.bracket;
        ImplicitRateReport {
            answer,
            stepped: implicit.after_step,
            rate: root.rate,
            lower: bracket.lower,
            upper: bracket.upper,
            lower_sum: bracket.lower_sum,
            upper_sum: bracket.upper_sum,
            lower_rung: root.low_rung,
            upper_rung: root.high_rung,
        }
    }
}

impl From<Result<Swaption, Refusal>> for SwaptionReport {
    ghost from_gives = { λ priced report. report ≡ swaption_report_of priced };

    fn from(priced: Result<Swaption, Refusal>) -> SwaptionReport {
        let (answer, swaption) = told(priced, Swaption::default());
        let root = swaption.root;
        let bracket = root.bracket;
        SwaptionReport {
            answer,
            value: swaption.value,
            rate: root.rate,
            lower: bracket.lower,
            upper: bracket.upper,
            lower_sum: bracket.lower_sum,
            upper_sum: bracket.upper_sum,
            lower_rung: root.low_rung,
            upper_rung: root.high_rung,
        }
    }
}

impl From<Result<Valuation, Refusal>> for ValuationReport {
    ghost from_gives = { λ valued report. report ≡ valuation_report_of valued };

    fn from(valued: Result<Valuation, Refusal>) -> ValuationReport {
        let (answer, valuation) = told(valued, Valuation::default());
        let root = valuation.root;
        let bracket = root.bracket;
        ValuationReport {
            answer,
            value: valuation.value,
            stepped: valuation.after_step,
            rate: root.rate,
            lower: bracket.lower,
            upper: bracket.upper,
            lower_sum: bracket.lower_sum,
            upper_sum: bracket.upper_sum,
            lower_rung: root.low_rung,
            upper_rung: root.high_rung,
        }
    }
}

impl From<Result<Fit, Refusal>> for FitReport {
    ghost from_gives = { λ fitted report. report ≡ fit_report_of fitted };

    fn from(fitted: Result<Fit, Refusal>) -> FitReport {
        let (answer, fit) = told(fitted, Fit::default());
        let ends = fit.ends;
        FitReport {
            answer,
            sigma: fit.sigma,
            residual: fit.residual,
            low: ends.low,
            high: ends.high,
            low_residual: ends.low_residual,
            high_residual: ends.high_residual,
            halvings: fit.halvings,
            converged: fit.converged,
        }
    }
}

impl From<Result<Basket, Refusal>> for BasketReport {
    ghost from_gives = { λ fitted report. report ≡ basket_report_of fitted };

    fn from(fitted: Result<Basket, Refusal>) -> BasketReport {
        let (answer, basket) = told(fitted, Basket::default());
        let sigmas = basket.sigmas;
        let statuses = basket.statuses;
        let halvings = basket.halvings;
        let residuals = basket.residuals;
        let diagonal = basket.diagonal;
        let bumped_statuses = basket.bumped_statuses;
        BasketReport {
            answer,
            count: basket.count,
            sigmas,
            statuses,
            halvings,
            residuals,
            diagonal,
            bumped_statuses,
        }
    }
}
