// What a job is worked to, and what is told of it: document 01's number, the value or +0, and the note.
ghost use Rattle.std.specs.Prelude.{◌≡◌, Err};
ghost use Rattle.file_jobs.specs.Results.{result_of_price, result_of_fit, model_value, pricer_value, note_of};
ghost use Rattle.file_jobs.specs.Worked.{result_from};

use hullwhite_jamshidian::Swaption;
use math_bisection::Fit;
use pricer_value::Valuation;
use refusals::Refusal;

// All that a job's call returns, of kind 5, 6 and 7, and 8 to 11.
#[derive(Clone, Copy)]
pub enum Worked {
    Swaption(Result<Swaption, Refusal>),
    Valuation(Result<Valuation, Refusal>),
    Fit(Result<Fit, Refusal>),
}

#[derive(Clone, Copy)]
pub struct JobResult {
    pub answer: u64,
    pub value: f64,
    pub note: u64,
}

// A refused job of any kind has the value +0.
fn turned_down(refusal: Refusal) -> JobResult
    ensures { result ≡ result_of_price (Err refusal) }
{
    JobResult {
        answer: refusal.into(),
        value: 0.0,
        note: 0,
    }
}

impl From<Result<f64, Refusal>> for JobResult {
    ghost from_gives = { λ price told. told ≡ result_of_price price };

    fn from(price: Result<f64, Refusal>) -> JobResult {
        match price {
            Ok(value) => JobResult {
                answer: 0,
                value,
                note: 0,
            },
            Err(refusal) => turned_down(refusal),
        }
    }
}

// A swaption's value without its root.
fn model_value(priced: Result<Swaption, Refusal>) -> Result<f64, Refusal>
    ensures { result ≡ model_value priced }
{
    Ok(priced?.value)
}

fn pricer_value(valued: Result<Valuation, Refusal>) -> Result<f64, Refusal>
    ensures { result ≡ pricer_value valued }
{
    Ok(valued?.value)
}

// The halving that converged, or 0.
fn note_of(fit: Fit) -> u64
    ensures { result ≡ note_of fit }
{
    if fit.converged { fit.halvings } else { 0 }
}

impl From<Result<Fit, Refusal>> for JobResult {
    ghost from_gives = { λ fitted told. told ≡ result_of_fit fitted };

    fn from(fitted: Result<Fit, Refusal>) -> JobResult {
        match fitted {
            Ok(fit) => JobResult {
                answer: 0,
                value: fit.sigma,
                note: note_of(fit),
            },
            Err(refusal) => turned_down(refusal),
        }
    }
}

impl From<Worked> for JobResult {
    ghost from_gives = { λ worked told. told ≡ result_from worked };

    fn from(worked: Worked) -> JobResult {
        match worked {
            Worked::Swaption(priced) => model_value(priced).into(),
            Worked::Valuation(valued) => pricer_value(valued).into(),
            Worked::Fit(fitted) => fitted.into(),
        }
    }
}
