// Bisection::solve, over an instrument: from 1e-8 to 2.0, 200 halvings. A fit that can no longer move stops
// early.
ghost use Rattle.std.specs.Prelude.{◌≡◌};
ghost use Rattle.math_bisection.specs.Solve.{unconverged_at, halvings_from, solve_of};
ghost use Rattle.fit_objective.specs.Asked.{objective_at};
ghost use Rattle.fit_solver.specs.Turn.{turn_at, solve_above};

use fit_objective::Objective;
use math_bisection::{Ends, Fit};
use refusals::Refusal;

// What one halving comes to: the midpoint converges, or is put for an end.
#[derive(Clone, Copy)]
pub enum Turn {
    Converged { sigma: f64, residual: f64 },
    Moved(Ends),
}

// One halving.
fn halve(objective: Objective, ends: Ends) -> Result<Turn, Refusal>
    ensures { result ≡ turn_at (objective_at objective.entry) ends }
{
    let sigma = math_elementary::midpoint(ends.low, ends.high);
    let residual = objective.residual(sigma)?;
    if math_bisection::is_close(residual) {
        Ok(Turn::Converged { sigma, residual })
    } else {
        Ok(Turn::Moved(math_bisection::moved(ends, sigma, residual)))
    }
}

// The midpoint of the last ends, where no halving converged.
fn unconverged(objective: Objective, ends: Ends) -> Result<Fit, Refusal>
    ensures { result ≡ unconverged_at (objective_at objective.entry) ends }
{
    let sigma = math_elementary::midpoint(ends.low, ends.high);
    let residual = objective.residual(sigma)?;
    Ok(Fit {
        sigma,
        converged: false,
        halvings: 200,
        residual,
        ends,
    })
}

// 200 halvings. After one that leaves everything as it was, no further one changes anything.
fn halvings(objective: Objective, start: Ends) -> Result<Fit, Refusal>
    ensures { result ≡ halvings_from (objective_at objective.entry) 200 0 start }
{
    let mut ends = start;
    for made in 0..200 {
        match halve(objective, ends)? {
            Turn::Converged { sigma, residual } => {
                return Ok(Fit {
                    sigma,
                    converged: true,
                    halvings: made + 1,
                    residual,
                    ends,
                });
            }
            Turn::Moved(next) => {
                if math_bisection::unmoved(next, ends) {
                    return unconverged(objective, ends);
                }
                ends = next;
            }
        }
    }
    unconverged(objective, ends)
}

// The residual at 2.0 beside that at 1e-8: they differ in sign, or there is nothing to halve.
fn solve_above(objective: Objective, low_residual: f64) -> Result<Fit, Refusal>
    ensures { result ≡ solve_above (objective_at objective.entry) low_residual }
{
    let high_residual = objective.residual(2.0)?;
    if math_bisection::same_sign(low_residual, high_residual) {
        return Err(Refusal::NoSignChange);
    }
    let ends = Ends {
        low: 1e-8,
        high: 2.0,
        low_residual,
        high_residual,
    };
    halvings(objective, ends)
}

// The residual at 1e-8 comes first.
pub fn solve(objective: Objective) -> Result<Fit, Refusal>
    ensures { result ≡ solve_of (objective_at objective.entry) }
{
    let low_residual = objective.residual(1e-8)?;
    solve_above(objective, low_residual)
}
