// The two walks over a basket's entries: their fits, and their bumped fits.
ghost use Rattle.std.specs.Prelude.{◌≡◌, true, length, Ok};
ghost use Rattle.refusals.specs.Checks.{in_order};
ghost use Rattle.refusals.specs.Refusals.{after};
ghost use Rattle.basket.specs.Lent.{entry_of, entries_in};
ghost use Rattle.basket.specs.Basket.{status_of, diagonal_of, fits_of, bump_of, bumps_of};

use super::entries::Entries;
use fit::{Optionlet, Quote};
use math_bisection::Fit;
use refusals::Refusal;

fn status_of(converged: bool) -> f64
    ensures { result ≡ status_of converged }
{
    if converged { 1.0 } else { 0.0 }
}

fn diagonal_of(bumped: f64, sigma: f64) -> f64
    ensures { result ≡ diagonal_of bumped sigma }
{
    (bumped - sigma) / 1e-6
}

// Every entry's fit, into lists that are lent for them. A caller that has asked the rules has a curve whose times
// strictly rise; it lends a place for each entry.
pub fn first_fits(
    alpha: f64,
    times: &[f64],
    factors: &[f64],
    entries: Entries,
    sigmas: &mut [f64],
    statuses: &mut [f64],
    halvings: &mut [f64],
    residuals: &mut [f64],
) -> Result<(), Refusal>
    requires { (length sigmas.old ≡ length entries.normals.now) × (length statuses.old ≡ length entries.normals.now) × (length halvings.old ≡ length entries.normals.now) × (length residuals.old ≡ length entries.normals.now) × (in_order true times.now ≡ true) }
    ensures { fits_of alpha times.now factors.now (entries_in entries.entry) ≡ after result (Ok (record { sigmas = sigmas.exit.now; statuses = statuses.new; halvings = halvings.new; residuals = residuals.new })) }
{
    for i in 0..entries.normals.len() {
        let quote = entries.quote(i);
        let caplet = entries.caplet(i);
        let fit = fit::caplet_fitted(quote, alpha, times, factors, caplet)?;
        sigmas[i] = fit.sigma;
        statuses[i] = status_of(fit.converged);
        halvings[i] = fit.halvings as f64;
        residuals[i] = fit.residual;
    }
    Ok(())
}

// One entry's bumped fit; the diagonal's float must be finite too. A caller that has asked the rules has a
// curve whose times strictly rise.
fn bumped(
    quote: Quote,
    alpha: f64,
    times: &[f64],
    factors: &[f64],
    caplet: Optionlet,
    sigma: f64,
) -> Result<Fit, Refusal>
    requires { in_order true times.now ≡ true }
    ensures { result ≡ bump_of alpha times.now factors.now (entry_of quote caplet) sigma }
{
    let vol_type = quote.vol_type;
    let moved = Quote {
        vol_type,
        volatility: quote.volatility + 1e-6,
    };
    let fitted = fit::caplet_fitted(moved, alpha, times, factors, caplet);
    let Ok(fit) = fitted else {
        return fitted;
    };
    if math_elementary::is_finite(diagonal_of(fit.sigma, sigma)) {
        fitted
    } else {
        Err(Refusal::Overflow)
    }
}

// Every entry's bumped fit beside the sigma fitted first. A caller behind the rules shows the same as above; it
// has a sigma and lends a place for each entry.
pub fn bumped_fits(
    alpha: f64,
    times: &[f64],
    factors: &[f64],
    entries: Entries,
    sigmas: &[f64],
    diagonal: &mut [f64],
    statuses: &mut [f64],
) -> Result<(), Refusal>
    requires { (length sigmas.now ≡ length entries.normals.now) × (length diagonal.old ≡ length entries.normals.now) × (length statuses.old ≡ length entries.normals.now) × (in_order true times.now ≡ true) }
    ensures { bumps_of alpha times.now factors.now (entries_in entries.entry) sigmas.now ≡ after result (Ok (record { diagonal = diagonal.exit.now; statuses = statuses.new })) }
{
    for i in 0..entries.normals.len() {
        let quote = entries.quote(i);
        let caplet = entries.caplet(i);
        let fit = bumped(quote, alpha, times, factors, caplet, sigmas[i])?;
        diagonal[i] = diagonal_of(fit.sigma, sigmas[i]);
        statuses[i] = status_of(fit.converged);
    }
    Ok(())
}
