// A basket's call and its answer.
ghost use Rattle.std.specs.Prelude.{◌≡◌, true, ◌≤◌, length};
ghost use Rattle.refusals.specs.Checks.{in_order};
ghost use Rattle.refusals.specs.Refusals.{reported};
ghost use Rattle.basket.specs.Lent.{entries_in};
ghost use Rattle.basket.specs.Basket.{no_basket, fitted_basket, basket_of};
ghost use Rattle.basket.specs.Demand3.{BasketHolds, BasketNeverNoBracket};

use super::entries::Entries;
use super::walk;
use refusals::Refusal;

// 64 places of each; those from `count` on are 0. A status is 1 where the fit converged.
#[derive(Clone, Copy, Default)]
pub struct Basket {
    pub count: u64,
    pub sigmas: [f64; 64],
    pub statuses: [f64; 64],
    pub halvings: [f64; 64],
    pub residuals: [f64; 64],
    pub diagonal: [f64; 64],
    pub bumped_statuses: [f64; 64],
}

// Entries are lent as lists of one length: whether the quote is a normal one, strike, start, end, quoted
// volatility.
pub fn calibrate_to_instruments(
    alpha: f64,
    times: &[f64],
    factors: &[f64],
    normals: &[bool],
    strikes: &[f64],
    starts: &[f64],
    ends: &[f64],
    vols: &[f64],
) -> Result<Basket, Refusal>
    ensures answer { result ≡ basket_of alpha times.now factors.now normals.now strikes.now starts.now ends.now vols.now }
    ensures held { BasketHolds alpha times.now factors.now normals.now strikes.now starts.now ends.now vols.now result }
    ensures bracket { BasketNeverNoBracket result }
    ensures report { reported no_basket result ≡ reported no_basket (basket_of alpha times.now factors.now normals.now strikes.now starts.now ends.now vols.now) }
{
    let curve = refusals::curve_faults(times, factors);
    basket_entries::basket_rules(
        curve,
        alpha,
        basket_entries::size_wrong(normals, strikes, starts, ends, vols),
        basket_entries::numbers_wrong(strikes, starts, ends, vols),
        basket_entries::times_wrong(starts, ends),
        basket_entries::domain_wrong(normals, strikes, vols),
    )?;
    let entries = Entries {
        normals,
        strikes,
        starts,
        ends,
        vols,
    };
    fitted_basket(alpha, times, factors, entries)
}

// A basket behind its rules: a caller that has asked them has at most 64 entries, and a curve whose times strictly
// rise.
fn fitted_basket(
    alpha: f64,
    times: &[f64],
    factors: &[f64],
    entries: Entries,
) -> Result<Basket, Refusal>
    requires { (length entries.normals.now ≤ 64) × (in_order true times.now ≡ true) }
    ensures { result ≡ fitted_basket alpha times.now factors.now (entries_in entries.entry) }
{
    let n = entries.normals.len();
    let mut sigmas = [0.0; 64];
    let mut statuses = [0.0; 64];
    let mut halvings = [0.0; 64];
    let mut residuals = [0.0; 64];
    walk::first_fits(
        alpha,
        times,
        factors,
        entries,
        &mut sigmas[..n],
        &mut statuses[..n],
        &mut halvings[..n],
        &mut residuals[..n],
    )?;
    let mut diagonal = [0.0; 64];
    let mut bumped_statuses = [0.0; 64];
    walk::bumped_fits(
        alpha,
        times,
        factors,
        entries,
        &sigmas[..n],
        &mut diagonal[..n],
        &mut bumped_statuses[..n],
    )?;
    Ok(Basket {
        count: n as u64,
        sigmas,
        statuses,
        halvings,
        residuals,
        diagonal,
        bumped_statuses,
    })
}
