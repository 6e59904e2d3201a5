// The factors at the payment times.
ghost use Rattle.std.specs.Prelude.{◌≡◌, true, length, Ok};
ghost use Rattle.refusals.specs.Checks.{in_order};
ghost use Rattle.refusals.specs.Refusals.{after};
ghost use Rattle.hullwhite_terms.specs.Terms.{factors_at};

use refusals::Refusal;

// Fetches the factor at every payment time, or says why one is not there. A caller that has asked the rules has
// a curve whose times strictly rise, and lends a place for each factor. Beside a refusal the list holds what
// was fetched before it.
pub fn fetch(
    times: &[f64],
    factors: &[f64],
    payments: &[f64],
    out: &mut [f64],
) -> Result<(), Refusal>
    requires { (length out.old ≡ length payments.now) × (in_order true times.now ≡ true) }
    ensures { factors_at times.now factors.now payments.now ≡ after result (Ok out.new) }
{
    for i in 0..payments.len() {
        let Some(p) = curve::factor(times, factors, payments[i]) else {
            return Err(Refusal::OffCurve);
        };
        out[i] = p;
    }
    Ok(())
}
