// implicit_critical_rate: one Newton step from the rate that was found.
ghost use Rattle.std.specs.Prelude.{◌≡◌, length};
ghost use Rattle.pricer_formulas.specs.Newton.{bond_at, sums_after, sums_of, stepped};

use refusals::Refusal;

// The coupon sum less 1, and its derivative by the rate.
#[derive(Clone, Copy)]
pub struct Sums {
    pub objective: f64,
    pub derivative: f64,
}

// A term's bond at a rate.
pub fn bond_at(rate: f64, a: f64, b: f64) -> f64
    ensures { result ≡ bond_at rate a b }
{
    a * math_exponential::exp(rate * -b)
}

// The sums with one term more.
fn sums_after(rate: f64, c: f64, a: f64, b: f64, sums: Sums) -> Sums
    ensures { result ≡ sums_after rate c a b sums }
{
    let bond = bond_at(rate, a, b);
    Sums {
        objective: sums.objective + bond * c,
        derivative: sums.derivative - bond * (c * b),
    }
}

// The objective starts at -1, the derivative at 0. A caller has an A and a B for each coefficient.
fn newton_sums(rate: f64, c: &[f64], a: &[f64], b: &[f64]) -> Sums
    requires { (length a.now ≡ length c.now) × (length b.now ≡ length c.now) }
    ensures { result ≡ sums_of rate c.now a.now b.now }
{
    let mut total = Sums {
        objective: -1.0,
        derivative: 0.0,
    };
    for i in 0..c.len() {
        total = sums_after(rate, c[i], a[i], b[i], total);
    }
    total
}

// The step. A caller that has worked the terms, or has asked rule 1 of them, has an A and a B for each
// coefficient.
pub fn implicit_critical_rate_of(rate: f64, c: &[f64], a: &[f64], b: &[f64]) -> Result<f64, Refusal>
    requires { (length a.now ≡ length c.now) × (length b.now ≡ length c.now) }
    ensures { result ≡ stepped rate (sums_of rate c.now a.now b.now) }
{
    let total = newton_sums(rate, c, a, b);
    if math_elementary::abs(total.derivative) < 1e-14 {
        Err(Refusal::FlatDerivative)
    } else {
        Ok(rate - total.objective / total.derivative)
    }
}
