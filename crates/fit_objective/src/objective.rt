// HwCalibrationObjective: the model price less the market price at a sigma, one function over the kind of
// instrument. What does not depend on sigma is worked ahead, once a fit.
ghost use Rattle.std.specs.Prelude.{◌≡◌, ◌≤◌, length};
ghost use Rattle.math_bisection.specs.Solve.{residual_at};
ghost use Rattle.fit_objective.specs.Ahead.{caplet_at};

use hullwhite_jamshidian::SwaptionAhead;
use refusals::Refusal;

// What no sigma changes of a caplet's price: B and the state's deviation of its start, what one unit grows to by
// its strike, the strike of its bond put, and the factors at its start and end.
#[derive(Clone, Copy)]
pub struct CapletAhead {
    pub b: f64,
    pub deviation: f64,
    pub growth: f64,
    pub bond_strike: f64,
    pub p_t: f64,
    pub p_end: f64,
}

// An instrument without its market price. A swaption has its lists of terms beside it.
#[derive(Clone, Copy)]
pub enum Instrument {
    Caplet(CapletAhead),
    Swaption(SwaptionAhead),
}

fn caplet_at(sigma: f64, ahead: CapletAhead) -> f64
    ensures { result ≡ caplet_at sigma ahead }
{
    let sigma_p = hullwhite_formulas::zcb_price_volatility_at(sigma, ahead.b, ahead.deviation);
    let put = hullwhite_formulas::bond_put_of(sigma_p, ahead.bond_strike, ahead.p_t, ahead.p_end);
    ahead.growth * put
}

// What a fit asks for its residuals: an instrument, its market price, and the lists of a swaption's terms, which are
// its coefficients, B, curve's parts and factors. A caplet has them empty.
#[derive(Clone, Copy)]
pub struct Objective<'a> {
    pub instrument: Instrument,
    pub market: f64,
    pub c: &'a [f64],
    pub b: &'a [f64],
    pub curve_part: &'a [f64],
    pub p: &'a [f64],
    pub ghost lists_fit: { (length c.now ≤ 64) × (length b.now ≡ length c.now) × (length curve_part.now ≡ length c.now) × (length p.now ≡ length c.now) },
}

impl<'a> Objective<'a> {
    ghost use Rattle.fit_objective.specs.Asked.{price_asked, objective_at};

    // The model price at a sigma.
    fn model_price(self, sigma: f64) -> Result<f64, Refusal>
        ensures { result ≡ price_asked self.entry sigma }
    {
        match self.instrument {
            Instrument::Caplet(ahead) => Ok(caplet_at(sigma, ahead)),
            Instrument::Swaption(ahead) => {
                let swaption = hullwhite_jamshidian::price_at(
                    ahead,
                    sigma,
                    self.c,
                    self.b,
                    self.curve_part,
                    self.p,
                )?;
                Ok(swaption.value)
            }
        }
    }

    // The residual at a sigma, or why there is none: the model's refusal, or a NaN.
    pub fn residual(self, sigma: f64) -> Result<f64, Refusal>
        ensures { result ≡ residual_at (objective_at self.entry) sigma }
    {
        let price = self.model_price(sigma);
        let Ok(model) = price else {
            return price;
        };
        let value = model - self.market;
        let is_nan = value != value;
        if is_nan {
            Err(Refusal::NanReached)
        } else {
            Ok(value)
        }
    }
}
