// parameters.rs: the variance of the state over an interval, sigma changing at the pillars. Nothing is
// refused here.
ghost use Rattle.std.specs.Prelude.{◌≡◌, drop};
ghost use Rattle.hullwhite_parameters.specs.Variance.{weight_of, variance_piece_of, piece_upper_of, piece_lower_of, piecewise_variance_of};

// The first pillar reaches back to the start; each other begins at its own time.
pub fn hull_white_piecewise_variance_of(
    alpha: f64,
    times: &[f64],
    sigmas: &[f64],
    start: f64,
    end: f64,
) -> f64
    ensures { result ≡ piecewise_variance_of alpha times.now sigmas.now start end }
{
    let mut variance = 0.0;
    for (i, (time, sigma)) in times.iter().zip(sigmas).enumerate() {
        let lower = piece_lower(i == 0, start, *time);
        let upper = piece_upper(times, i + 1, end);
        variance = piece(alpha, end, lower, upper, *sigma, variance);
    }
    variance
}

fn piece_lower(first: bool, start: f64, time: f64) -> f64
    ensures { result ≡ piece_lower_of first start time }
{
    if first {
        start
    } else {
        math_elementary::max(start, time)
    }
}

// Where the piece ends that the pillar before place j begins.
fn piece_upper(times: &[f64], j: usize, end: f64) -> f64
    ensures { result ≡ piece_upper_of end (drop j times.now) }
{
    if j < times.len() {
        math_elementary::min(end, times[j])
    } else {
        end
    }
}

fn piece(alpha: f64, end: f64, lower: f64, upper: f64, sigma: f64, variance: f64) -> f64
    ensures { result ≡ variance_piece_of alpha end lower upper sigma variance }
{
    if upper <= lower {
        variance
    } else {
        variance + sigma * sigma * weight(alpha, end, lower, upper)
    }
}

fn weight(alpha: f64, end: f64, lower: f64, upper: f64) -> f64
    ensures { result ≡ weight_of alpha end lower upper }
{
    if math_elementary::abs(alpha) < 1.0e-12 {
        upper - lower
    } else {
        math_exponential::exp(-2.0 * alpha * (end - upper))
            * (-math_exponential::exp_m1(-2.0 * alpha * (upper - lower)))
            / (2.0 * alpha)
    }
}
