// The coupon sum at a rate: what a search evaluates, and nearly all of its time.
#![tactic(auto)]

ghost use Rattle.std.specs.Prelude.{◌≡◌};
ghost use Rattle.search_sum.specs.Sum.{weighted_sum};

// The terms are given by their weights, coefficient × A, and their B, so that an evaluation knows
// neither curve nor volatility. Where one list is shorter, the terms end with it.
pub fn coupon_sum(weights: &[f64], b: &[f64], rate: f64) -> f64
    ensures { result ≡ weighted_sum weights.now b.now rate }
{
    let n = weights.len().min(b.len());
    let mut sum = 0.0;
    let mut i = 0;
    // Two terms' exps are worked side by side, in less time than one after the other, and added in their order.
    while i + 1 < n {
        let e = math_exponential::exp_two(-b[i] * rate, -b[i + 1] * rate);
        sum = sum + weights[i] * e.first;
        sum = sum + weights[i + 1] * e.second;
        i += 2;
    }
    if i < n {
        let e = math_exponential::exp(-b[i] * rate);
        return sum + weights[i] * e;
    }
    sum
}
