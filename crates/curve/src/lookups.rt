// The factor at a time, the volatility at a time, and the times up to a time.
ghost use Rattle.std.specs.Prelude.{◌≡◌, true, ◌+◌, ◌-◌, ◌≤◌, length, take};
ghost use Rattle.refusals.specs.Checks.{in_order};
ghost use Rattle.curve.specs.Lookups.{Front, Back, PartsAt, if_finite, between_of, factor_at, volatility_at, up_to};

// The factor at a time on the curve or strictly between two of its points. It is looked for by halves, for the
// times strictly rise: a caller that prices or fits shows it, behind rule 4.
pub fn factor(times: &[f64], factors: &[f64], t: f64) -> Option<f64>
    requires { in_order true times.now ≡ true }
    ensures { result ≡ factor_at times.now factors.now t }
{
    let place = part(times, t, true);
    factor_at(times, factors, place, t)
}

// The same, looked for at the place `hint` first, which is left where a walk along rising times looks for the next
// one. A caller that walks along a grid shows that the times rise, behind rule 4.
pub fn factor_near(times: &[f64], factors: &[f64], hint: &mut usize, t: f64) -> Option<f64>
    requires { in_order true times.now ≡ true }
    ensures { result ≡ factor_at times.now factors.now t }
{
    let place = part_near(times, *hint, t, true);
    *hint = behind(times, place, t);
    factor_at(times, factors, place, t)
}

// Where a walk looks for the next time, t being at this place or between it and the one before: behind a point
// at t itself, else at the same place, for between two points of a month there are many times. It is a hint: no
// outcome turns on it.
fn behind(times: &[f64], place: usize, t: f64) -> usize
    ensures { (place ≤ result) × (result ≤ place + 1) }
{
    if times.len() <= place {
        return place;
    }
    if times[place] == t { place + 1 } else { place }
}

// The factor at t, where the times before this place are those below t: a caller has the place from `part` or
// `part_near`, in times that strictly rise.
fn factor_at(times: &[f64], factors: &[f64], place: usize, t: f64) -> Option<f64>
    requires { (in_order true times.now ≡ true) × PartsAt true times.now t place }
    ensures { result ≡ factor_at times.now factors.now t }
{
    if times.len() <= place {
        return None;
    }
    if factors.len() <= place {
        return None;
    }
    let t1 = times[place];
    let f1 = factors[place];
    if t1 == t {
        return Some(f1);
    }
    if place == 0 {
        return None;
    }
    between(times[place - 1], factors[place - 1], t1, f1, t)
}

// The factor at a time strictly between two neighbours, where it is finite.
fn between(t0: f64, f0: f64, t1: f64, f1: f64, t: f64) -> Option<f64>
    ensures { result ≡ if_finite (between_of t0 f0 t1 f1 t) }
{
    let w = (t - t0) / (t1 - t0);
    let ln_f0 = math_elementary::ln(f0);
    let factor = math_exponential::exp(ln_f0 + w * (math_elementary::ln(f1) - ln_f0));
    if math_elementary::is_finite(factor) {
        Some(factor)
    } else {
        None
    }
}

// How many times of a rising list are below t where `strictly`, else at most t, looked for by halves. A caller
// shows that they rise.
fn part(times: &[f64], t: f64, strictly: bool) -> usize
    requires { in_order true times.now ≡ true }
    ensures { PartsAt strictly times.now t result }
{
    let mut low = 0;
    let mut high = times.len();
    while low < high {
        let middle = low + (high - low) / 2;
        if refusals::follows(strictly, times[middle], t) {
            low = middle + 1;
        } else {
            high = middle;
        }
    }
    low
}

// The same, where `hint` is likely to be it: the times on both sides of the place say whether it is. A caller
// shows that they rise.
fn part_near(times: &[f64], hint: usize, t: f64, strictly: bool) -> usize
    requires { in_order true times.now ≡ true }
    ensures { PartsAt strictly times.now t result }
{
    if reaches(times, hint, t, strictly) {
        if stops(times, hint, t, strictly) {
            return hint;
        }
    }
    part(times, t, strictly)
}

// Whether the first n times are so: in a list that rises, as a caller shows, the last of them tells it.
fn reaches(times: &[f64], n: usize, t: f64, strictly: bool) -> bool
    requires { in_order true times.now ≡ true }
    ensures { result ≡ true → (n ≤ length times.now) × Front strictly times.now t n }
{
    if n == 0 {
        return true;
    }
    if times.len() < n {
        return false;
    }
    refusals::follows(strictly, times[n - 1], t)
}

// Whether none from place n on is: in a list that rises, as a caller shows, the first of them tells it.
fn stops(times: &[f64], n: usize, t: f64, strictly: bool) -> bool
    requires { in_order true times.now ≡ true }
    ensures { result ≡ true → Back strictly times.now t n }
{
    if times.len() <= n {
        return true;
    }
    !refusals::follows(strictly, times[n], t)
}

// The volatility of the last pillar at or before t, else of the first.
pub fn volatility_at(times: &[f64], sigmas: &[f64], t: f64) -> Option<f64>
    ensures { result ≡ volatility_at times.now sigmas.now t }
{
    if times.len() == 0 {
        return None;
    }
    if sigmas.len() == 0 {
        return None;
    }
    let mut best = sigmas[0];
    for (i, time) in times.iter().enumerate() {
        if sigmas.len() <= i {
            return Some(best);
        }
        if *time <= t {
            best = sigmas[i];
        }
    }
    Some(best)
}

// The same on rising times, of which `hint` are likely to be at or before t, and then as many as are. A caller that
// walks along a grid shows that they rise, behind rule 4.
pub fn volatility_near(times: &[f64], sigmas: &[f64], hint: &mut usize, t: f64) -> Option<f64>
    requires { in_order true times.now ≡ true }
    ensures { result ≡ volatility_at times.now sigmas.now t }
{
    let n = part_near(times, *hint, t, false);
    *hint = n;
    if times.len() == 0 {
        return None;
    }
    let last = last_of(n);
    if sigmas.len() <= last {
        return volatility_at(times, sigmas, t);
    }
    Some(sigmas[last])
}

// The place of the last of n, and 0 where there is none.
fn last_of(n: usize) -> usize
    ensures { result ≡ n - 1 }
{
    if n == 0 { 0 } else { n - 1 }
}

// How many of the times from the front are at or before t.
fn count_reached(times: &[f64], t: f64) -> usize
    ensures { (result ≤ length times.now) × (take result times.now ≡ up_to t times.now) }
{
    for (n, time) in times.iter().enumerate() {
        if !(*time <= t) {
            return n;
        }
    }
    times.len()
}

// The times at or before t, as a part of the caller's own list.
pub fn reached(times: &[f64], t: f64) -> &[f64]
    ensures { result.now ≡ up_to t times.now }
{
    let n = count_reached(times, t);
    &times[..n]
}
