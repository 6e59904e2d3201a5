// A line of detail for each sort of answer; all zeros where the job is refused.
use super::text;
use super::text::Bits;
use file_jobs::Worked;
use hullwhite_jamshidian::Swaption;
use math_bisection::Fit;
use pricer_value::Valuation;
use search::Root;
use std::io;
use std::io::Print;

// Of all that a job's call returned.
pub fn worked(rt: &impl Print, w: Worked) -> io::Result<()> {
    match w {
        Worked::Swaption(s) => swaption(rt, s.unwrap_or_default()),
        Worked::Valuation(v) => valuation(rt, v.unwrap_or_default()),
        Worked::Fit(f) => fit(rt, f.unwrap_or_default()),
    }
}

fn root(rt: &impl Print, r: Root) -> io::Result<()> {
    text::search(rt, r.low_rung, r.high_rung, r.bracket, r.rate)
}

fn swaption(rt: &impl Print, s: Swaption) -> io::Result<()> {
    root(rt, s.root)?;
    text::end(rt)
}

fn valuation(rt: &impl Print, v: Valuation) -> io::Result<()> {
    root(rt, v.root)?;
    text::newton(rt, v.after_step)?;
    text::end(rt)
}

fn fit(rt: &impl Print, f: Fit) -> io::Result<()> {
    let status = u8::from(f.converged);
    let halvings = f.halvings;
    let residual = Bits(f.residual);
    let low = Bits(f.ends.low);
    let high = Bits(f.ends.high);
    let low_residual = Bits(f.ends.low_residual);
    let high_residual = Bits(f.ends.high_residual);
    println!(rt;
        "  status {status} halvings {halvings} residual {residual} ends {low} {high} residuals {low_residual} {high_residual}"
    )
}
