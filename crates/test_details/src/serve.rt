// A run file served with details: each job is worked once, and both its line and its details are told of that.
ghost use Rattle.std.specs.Prelude.{◌≡◌, ◌/◌, ◌≤◌, ◌<◌, length, Some};
ghost use Rattle.refusals.specs.Faults.{curve_faults};
ghost use Rattle.file_layout.specs.Layout.{layout_of};
ghost use Rattle.file_layout.specs.Request.{request_of, jobs_of};
ghost use Rattle.file_layout.specs.Lists.{HoldsLists};
ghost use Rattle.file_jobs.specs.Results.{request_of_lists};

use super::answers;
use file_layout::{Layout, Which};
use refusals::Faults;
use std::io;
use std::io::Print;

pub fn serve_file(rt: &impl Print, file: &[u8]) -> io::Result<()> {
    let laid = file_layout::lay_out(file);
    let mut text = [0u8; 128];
    match laid {
        None => {
            let n = file_lines::write_refused(&mut text);
            rt.write_all(&text[..n])
        }
        Some(l) => {
            let n = file_lines::write_header(&mut text);
            rt.write_all(&text[..n])?;
            serve_jobs(rt, file, l)
        }
    }
}

// The jobs of a file. A caller has the layout from `lay_out` of this very file.
fn serve_jobs(rt: &impl Print, file: &[u8], l: Layout) -> io::Result<()>
    requires { layout_of file.now ≡ Some l }
{
    let mut floats = [0.0; 6464];
    file_layout::read_lists(file, l, &mut floats);
    each_job(rt, file, l, &floats)
}

// The same, on the lists that a caller has read from the file.
fn each_job(rt: &impl Print, file: &[u8], l: Layout, floats: &[f64]) -> io::Result<()>
    requires { (layout_of file.now ≡ Some l) × HoldsLists file.now l floats.now }
{
    let alpha = file_layout::alpha(file, l.model);
    let pillars = file_layout::list(file, l, floats, Which::PillarTimes);
    let sigmas = file_layout::list(file, l, floats, Which::PillarSigmas);
    let times = file_layout::list(file, l, floats, Which::CurveTimes);
    let factors = file_layout::list(file, l, floats, Which::CurveFactors);
    let payments = file_layout::list(file, l, floats, Which::Payments);
    let accruals = file_layout::list(file, l, floats, Which::Accruals);
    let owns = file_layout::list(file, l, floats, Which::Owns);
    let grid = file_layout::list(file, l, floats, Which::GridTimes);
    let draws = file_layout::list(file, l, floats, Which::Draws);
    let curve = refusals::curve_faults(times, factors);
    let n_jobs = (l.jobs.length / 40) as usize;
    let mut out = [0u8; 131072];
    for k in 0..n_jobs {
        one_job(
            rt, file, l, curve, alpha, pillars, sigmas, times, factors, payments, accruals, owns,
            grid, draws, k, &mut out,
        )?;
    }
    Ok(())
}

// The lines of job k and, of kinds 5 to 11, the details. A caller that goes through the jobs has what
// `file_output::job_lines` asks, and lends the lists one by one, as that and `file_jobs::work` take them.
fn one_job(
    rt: &impl Print,
    file: &[u8],
    l: Layout,
    curve: Faults,
    alpha: f64,
    pillars: &[f64],
    sigmas: &[f64],
    times: &[f64],
    factors: &[f64],
    payments: &[f64],
    accruals: &[f64],
    owns: &[f64],
    grid: &[f64],
    draws: &[f64],
    k: usize,
    out: &mut [u8],
) -> io::Result<()>
    requires file_value { (layout_of file.now ≡ Some l) × (k < l.jobs.length / 40) × (131072 ≤ length out.old) }
    requires curve_value { curve ≡ curve_faults times.now factors.now }
    requires jobs_value { request_of_lists alpha pillars.now sigmas.now times.now factors.now payments.now accruals.now owns.now grid.now draws.now (jobs_of file.now l.jobs) ≡ request_of file.now l }
{
    let j = file_layout::nth_job(file, l.jobs, k);
    if (j.kind < 5) | (j.kind >= 12) {
        let n = file_output::job_lines(
            file, l, curve, alpha, pillars, sigmas, times, factors, payments, accruals, owns, grid,
            draws, k, out,
        );
        return rt.write_all(&out[..n]);
    }
    let w = file_jobs::work(
        curve, alpha, pillars, sigmas, times, factors, payments, accruals, owns, j,
    );
    let n = file_output::worked_line(k as u64, j.kind, w, out);
    rt.write_all(&out[..n])?;
    answers::worked(rt, w)
}
