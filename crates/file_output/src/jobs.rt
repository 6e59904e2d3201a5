// The lines of a job, in the output that is lent.
ghost use Rattle.std.specs.Prelude.{◌≡◌, ◌*◌, ◌+◌, ◌/◌, ◌≤◌, ◌<◌, length, Some};
ghost use Rattle.refusals.specs.Faults.{curve_faults};
ghost use Rattle.hullwhite_paths.specs.Generate.{generate_outcome};
ghost use Rattle.file_layout.specs.Layout.{layout_of};
ghost use Rattle.file_layout.specs.Request.{request_of, job_at, jobs_of};
ghost use Rattle.file_fields.specs.Text.{Begins};
ghost use Rattle.file_fields.specs.Fields.{bits_of};
ghost use Rattle.file_lines.specs.Lines.{line_of};
ghost use Rattle.file_jobs.specs.Results.{request_of_lists};
ghost use Rattle.file_jobs.specs.Worked.{result_from};
ghost use Rattle.file_output.specs.Output.{result_line, point_lines, path_lines, job_lines};

use file_jobs::{JobResult, Worked};
use file_layout::Layout;
use file_lines::Line;
use hullwhite_points::Centre;
use refusals::Faults;

// A line for each point of a path, the note being the point from 0. A caller lends 128 bytes for each.
fn point_lines(k: u64, kind: u64, values: &[f64], out: &mut [u8]) -> usize
    requires { 128 * length values.now ≤ length out.old }
    ensures { Begins result (point_lines k kind 0 values.now) out.old out.new }
{
    let mut at = 0;
    for i in 0..values.len() {
        let point = Line {
            job: k,
            kind,
            answer: 0,
            value: values[i],
            note: i as u64,
        };
        at = file_lines::write_line(point, out, at);
    }
    at
}

// One line, for a job that is no served path. A caller lends 128 bytes for it.
fn one_line(l: Line, out: &mut [u8]) -> usize
    requires { 128 ≤ length out.old }
    ensures { Begins result (line_of l.job l.kind l.answer (bits_of l.value) l.note) out.old out.new }
{
    file_lines::write_line(l, out, 0)
}

// The line of a job of kinds 1 to 11, of which `told` is told. A caller lends 128 bytes for it.
fn result_line(k: u64, kind: u64, told: JobResult, out: &mut [u8]) -> usize
    requires { 128 ≤ length out.old }
    ensures { Begins result (result_line k kind told) out.old out.new }
{
    one_line(
        Line {
            job: k,
            kind,
            answer: told.answer,
            value: told.value,
            note: told.note,
        },
        out,
    )
}

// The line of a job of kinds 5 to 11, from all that its call returned. A caller lends 128 bytes for it.
pub fn worked_line(k: u64, kind: u64, worked: Worked, out: &mut [u8]) -> usize
    requires { 128 ≤ length out.old }
    ensures { Begins result (result_line k kind (result_from worked)) out.old out.new }
{
    result_line(k, kind, worked.into(), out)
}

// Kinds 12 and 13. A grid without points is served with one line of zeros. A caller has the curve's faults and the
// grid of a run file, at most 1,024 points, and lends 128 bytes for each.
fn path_lines(
    centre: Centre,
    kind: u64,
    curve: Faults,
    alpha: f64,
    pillars: &[f64],
    sigmas: &[f64],
    times: &[f64],
    factors: &[f64],
    grid: &[f64],
    draws: &[f64],
    k: u64,
    out: &mut [u8],
) -> usize
    requires { (curve ≡ curve_faults times.now factors.now) × (length grid.now ≤ 1024) × (131072 ≤ length out.old) }
    ensures { Begins result (path_lines k kind (generate_outcome centre alpha pillars.now sigmas.now times.now factors.now grid.now draws.now (length grid.now))) out.old out.new }
{
    let n = grid.len();
    let mut values = [0.0; 1024];
    let answer = hullwhite_paths::generate_on(
        centre,
        curve,
        alpha,
        pillars,
        sigmas,
        times,
        factors,
        grid,
        draws,
        &mut values[..n],
    );
    if let Err(refusal) = answer {
        return one_line(
            Line {
                job: k,
                kind,
                answer: refusal.into(),
                value: 0.0,
                note: 0,
            },
            out,
        );
    }
    let is_empty = n == 0;
    if is_empty {
        return one_line(
            Line {
                job: k,
                kind,
                answer: 0,
                value: 0.0,
                note: 0,
            },
            out,
        );
    }
    point_lines(k, kind, &values[..n], out)
}

// The lines of job k of the file, on the lists that were read from it and the curve's faults, worked once for
// all jobs. The layout is the one that `lay_out` gave of this file; a caller that goes through its jobs has the
// lists from `file_layout::list`, and lends room for a path of 1,024 points.
pub fn job_lines(
    file: &[u8],
    l: Layout,
    curve: Faults,
    alpha: f64,
    pillars: &[f64],
    sigmas: &[f64],
    times: &[f64],
    factors: &[f64],
    payments: &[f64],
    accruals: &[f64],
    owns: &[f64],
    grid: &[f64],
    draws: &[f64],
    k: usize,
    out: &mut [u8],
) -> usize
    requires file_value { (layout_of file.now ≡ Some l) × (k < l.jobs.length / 40) × (131072 ≤ length out.old) }
    requires curve_value { curve ≡ curve_faults times.now factors.now }
    requires jobs_value { request_of_lists alpha pillars.now sigmas.now times.now factors.now payments.now accruals.now owns.now grid.now draws.now (jobs_of file.now l.jobs) ≡ request_of file.now l }
    ensures { Begins result (job_lines (request_of file.now l) k (job_at file.now (l.jobs.offset + 40 * k))) out.old out.new }
{
    let j = file_layout::nth_job(file, l.jobs, k);
    if j.kind == 12 {
        return path_lines(
            Centre::StateVariance,
            12,
            curve,
            alpha,
            pillars,
            sigmas,
            times,
            factors,
            grid,
            draws,
            k as u64,
            out,
        );
    }
    if j.kind == 13 {
        return path_lines(
            Centre::Published,
            13,
            curve,
            alpha,
            pillars,
            sigmas,
            times,
            factors,
            grid,
            draws,
            k as u64,
            out,
        );
    }
    if j.kind < 5 {
        let told = file_jobs::option_result(curve, alpha, times, factors, j);
        return result_line(k as u64, j.kind, told, out);
    }
    let worked = file_jobs::work(
        curve, alpha, pillars, sigmas, times, factors, payments, accruals, owns, j,
    );
    worked_line(k as u64, j.kind, worked, out)
}
