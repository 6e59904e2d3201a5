// What the program prints for a file, piece by piece.
ghost use Rattle.std.specs.Prelude.{◌≡◌, cond, ◌*◌, ◌+◌, ◌/◌, ◌≤◌, ◌<◌, suc, length, Some};
ghost use Rattle.refusals.specs.Faults.{curve_faults};
ghost use Rattle.file_layout.specs.Layout.{layout_of};
ghost use Rattle.file_layout.specs.Lists.{HoldsLists, list_of};
ghost use Rattle.file_layout.specs.Request.{request_of, job_at};
ghost use Rattle.file_fields.specs.Text.{Begins};
ghost use Rattle.file_lines.specs.Lines.{header, refused_line};
ghost use Rattle.file_output.specs.Output.{job_lines};
ghost use Rattle.file_output.specs.Pieces.{piece_of};

use super::jobs;
use file_layout::{Layout, Which};
use refusals::Faults;

// Puts piece k of the file's output at the front of the buffer, and answers how many bytes it has: 0 is the header or
// `refused 1`, k + 1 the lines of job k, and behind the last there are no bytes. A caller lends room for a path of 1,024 points.
pub fn piece(file: &[u8], k: usize, out: &mut [u8]) -> usize
    requires { 131072 ≤ length out.old }
    ensures { Begins result (piece_of file.now k) out.old out.new }
{
    let laid = file_layout::lay_out(file);
    match laid {
        None => {
            if k == 0 {
                return first_line(true, out);
            }
            0
        }
        Some(l) => {
            if k == 0 {
                return first_line(false, out);
            }
            job_piece(file, l, k - 1, out)
        }
    }
}

// `refused 1` of a broken file, else the header. A caller lends 128 bytes for it.
pub fn first_line(broken: bool, out: &mut [u8]) -> usize
    requires { 128 ≤ length out.old }
    ensures { Begins result (cond broken refused_line header) out.old out.new }
{
    if broken {
        return file_lines::write_refused(out);
    }
    file_lines::write_header(out)
}

// Piece k + 1 of a file whose layout is known: the lines of job k, or no bytes behind the last job. The lists are read for this
// job alone.
fn job_piece(file: &[u8], l: Layout, k: usize, out: &mut [u8]) -> usize
    requires { (layout_of file.now ≡ Some l) × (131072 ≤ length out.old) }
    ensures { Begins result (piece_of file.now (suc k)) out.old out.new }
{
    let n_jobs = (l.jobs.length / 40) as usize;
    if n_jobs <= k {
        return 0;
    }
    let mut floats = [0.0; 6464];
    file_layout::read_lists(file, l, &mut floats);
    let curve = file_curve_faults(file, l, &floats);
    lines_on(file, l, &floats, curve, k, out)
}

// The faults of the file's curve, on its lists. The layout is the one that `lay_out` gave of this file; a caller has
// the lists from `read_lists`.
pub fn file_curve_faults(file: &[u8], l: Layout, floats: &[f64]) -> Faults
    requires { (layout_of file.now ≡ Some l) × HoldsLists file.now l floats.now }
    ensures { result ≡ curve_faults (list_of (request_of file.now l) 2) (list_of (request_of file.now l) 3) }
{
    let times = file_layout::list(file, l, floats, Which::CurveTimes);
    let factors = file_layout::list(file, l, floats, Which::CurveFactors);
    refusals::curve_faults(times, factors)
}

// The lines of job k, on the lists of the file and the faults of its curve. A caller lends room for a path of 1,024 points.
pub fn lines_on(
    file: &[u8],
    l: Layout,
    floats: &[f64],
    curve: Faults,
    k: usize,
    out: &mut [u8],
) -> usize
    requires file_value { (layout_of file.now ≡ Some l) × HoldsLists file.now l floats.now × (k < l.jobs.length / 40) × (131072 ≤ length out.old) }
    requires curve_value { curve ≡ curve_faults (list_of (request_of file.now l) 2) (list_of (request_of file.now l) 3) }
    ensures { Begins result (job_lines (request_of file.now l) k (job_at file.now (l.jobs.offset + 40 * k))) out.old out.new }
{
    let alpha = file_layout::alpha(file, l.model);
    let pillars = file_layout::list(file, l, floats, Which::PillarTimes);
    let sigmas = file_layout::list(file, l, floats, Which::PillarSigmas);
    let times = file_layout::list(file, l, floats, Which::CurveTimes);
    let factors = file_layout::list(file, l, floats, Which::CurveFactors);
    let payments = file_layout::list(file, l, floats, Which::Payments);
    let accruals = file_layout::list(file, l, floats, Which::Accruals);
    let owns = file_layout::list(file, l, floats, Which::Owns);
    let grid = file_layout::list(file, l, floats, Which::GridTimes);
    let draws = file_layout::list(file, l, floats, Which::Draws);
    jobs::job_lines(
        file, l, curve, alpha, pillars, sigmas, times, factors, payments, accruals, owns, grid,
        draws, k, out,
    )
}
