// A program for timing: how often a run file is worked (u32, the least byte first) and then the file, from
// standard input. The file's jobs are worked so often, and the last round's lines are written.
#![tactic(auto)]

ghost use Rattle.std.specs.Prelude.{◌≡◌, ◌≤◌, length, Some};
ghost use Rattle.refusals.specs.Faults.{curve_faults};
ghost use Rattle.file_layout.specs.Layout.{layout_of};
ghost use Rattle.file_layout.specs.Request.{request_of};
ghost use Rattle.file_layout.specs.Lists.{HoldsLists, list_of};

use file_layout::Layout;
use refusals::Faults;
use std::io;
use std::io::Print;

fn main(rt: HostRuntime) -> io::Result<()> {
    let mut rounds = [0u8; 4];
    file_layout::fill(&mut rt.stdin(), &mut rounds);
    let mut file = [0u8; 65537];
    let n = file_layout::fill(&mut rt.stdin(), &mut file);
    serve_file(&rt, &file[..n], file_layout::half(&rounds, 0))
}

fn serve_file(rt: &impl Print, file: &[u8], rounds: u64) -> io::Result<()> {
    let laid = file_layout::lay_out(file);
    let mut text = [0u8; 128];
    match laid {
        None => {
            let n = file_lines::write_refused(&mut text);
            rt.write_all(&text[..n])
        }
        Some(l) => {
            let n = file_lines::write_header(&mut text);
            rt.write_all(&text[..n])?;
            serve_jobs(rt, file, l, rounds)
        }
    }
}

// The jobs of a file. A caller has the layout from `lay_out` of this very file.
fn serve_jobs(rt: &impl Print, file: &[u8], l: Layout, rounds: u64) -> io::Result<()>
    requires { layout_of file.now ≡ Some l }
{
    let mut floats = [0.0; 6464];
    file_layout::read_lists(file, l, &mut floats);
    each_round(rt, file, l, &floats, rounds)
}

// The same, on the lists that a caller has read from the file.
fn each_round(
    rt: &impl Print,
    file: &[u8],
    l: Layout,
    floats: &[f64],
    rounds: u64,
) -> io::Result<()>
    requires { (layout_of file.now ≡ Some l) × HoldsLists file.now l floats.now }
{
    let curve = file_output::file_curve_faults(file, l, floats);
    let mut out = [0u8; 131072];
    for left in (0..rounds).rev() {
        each_job(rt, file, l, floats, curve, left == 0, &mut out)?;
    }
    Ok(())
}

// One round. A caller has the lists of the file, the curve's faults, and room for a path of 1,024 points.
fn each_job(
    rt: &impl Print,
    file: &[u8],
    l: Layout,
    floats: &[f64],
    curve: Faults,
    written: bool,
    out: &mut [u8],
) -> io::Result<()>
    requires file_value { (layout_of file.now ≡ Some l) × HoldsLists file.now l floats.now × (131072 ≤ length out.old) }
    requires curve_value { curve ≡ curve_faults (list_of (request_of file.now l) 2) (list_of (request_of file.now l) 3) }
{
    let n_jobs = (l.jobs.length / 40) as usize;
    for k in 0..n_jobs {
        let n = file_output::lines_on(file, l, floats, curve, k, out);
        if written {
            rt.write_all(&out[..n])?;
        }
    }
    Ok(())
}
