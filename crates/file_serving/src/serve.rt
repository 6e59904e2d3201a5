// A run file served: its layout, its lists, and each job's lines as soon as they are worked.
ghost use Rattle.std.specs.Prelude.{◌≡◌, drop, Some};
ghost use Rattle.std.specs.Io.KnownBytes.{Consumes};
ghost use Rattle.file_layout.specs.Layout.{layout_of};
ghost use Rattle.file_layout.specs.Lists.{HoldsLists};
ghost use Rattle.file_output.specs.Output.{output_of};
ghost use Rattle.file_output.specs.Pieces.{pieces_of, joined};
ghost use Rattle.file_serving.specs.Sending.{file_of, Due, Done, Handed};

use super::sent;
use super::sent::Sent;
use file_layout::Layout;
use std::io::{Read, Write};

// What the input holds, served: all of its output is sent, or a write has failed. The file is what was read, and what the
// writer was handed is the file's output, or a front of it where a write failed.
pub fn serve_input<R: Read, W: Write>(input: &mut R, output: &mut W) -> Sent
    ensures done { Done (file_of result) result }
    ensures read { Consumes (R.remaining input.old) (R.remaining input.new) (file_of result) }
    ensures handed { Handed (W.contents output.old) (W.contents output.new) (output_of (file_of result)) result.failed }
{
    let sent = sent::receive(input);
    let bytes = sent::bytes(sent);
    let n = sent::length(sent);
    let mut due = 0;
    serve_file(&bytes[..n], sent, &mut due, output)
}

// From piece 0 on, until all of the file's output is sent, or a write has failed. The state is of the file, and nothing
// is sent yet.
fn serve_file<W: Write>(file: &[u8], sent: Sent, due: &mut usize, output: &mut W) -> Sent
    requires { Due file.now sent due.old × (due.old ≡ 0) }
    ensures done { Done file.now result }
    ensures handed { Handed (W.contents output.old) (W.contents output.new) (output_of file.now) result.failed }
{
    let laid = file_layout::lay_out(file);
    let mut text = [0u8; 128];
    match laid {
        None => {
            let n = file_output::first_line(true, &mut text);
            sent::send(sent, due, &text[..n], output)
        }
        Some(l) => {
            let n = file_output::first_line(false, &mut text);
            let first = sent::send(sent, due, &text[..n], output);
            if sent::failed(first) {
                return first;
            }
            serve_jobs(file, l, first, due, output)
        }
    }
}

// The jobs, on the lists that are read here, once. The layout is that of the file, whose header is sent.
fn serve_jobs<W: Write>(file: &[u8], l: Layout, sent: Sent, due: &mut usize, output: &mut W) -> Sent
    requires { (layout_of file.now ≡ Some l) × Due file.now sent due.old × (due.old ≡ 1) }
    ensures done { Done file.now result }
    ensures handed { Handed (W.contents output.old) (W.contents output.new) (joined (drop 1 (pieces_of file.now))) result.failed }
{
    let mut floats = [0.0; 6464];
    file_layout::read_lists(file, l, &mut floats);
    each_job(file, l, &floats, sent, due, output)
}

// The jobs in order: the lines of job k are piece k + 1. The curve's faults are worked once for all. The lists
// are those of the file, whose header is sent.
fn each_job<W: Write>(
    file: &[u8],
    l: Layout,
    floats: &[f64],
    sent: Sent,
    due: &mut usize,
    output: &mut W,
) -> Sent
    requires { (layout_of file.now ≡ Some l) × HoldsLists file.now l floats.now × Due file.now sent due.old × (due.old ≡ 1) }
    ensures done { Done file.now result }
    ensures handed { Handed (W.contents output.old) (W.contents output.new) (joined (drop 1 (pieces_of file.now))) result.failed }
{
    let curve = file_output::file_curve_faults(file, l, floats);
    let n_jobs = (l.jobs.length / 40) as usize;
    let mut out = [0u8; 131072];
    let mut last = sent;
    for k in 0..n_jobs {
        let n = file_output::lines_on(file, l, floats, curve, k, &mut out);
        last = sent::send(last, due, &out[..n], output);
        if sent::failed(last) {
            return last;
        }
    }
    last
}
