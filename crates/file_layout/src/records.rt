// What stands in the parts of a run file: alpha, the columns of floats, and the jobs.
ghost use Rattle.std.specs.Prelude.{◌≡◌, ◌+◌, ◌*◌, ◌/◌, ◌<◌, ◌≤◌, length};
ghost use Rattle.file_layout.specs.Bytes.{float_at};
ghost use Rattle.file_layout.specs.Layout.{end_of};
ghost use Rattle.file_layout.specs.Request.{column_of, job_at};

use crate::bytes;
use crate::parts::Part;

// A job's kind, and its four floats, whose meaning is the kind's.
// The kind is the file's own number, which is printed again: `file_jobs` tells apart what each asks.
#[derive(Clone, Copy)]
pub struct Job {
    pub kind: u64,
    pub a: f64,
    pub b: f64,
    pub c: f64,
    pub d: f64,
}

// Alpha, the one float of its part. A caller has a part that lies within the file: of a run file `lay_out` has
// seen it.
pub fn alpha(file: &[u8], model: Part) -> f64
    requires { model.offset + 8 ≤ length file.now }
    ensures { result ≡ float_at file.now model.offset }
{
    bytes::float_at(file, model.offset as usize)
}

// Of every record of a part, `width` bytes each, the float number `field`, counted from 0. A caller has a part
// that lies within the file (of a run file `lay_out` has seen it), asks for a field that a record has, and
// lends a place for each record.
pub fn column(file: &[u8], part: Part, width: usize, field: usize, out: &mut [f64])
    requires part_in_bounds { end_of part ≤ length file.now }
    requires field_bound { 8 * field + 8 ≤ width }
    requires out_len { length out.old ≡ part.length / width }
    ensures { out.new ≡ column_of file.now part width field }
{
    for (i, x) in out.iter_mut().enumerate() {
        *x = bytes::float_at(file, part.offset as usize + width * i + 8 * field);
    }
}

// Job i of the part, counted from 0. `lay_out` has seen that the part lies within the file; a caller goes
// through the jobs that are in it.
pub fn nth_job(file: &[u8], jobs: Part, i: usize) -> Job
    requires jobs_in_bounds { end_of jobs ≤ length file.now }
    requires i_bound { i < jobs.length / 40 }
    ensures { result ≡ job_at file.now (jobs.offset + 40 * i) }
{
    job_at(file, jobs.offset as usize + 40 * i)
}

// The job that starts at place `at`: a caller has one that ends within the part.
fn job_at(file: &[u8], at: usize) -> Job
    requires { at + 40 ≤ length file.now }
    ensures { result ≡ job_at file.now at }
{
    Job {
        kind: bytes::word(file, at),
        a: bytes::float_at(file, at + 8),
        b: bytes::float_at(file, at + 16),
        c: bytes::float_at(file, at + 24),
        d: bytes::float_at(file, at + 32),
    }
}
