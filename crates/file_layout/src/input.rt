// Bytes from a reader, into a list that is lent.
ghost use Rattle.std.specs.Prelude.{◌≤◌, length, take};
ghost use Rattle.std.specs.Io.KnownBytes.{Consumes};

use std::io::Read;

// Reads until the list is full, the input ends or a read fails, and answers how many bytes it put at the front.
// A `while` on a running place: how far each read comes is the reader's to say.
pub fn fill<R: Read>(input: &mut R, out: &mut [u8]) -> usize
    ensures bound { result ≤ length out.new }
    ensures read { Consumes (R.remaining input.old) (R.remaining input.new) (take result out.new) }
{
    let mut done = 0;
    while done < out.len() {
        let n = got(input, &mut out[done..]);
        if n == 0 {
            break;
        }
        done += n;
    }
    done
}

// One read: how many bytes it put at the front, 0 at the end of the input and where it failed.
fn got<R: Read>(input: &mut R, out: &mut [u8]) -> usize
    ensures bound { result ≤ length out.new }
    ensures read { Consumes (R.remaining input.old) (R.remaining input.new) (take result out.new) }
{
    match input.read(out) {
        Ok(n) => n,
        Err(_) => 0,
    }
}
