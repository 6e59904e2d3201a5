// A run file as it was read, and how much of its output has been sent. The fields are this module's own: a file comes
// from `receive` alone, and nothing is sent, or said to be, but by `send`, which has the file from the state it is given.
ghost use Rattle.std.specs.Prelude.{◌≡◌, ◌+◌, ◌<◌, ◌≤◌, length, take};
ghost use Rattle.std.specs.Io.KnownBytes.{Appends, Consumes};
ghost use Rattle.file_output.specs.Pieces.{pieces_of, piece_of};
ghost use Rattle.file_serving.specs.Sending.{file_of, Due, SameFile, Handed};

use std::io::{Read, Write};

#[derive(Clone, Copy)]
pub struct Sent {
    // One byte more than a run file may have, so that a longer one is seen to be longer.
    bytes: [u8; 65537],
    length: usize,
    // The piece of the output that is next, from 0: those before it have been handed to the call that writes.
    next: usize,
    // Whether the last such call failed.
    failed: bool,
}

// The input to its end or to the buffer's, which is past what a file may have; nothing of its output is sent yet. A
// read that fails ends the input, so a file cut short is served as it stands.
pub fn receive<R: Read>(input: &mut R) -> Sent
    ensures due { Due (file_of result) result 0 }
    ensures read { Consumes (R.remaining input.old) (R.remaining input.new) (file_of result) }
{
    let mut bytes = [0u8; 65537];
    let length = file_layout::fill(input, &mut bytes);
    Sent {
        bytes,
        length,
        next: 0,
        failed: false,
    }
}

pub fn bytes(sent: Sent) -> [u8; 65537]
    ensures { result ≡ sent.bytes }
{
    sent.bytes
}

pub fn length(sent: Sent) -> usize
    ensures { result ≡ sent.length }
{
    sent.length
}

pub fn failed(sent: Sent) -> bool
    ensures { result ≡ sent.failed }
{
    sent.failed
}

// The one call that writes: the piece of the file's output that is due, behind no write that failed. A caller that
// sends a file's pieces from the first on, each as it was worked, has both. A state may be copied, `due` may not: once a
// piece is sent, an older state is not due any more.
pub fn send<W: Write>(sent: Sent, due: &mut usize, text: &[u8], output: &mut W) -> Sent
    requires { Due (file_of sent) sent due.old × (due.old < length (pieces_of (file_of sent))) × (text.now ≡ piece_of (file_of sent) due.old) }
    ensures next { SameFile sent result × (result.next ≡ sent.next + 1) × (due.new ≡ result.next) }
    ensures handed { Handed (W.contents output.old) (W.contents output.new) text.now result.failed }
{
    let failed = hand(text, output);
    *due += 1;
    let mut after = sent;
    after.next = sent.next + 1;
    after.failed = failed;
    after
}

// Hands all of the text to the writer, or stops at the first write that takes nothing or fails, and answers whether
// one did. How far it has come only the writes tell, so that no range or chunk could stand for the loop.
fn hand<W: Write>(text: &[u8], output: &mut W) -> bool
    ensures { Handed (W.contents output.old) (W.contents output.new) text.now result }
{
    let mut done = 0;
    while done < text.len() {
        let n = took(&text[done..], output);
        if n == 0 {
            return true;
        }
        done += n;
    }
    false
}

// One write: how many bytes of the text the writer took, 0 where it failed.
fn took<W: Write>(text: &[u8], output: &mut W) -> usize
    ensures bound { result ≤ length text.now }
    ensures written { Appends (W.contents output.old) (W.contents output.new) (take result text.now) }
{
    match output.write(text) {
        Ok(n) => n,
        Err(_) => 0,
    }
}
