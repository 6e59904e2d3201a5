// The run file: what the program prints, piece by piece.
ghost use Rattle.std.specs.Prelude.{◌≡◌, length};
ghost use Rattle.calstwid_exports.specs.Reports.{count_report_of};
ghost use Rattle.hullwhite_transitions.specs.Written.{stored_of};
ghost use Rattle.calstwid_exports.specs.Piece.{piece_outcome};

use super::reports;
use super::reports::CountReport;
use refusals::Refusal;

// Piece k of what the program prints for the file, written over the front of `out`: 0 is the header, or `refused 1`, and k +
// 1 the lines of job k; behind the last there are no bytes. An output that is too short for the longest piece is left as it
// was.
#[unsafe(no_mangle)]
pub extern "C" fn calstwid_piece(file: &[u8], k: usize, out: &mut [u8]) -> CountReport
    ensures answer { result ≡ count_report_of (piece_outcome file.now k (length out.old)) }
    ensures output { out.new ≡ stored_of (piece_outcome file.now k (length out.old)) out.old }
{
    let is_short = out.len() < 131072;
    if is_short {
        return reports::count_report(Err(Refusal::Size), 0);
    }
    let n = file_output::piece(file, k, out);
    reports::count_report(Ok(()), n as u64)
}
