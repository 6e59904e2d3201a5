// The lines that the program prints.
ghost use Rattle.std.specs.Prelude.{◌≡◌, ◌+◌, ◌≤◌, length};
ghost use Rattle.file_fields.specs.Text.{Begins, pasted};
ghost use Rattle.file_fields.specs.Fields.{bits_of};
ghost use Rattle.file_lines.specs.Lines.{header, refused_line, line_of};

#[derive(Clone, Copy)]
pub struct Line {
    pub job: u64,
    pub kind: u64,
    pub answer: u64,
    pub value: f64,
    pub note: u64,
}

// Puts the header at the front of the buffer, and answers how many bytes it has. A caller has room for 128 bytes.
pub fn write_header(out: &mut [u8]) -> usize
    requires { 128 ≤ length out.old }
    ensures { Begins result header out.old out.new }
{
    file_fields::put(b"job kind answer value note", b'\n', out)
}

// The same with the line that stands for a whole file. A caller has room for 128 bytes.
pub fn write_refused(out: &mut [u8]) -> usize
    requires { 128 ≤ length out.old }
    ensures { Begins result refused_line out.old out.new }
{
    file_fields::put(b"refused 1", b'\n', out)
}

// Puts a line at place `at`, and answers the place behind it. A caller has room for 128 bytes there, more than
// the longest line has.
// The buffer comes with a place: `file_output` puts the points of a path one behind another in one buffer.
pub fn write_line(l: Line, out: &mut [u8], at: usize) -> usize
    requires { at + 128 ≤ length out.old }
    ensures end { (result ≡ at + length (line_of l.job l.kind l.answer (bits_of l.value) l.note)) × (result ≤ at + 128) }
    ensures output { out.new ≡ pasted out.old at (line_of l.job l.kind l.answer (bits_of l.value) l.note) }
{
    let mut end = at;
    end += file_fields::put_decimal(l.job, b' ', &mut out[end..]);
    end += file_fields::put_decimal(l.kind, b' ', &mut out[end..]);
    end += file_fields::put_decimal(l.answer, b' ', &mut out[end..]);
    end += file_fields::put_hex(file_fields::bits_of(l.value), b' ', &mut out[end..]);
    end += file_fields::put_decimal(l.note, b'\n', &mut out[end..]);
    end
}
