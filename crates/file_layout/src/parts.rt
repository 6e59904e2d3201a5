// The six parts of a run file, and whether they keep the layout.
ghost use Rattle.std.specs.Prelude.{◌≡◌, ◌+◌, ◌*◌, ◌/◌, ◌<◌, ◌≤◌, length};
ghost use Rattle.file_layout.specs.Layout.{pair_at, parts_of, end_of, placed as Layout·placed, records as Layout·records, sized as Layout·sized, known as Layout·known, all_known, layout_of};

use crate::bytes;

// Where a part starts, and how many bytes it has.
#[derive(Clone, Copy)]
pub struct Part {
    pub offset: u32,
    pub length: u32,
}

impl Part {
    fn end(self) -> usize
        ensures { result ≡ end_of self }
    {
        self.offset as usize + self.length as usize
    }

    // Whether the part is whole records of that width, and at most `limit`. A caller gives a width that is not 0.
    fn records(self, width: u32, limit: u32) -> bool
        requires { 0 < width }
        ensures { result ≡ Layout·records width limit self }
    {
        self.length % width == 0 && self.length / width <= limit
    }
}

#[derive(Clone, Copy)]
pub struct Layout {
    pub model: Part,
    pub pillars: Part,
    pub curve: Part,
    pub coupons: Part,
    pub grid: Part,
    pub jobs: Part,
}

impl Layout {
    // Whether the parts stand one behind the other, after the pairs and within the file.
    #[tactic(auto, unfolding(crate::specs::Layout::placed))]
    fn placed(self, size: usize) -> bool
        ensures { result ≡ Layout·placed size self }
    {
        48 <= self.model.offset
            && self.model.end() <= self.pillars.offset as usize
            && self.pillars.end() <= self.curve.offset as usize
            && self.curve.end() <= self.coupons.offset as usize
            && self.coupons.end() <= self.grid.offset as usize
            && self.grid.end() <= self.jobs.offset as usize
            && self.jobs.end() <= size
    }

    // Whether each part is whole records, and not too many.
    #[tactic(auto, unfolding(crate::specs::Layout::sized))]
    fn sized(self) -> bool
        ensures { result ≡ Layout·sized self }
    {
        self.model.length == 8
            && self.pillars.records(16, 64)
            && self.curve.records(16, 2048)
            && self.coupons.records(24, 64)
            && self.grid.records(16, 1024)
            && self.jobs.records(40, 128)
    }
}

// The parts of a file that keeps the layout, and None of one that breaks it.
pub fn lay_out(file: &[u8]) -> Option<Layout>
    ensures { result ≡ layout_of file.now }
{
    if 65536 < file.len() || file.len() < 48 {
        return None;
    }
    let l = parts(file);
    if l.placed(file.len()) && l.sized() && all_known(file, l.jobs) {
        Some(l)
    } else {
        None
    }
}

#[tactic(auto, unfolding(crate::specs::Layout::parts_of))]
// The six pairs. A caller has turned down a file too short for them.
fn parts(file: &[u8]) -> Layout
    requires { 48 ≤ length file.now }
    ensures { result ≡ parts_of file.now }
{
    Layout {
        model: pair(file, 0),
        pillars: pair(file, 1),
        curve: pair(file, 2),
        coupons: pair(file, 3),
        grid: pair(file, 4),
        jobs: pair(file, 5),
    }
}

// Pair k: a caller takes one that the file has.
fn pair(file: &[u8], k: usize) -> Part
    requires { 8 * k + 8 ≤ length file.now }
    ensures { result ≡ pair_at file.now k }
{
    Part {
        offset: bytes::half(file, 8 * k) as u32,
        length: bytes::half(file, 8 * k + 4) as u32,
    }
}

// Whether every job has a kind of document 01, or 13 of document 02. A caller has asked before whether the parts
// are in their places, within the file.
fn all_known(file: &[u8], jobs: Part) -> bool
    requires { end_of jobs ≤ length file.now }
    ensures { result ≡ all_known file.now jobs.offset (jobs.length / 40) }
{
    for i in 0..jobs.length as usize / 40 {
        if !known(bytes::word(file, jobs.offset as usize + 40 * i)) {
            return false;
        }
    }
    true
}

fn known(kind: u64) -> bool
    ensures { result ≡ Layout·known kind }
{
    (1..=13).contains(&kind)
}
