// The nine lists of a run file, read into one array of floats, in which each has its place.
ghost use Rattle.std.specs.Prelude.{◌≡◌, ◌+◌, ◌/◌, ◌<◌, ◌≤◌, length, Some};
ghost use Rattle.file_layout.specs.Layout.{layout_of};
ghost use Rattle.file_layout.specs.Request.{request_of};
ghost use Rattle.file_layout.specs.Lists.{number, list_of, HoldsLists, column_on, column_at};

use crate::parts::{Layout, Part};
use crate::records;

// Which list.
#[derive(Clone, Copy, Debug, PartialEq, Eq)]
pub enum Which {
    PillarTimes,
    PillarSigmas,
    CurveTimes,
    CurveFactors,
    Payments,
    Accruals,
    Owns,
    GridTimes,
    Draws,
}

impl Which {
    const ALL: [Which; 9] = [
        Which::PillarTimes,
        Which::PillarSigmas,
        Which::CurveTimes,
        Which::CurveFactors,
        Which::Payments,
        Which::Accruals,
        Which::Owns,
        Which::GridTimes,
        Which::Draws,
    ];

    fn column(self, l: Layout) -> Column
        ensures { result ≡ column_at l (number self) }
    {
        match self {
            Which::PillarTimes => Column::new(l.pillars, 16, 0, 0),
            Which::PillarSigmas => Column::new(l.pillars, 16, 1, 64),
            Which::CurveTimes => Column::new(l.curve, 16, 0, 128),
            Which::CurveFactors => Column::new(l.curve, 16, 1, 2176),
            Which::Payments => Column::new(l.coupons, 24, 0, 4224),
            Which::Accruals => Column::new(l.coupons, 24, 1, 4288),
            Which::Owns => Column::new(l.coupons, 24, 2, 4352),
            Which::GridTimes => Column::new(l.grid, 16, 0, 4416),
            Which::Draws => Column::new(l.grid, 16, 1, 5440),
        }
    }
}

// A list is a column of its part: of records of `width` bytes, the float number `field`. It stands from `place` on.
#[derive(Clone, Copy)]
pub struct Column {
    part: Part,
    width: usize,
    field: usize,
    place: usize,
}

impl Column {
    fn new(part: Part, width: usize, field: usize, place: usize) -> Self
        ensures { result ≡ column_on part width field place }
    {
        Column {
            part,
            width,
            field,
            place,
        }
    }

    // The place behind the list. A caller has a column of records that are not empty, with a place in the array.
    fn end(self) -> usize
        requires { (0 < self.width) × (self.place ≤ 6464) }
        ensures { result ≡ self.place + self.part.length / self.width }
    {
        self.place + self.part.length as usize / self.width
    }
}

// All nine, each at its place. The layout is the one that `lay_out` gave of this file; a caller lends room for
// the longest lists that a file may have.
pub fn read_lists(file: &[u8], l: Layout, floats: &mut [f64])
    requires { (layout_of file.now ≡ Some l) × (length floats.old ≡ 6464) }
    ensures { HoldsLists file.now l floats.new }
{
    for which in Which::ALL {
        let c = which.column(l);
        let list = &mut floats[c.place..c.end()];
        records::column(file, c.part, c.width, c.field, list);
    }
}

// A list of a run file, where `read_lists` has put it: a caller hands on the floats that were read from this
// very file.
pub fn list<'a>(file: &[u8], l: Layout, floats: &'a [f64], which: Which) -> &'a [f64]
    requires { (layout_of file.now ≡ Some l) × HoldsLists file.now l floats.now }
    ensures { result.now ≡ list_of (request_of file.now l) (number which) }
{
    let c = which.column(l);
    &floats[c.place..c.end()]
}
