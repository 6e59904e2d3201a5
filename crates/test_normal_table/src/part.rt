// The parts: two printed tables, the digits of mpmath, and rows that are wrong on purpose.
ghost use Rattle.std.specs.Prelude.{◌≡◌, Bool};
ghost use Rattle.test_normal_table.specs.declared.normal.Normal.{Normal};
ghost use Rattle.test_normal_table.specs.Meet.{met_of};
ghost use Rattle.test_normal_table.specs.Parts.{part_met, rows_of};
ghost use Rattle.test_normal_table.specs.Tally.{met_in, missed_in};

use crate::count::Count;
use crate::normal::Normal;
use crate::row::Row;
use crate::tables;
use std::fmt;
use std::io::Print;

#[derive(Clone, Copy, Debug, PartialEq, Eq)]
pub enum Part {
    // to half a unit of the last printed digit of the value
    Cumulative,
    // to half a unit of the last printed digit of the argument: the table gives 1 less the function's value
    Point,
    // to half a unit of the fifteenth digit
    Fine,
    // to half a unit of the tenth
    Coarse,
    // to three quarters of a unit of the fifteenth
    FineWider,
    // a row of each kind whose last digit is one more than the table's, so that none may be met
    Wrong,
}

impl Part {
    pub const ALL: [Part; 6] = [
        Part::Cumulative,
        Part::Point,
        Part::Fine,
        Part::Coarse,
        Part::FineWider,
        Part::Wrong,
    ];

    // The rows of the part, each at x and at -x: how many the function meets, and how many not.
    pub fn counted(self, rt: &impl Print, normal: Normal) -> Count
        ensures met { result.met ≡ met_in (part_met self normal) (rows_of self) }
        ensures missed { result.missed ≡ missed_in (part_met self normal) (rows_of self) }
    {
        let mut count = Count::default();
        for i in 0..self.rows() {
            let row = self.row(i);
            count.add(row.is_met(rt, false, normal));
            count.add(row.is_met(rt, true, normal));
        }
        count
    }

    fn rows(self) -> usize
        ensures { result ≡ rows_of self }
    {
        match self {
            Part::Cumulative => 15,
            Part::Point => 30,
            Part::Fine => 32,
            Part::Coarse => 30,
            Part::FineWider => 32,
            Part::Wrong => 3,
        }
    }

    // The part's i-th row, the rows counted round and round. A table is two lists, as its maker writes it and as
    // specs/Printed.antt and specs/Worked.antt have it.
    fn row(self, i: usize) -> Row
        ensures { (normal : Normal) (negative : Bool) → met_of result.argument result.slack result.scale result.digits result.spread result.unit negative normal ≡ part_met self normal i negative }
    {
        match self {
            Part::Cumulative => Row {
                argument: tables::CUMULATIVE_AT[i % 15],
                slack: 0,
                scale: 100,
                digits: tables::CUMULATIVE[i % 15],
                spread: 2,
                unit: 100_000,
            },
            Part::Point => Row {
                argument: tables::POINT[i % 30],
                slack: 1,
                scale: 1000,
                digits: tables::POINT_OF[i % 30],
                spread: 0,
                unit: 100_000_000_000,
            },
            Part::Fine => Row {
                argument: tables::FINE_AT[i % 32],
                slack: 0,
                scale: 100,
                digits: tables::FINE[i % 32],
                spread: 2,
                unit: 1_000_000_000_000_000,
            },
            Part::Coarse => Row {
                argument: tables::COARSE_AT[i % 30],
                slack: 0,
                scale: 100,
                digits: tables::COARSE[i % 30],
                spread: 2,
                unit: 10_000_000_000,
            },
            Part::FineWider => Row {
                argument: tables::FINE_AT[i % 32],
                slack: 0,
                scale: 100,
                digits: tables::FINE[i % 32],
                spread: 3,
                unit: 1_000_000_000_000_000,
            },
            Part::Wrong => match i % 3 {
                0 => Row {
                    argument: 160,
                    slack: 0,
                    scale: 100,
                    digits: 94521,
                    spread: 2,
                    unit: 100_000,
                },
                1 => Row {
                    argument: 1646,
                    slack: 1,
                    scale: 1000,
                    digits: 95_000_000_000,
                    spread: 0,
                    unit: 100_000_000_000,
                },
                _ => Row {
                    argument: 100,
                    slack: 0,
                    scale: 100,
                    digits: 841_344_746_068_544,
                    spread: 3,
                    unit: 1_000_000_000_000_000,
                },
            },
        }
    }
}

impl fmt::Display for Part {
    fn fmt<W: fmt::Write>(&self, f: &mut fmt::Formatter<W>) -> fmt::Result {
        f.write_str(match self {
            Part::Cumulative => "cumulative table, 15 arguments to 5 decimals, with both signs",
            Part::Point => "percentage points, 30 arguments to 3 decimals, with both signs",
            Part::Fine =>
                "mpmath, 32 arguments from 0 to 3, values to 15 decimals, with both signs",
            Part::Coarse => {
                "mpmath, 30 arguments from 3.1 to 6, values to 10 decimals, with both signs"
            }
            Part::FineWider => "mpmath, the 15 decimals to three quarters of a unit of the last",
            Part::Wrong => {
                "wrong on purpose, by one in the last digit of each kind, so that none may be met"
            }
        })
    }
}
