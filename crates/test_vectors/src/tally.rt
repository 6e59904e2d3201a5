// How many records each function had, and how many of them differed.
ghost use Rattle.std.specs.Prelude.{◌≡◌, ◌/◌, ◌<◌, length, get_or, set};
ghost use Rattle.test_vectors.specs.Match.{agrees_of};
ghost use Rattle.test_vectors.specs.Counting.{slot_of, no_line, counted, noted, records_from, differing_from};

use crate::record::Record;
use std::fmt;

// How many records there were, and how many of them differ. Each stays at its greatest, where no input reaches.
#[derive(Clone, Copy, Debug, Default, PartialEq, Eq)]
pub struct Count {
    pub seen: u64,
    pub differ: u64,
}

impl Count {
    fn add(&mut self, agrees: bool)
        ensures { self.new ≡ counted agrees self.old }
    {
        self.seen = self.seen.saturating_add(1);
        if !agrees {
            self.differ = self.differ.saturating_add(1);
        }
    }
}

impl fmt::Display for Count {
    fn fmt<W: fmt::Write>(&self, f: &mut fmt::Formatter<W>) -> fmt::Result {
        write!(f, "{} vectors, {} differ", self.seen, self.differ)
    }
}

// A function's count, and where the first record that differs stands, counted from 0.
#[derive(Clone, Copy, Debug, Default, PartialEq, Eq)]
pub struct Line {
    pub count: Count,
    pub first: Option<u64>,
}

impl Line {
    // One record more, which stands at `at`.
    fn add(&mut self, agrees: bool, at: u64)
        ensures { self.new ≡ noted agrees at self.old }
    {
        self.count.add(agrees);
        if !agrees {
            self.first = self.first.or(Some(at));
        }
    }
}

impl fmt::Display for Line {
    fn fmt<W: fmt::Write>(&self, f: &mut fmt::Formatter<W>) -> fmt::Result {
        write!(f, "{}", self.count)?;
        match self.first {
            Some(first) => write!(f, ", first at record {first}"),
            None => Ok(()),
        }
    }
}

#[derive(Clone, Copy, Debug, Default, PartialEq, Eq)]
pub struct Tally {
    pub total: Count,
    // by the function's number; 0 is for numbers that no function has
    pub lines: [Line; 15],
    // the bytes after the last whole record
    pub rest: u64,
}

impl Tally {
    // Counts the records in s.
    pub fn add_all(&mut self, s: &[u8])
        ensures records { self.new.total.seen ≡ records_from (length s.now / 40) self.old.total.seen }
        ensures differing { self.new.total.differ ≡ differing_from s.now 0 (length s.now / 40) self.old.total.differ }
    {
        for i in 0..s.len() / 40 {
            self.add(Record::parsed(s, 40 * i));
        }
        self.rest = (s.len() % 40) as u64;
    }

    // One record more. A record that does not agree is counted among those that differ.
    fn add(&mut self, r: Record)
        ensures total { self.new.total ≡ counted (agrees_of r.function r.a r.b r.c r.expected) self.old.total }
        ensures lines { self.new.lines ≡ set self.old.lines (slot_of r.function) (noted (agrees_of r.function r.a r.b r.c r.expected) self.old.total.seen (get_or self.old.lines (slot_of r.function) no_line)) }
    {
        let agrees = r.agrees();
        let at = self.total.seen;
        self.lines[slot_of(r.function)].add(agrees, at);
        self.total.add(agrees);
    }
}

fn slot_of(function: u64) -> usize
    ensures { (result ≡ slot_of function) × (result < 15) }
{
    if function < 15 { function as usize } else { 0 }
}
