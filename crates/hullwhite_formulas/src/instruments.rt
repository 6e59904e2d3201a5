// What is priced, as the numbers that travel together.

// A caplet's or a floorlet's own numbers.
#[derive(Clone, Copy)]
pub struct Optionlet {
    pub strike: f64,
    pub start: f64,
    pub end: f64,
}
