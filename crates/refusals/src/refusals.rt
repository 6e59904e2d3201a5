// How a call is turned down: the refusals of documents 01 and 02, each under its number.
ghost use Rattle.std.specs.Prelude.{◌≡◌};
ghost use Rattle.refusals.specs.Refusals.{number_of, rule, and_rule, first_of, reported_price, finishing};

// Why a call is turned down, in the order in which it is met.
#[derive(Clone, Copy, Debug, PartialEq, Eq)]
pub enum Refusal {
    Size,
    NotFinite,
    MeanReversion,
    Order,
    Times,
    Domain,
    ZeroSeed,
    Empty,
    SeveralPillars,
    OffCurve,
    NanReached,
    NoBracket,
    FlatDerivative,
    NoSignChange,
    Overflow,
}

// A refusal's number in document 01, or in document 02.
impl From<Refusal> for u64 {
    ghost from_gives = { λ refusal n. n ≡ number_of refusal };

    fn from(refusal: Refusal) -> u64 {
        match refusal {
            Refusal::Size => 1,
            Refusal::NotFinite => 2,
            Refusal::MeanReversion => 3,
            Refusal::Order => 4,
            Refusal::Times => 5,
            Refusal::Domain => 6,
            Refusal::ZeroSeed => 14,
            Refusal::Empty => 7,
            Refusal::SeveralPillars => 15,
            Refusal::OffCurve => 8,
            Refusal::NanReached => 9,
            Refusal::NoBracket => 10,
            Refusal::FlatDerivative => 11,
            Refusal::NoSignChange => 12,
            Refusal::Overflow => 13,
        }
    }
}

// A rule, and whether it applies to the call.
#[derive(Clone, Copy)]
pub struct Rule {
    pub refusal: Refusal,
    pub applies: bool,
}

impl Refusal {
    // The rule that turns a call down so.
    pub fn when(self, applies: bool) -> Rule
        ensures { result ≡ rule self applies }
    {
        Rule {
            refusal: self,
            applies,
        }
    }
}

// One rule more, after those that came to `earlier`: the first that applies is the answer.
pub fn and_rule(
    earlier: Result<(), Refusal>,
    refusal: Refusal,
    applies: bool,
) -> Result<(), Refusal>
    ensures { result ≡ and_rule earlier (rule refusal applies) }
{
    match earlier {
        Err(first) => Err(first),
        Ok(()) => { if applies { Err(refusal) } else { Ok(()) } }
    }
}

// The rules of a call, asked one after the other: the first that applies turns the call down.
pub fn first_of(rules: &[Rule]) -> Result<(), Refusal>
    ensures { result ≡ first_of rules.now }
{
    let mut answer = Ok(());
    for rule in rules {
        answer = and_rule(answer, rule.refusal, rule.applies);
    }
    answer
}

// A value that is not finite is refused, last of all.
pub fn served(value: f64) -> Result<f64, Refusal>
    ensures { result ≡ finishing value }
{
    if math_elementary::is_finite(value) {
        Ok(value)
    } else {
        Err(Refusal::Overflow)
    }
}

// The answer of a call with one value as it is told outside: its number, and the value or +0. Programs in other languages have it
// as it lies here.
#[repr(C)]
#[derive(Clone, Copy, Debug)]
pub struct PriceReport {
    pub answer: u64,
    pub value: f64,
}

impl From<Result<f64, Refusal>> for PriceReport {
    ghost from_gives = { λ price report. report ≡ reported_price price };

    fn from(price: Result<f64, Refusal>) -> PriceReport {
        match price {
            Ok(value) => PriceReport { answer: 0, value },
            Err(refusal) => PriceReport {
                answer: refusal.into(),
                value: 0.0,
            },
        }
    }
}
