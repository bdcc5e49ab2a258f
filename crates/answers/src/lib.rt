// What calls answer, each with its number, and which of the numbers a block gives that breaks a rule.
#![tactic(auto)]

ghost use Rattle.std.specs.Prelude.{◌≡◌};
ghost use Rattle.answers.specs.Answers.{is_bad};
ghost use Rattle.answers.specs.Results.{refusal_number, rule_number, verdict_number, refused, answered};

// Why a call is refused: nothing is written.
#[derive(Clone, Copy, Debug, PartialEq, Eq, Hash)]
pub enum Refusal {
    BlockLength = 20,
    Footprint = 21,
    OutputTooShort = 22,
    Options = 23,
    ImageSide = 30,
    DataLength = 31,
    Position = 32,
    NoBlocks = 33,
    PastTheEnd = 34,
}

// The first rule that a block breaks, which is then painted magenta. Only the standard's reading
// has one on the extent of a void block.
#[derive(Clone, Copy, Debug, PartialEq, Eq, Hash)]
pub enum Rule {
    ReservedMode = 10,
    GridTooLarge = 11,
    TooManyWeights = 12,
    WeightBits = 13,
    DualPlaneOfFour = 14,
    TooManyValues = 15,
    TooLittleRoom = 16,
    BadExtent = 17,
}

// What a painted block is.
#[derive(Clone, Copy, Debug, PartialEq, Eq, Hash)]
pub enum Verdict {
    Legal,
    VoidExtent,
    Broken(Rule),
}

impl From<Refusal> for usize {
    ghost from_gives = { λ refusal number. number ≡ refusal_number refusal };

    fn from(refusal: Refusal) -> usize {
        refusal as usize
    }
}

impl From<Rule> for usize {
    ghost from_gives = { λ rule number. number ≡ rule_number rule };

    fn from(rule: Rule) -> usize {
        rule as usize
    }
}

impl From<Verdict> for usize {
    ghost from_gives = { λ verdict number. number ≡ verdict_number verdict };

    fn from(verdict: Verdict) -> usize {
        match verdict {
            Verdict::Legal => 0,
            Verdict::VoidExtent => 1,
            Verdict::Broken(rule) => usize::from(rule),
        }
    }
}

// 0, or the number of the refusal.
pub fn refusal_number(outcome: Result<(), Refusal>) -> usize
    ensures { result ≡ refused outcome }
{
    match outcome {
        Ok(()) => 0,
        Err(reason) => usize::from(reason),
    }
}

// The number that a call for a block answers.
pub fn answer_number(outcome: Result<Verdict, Refusal>) -> usize
    ensures { result ≡ answered outcome }
{
    match outcome {
        Ok(verdict) => usize::from(verdict),
        Err(refusal) => usize::from(refusal),
    }
}

// Whether the answer of a block says that it breaks a rule. It takes any number, and no `Verdict`:
// docs/PROMISES.md promises it, by the definition `is_bad`, of every number.
pub fn is_bad(answer: usize) -> bool
    ensures { result ≡ is_bad answer }
{
    Rule::ReservedMode as usize <= answer
}
