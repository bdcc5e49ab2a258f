// The choices that a call makes.
#![tactic(auto)]

ghost use Rattle.std.specs.Prelude.{◌≡◌};
ghost use Rattle.options.specs.Base.{base};

// How a block is read where the original and the standard part: the offsets of endpoint mode 11,
// which modes 14 and 15 go through, and the rules on the extent of a void block.
#[derive(Clone, Copy, Debug, Default, PartialEq, Eq, Hash)]
pub enum Reading {
    #[default]
    Crate,
    Standard,
}

// All choices of a call, by value.
#[derive(Clone, Copy, Debug, Default, PartialEq, Eq, Hash)]
pub struct Options {
    pub reading: Reading,
}

// The choices of a call that takes none. It stands beside `Options::default`, since
// docs/PROMISES.md promises it by this name.
pub fn no_options() -> Options
    ensures { result ≡ base }
{
    Options::default()
}
