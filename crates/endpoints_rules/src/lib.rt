// The sixteen endpoint modes as the standard and the original have them: definitions, and the
// numbers that they speak of. No code.
#![tactic(auto)]

// A colour without its alpha.
#[derive(Clone, Copy, Debug, PartialEq, Eq, Hash)]
pub struct Rgb {
    pub r: u16,
    pub g: u16,
    pub b: u16,
}

// The numbers of mode 7: red, green and blue or their differences to red, and the scale. Their
// bounds are no part of the type: specs/ defines them for values that are no bytes too.
#[derive(Clone, Copy, Debug, PartialEq, Eq, Hash)]
pub struct Seven {
    pub r: u16,
    pub g: u16,
    pub b: u16,
    pub s: u16,
}
