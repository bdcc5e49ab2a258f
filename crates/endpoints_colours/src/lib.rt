// The two endpoints of a partition, and the colours, values and alphas that they are made of: no
// code.
#![tactic(auto)]

#[derive(Clone, Copy, Debug, Default, PartialEq, Eq, Hash)]
pub enum Mark {
    #[default]
    Ldr,
    Hdr,
}

// The two endpoints of one partition. LDR ones lie in 0..255, HDR ones in 0..4095. They are eight
// fields, and not two colours, as the definitions and theorems of specs/ name them so.
#[derive(Clone, Copy, Debug, Default, PartialEq, Eq, Hash)]
pub struct Endpoints {
    pub r0: u16,
    pub g0: u16,
    pub b0: u16,
    pub a0: u16,
    pub r1: u16,
    pub g1: u16,
    pub b1: u16,
    pub a1: u16,
    pub color: Mark,
    pub alpha: Mark,
}

// One endpoint: a colour with its alpha. It is no case of a generic record with the texels of
// `channels`, since the definitions `rgba`, `each`, `ldr` and `contracted` are stated over it.
#[derive(Clone, Copy, Debug, PartialEq, Eq, Hash)]
pub struct Rgba {
    pub r: u16,
    pub g: u16,
    pub b: u16,
    pub a: u16,
}

// The values v0 to v7 of which a mode makes its endpoints. A mode takes the first 2, 4, 6 or 8.
// They are eight fields and no array, as the definitions `values_at`, `endpoints_of` and others
// name them.
#[derive(Clone, Copy, Debug, PartialEq, Eq, Hash)]
pub struct Values {
    pub v0: u8,
    pub v1: u8,
    pub v2: u8,
    pub v3: u8,
    pub v4: u8,
    pub v5: u8,
    pub v6: u8,
    pub v7: u8,
}

// The alphas of two endpoints, and their mark.
#[derive(Clone, Copy, Debug, PartialEq, Eq, Hash)]
pub struct Alphas {
    pub first: u16,
    pub second: u16,
    pub mark: Mark,
}
