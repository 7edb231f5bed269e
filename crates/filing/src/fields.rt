//! The fields of a filing as they are handed in: bare numbers, of which nothing is known yet.

/// The head of a filing, in the order of the field codes 1 to 7. Gases are in kilograms.
#[derive(Clone, Copy, Debug, PartialEq, Eq)]
pub struct HeadFields {
    pub facility: u64,
    pub year: u64,
    pub co2: u64,
    pub ch4: u64,
    pub n2o: u64,
    pub sf6: u64,
    pub captured: u64,
}

/// One line of a filing, in the order of the field codes 21 to 27.
#[derive(Clone, Copy, Debug, PartialEq, Eq)]
pub struct LineFields {
    pub kind: u64,
    pub number: u64,
    pub production: u64,
    pub standard: u64,
    pub attributed: u64,
    pub added: u64,
    pub ratio: u64,
}
