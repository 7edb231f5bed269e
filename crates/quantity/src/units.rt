//! The quantities, each with the range that its values keep.
//! Nothing cited here names these types, so that definitions above may.
ghost use Rattle.std.specs.Prelude.{◌<◌, ◌≤◌};
ghost use Rattle.quantity.specs.Ranges.{most_kilograms, most_tonnes, most_thousandths, most_ten_thousandths, most_megawatts, most_numerator, Within, Divided};

/// Kilograms of a gas, or of carbon dioxide equivalent.
#[derive(Clone, Copy, Debug, PartialEq, Eq)]
pub struct Kilograms {
    pub kg: u64,
    ghost range: { kg ≤ most_kilograms },
}

/// Whole tonnes of carbon dioxide equivalent.
#[derive(Clone, Copy, Debug, PartialEq, Eq)]
pub struct Tonnes {
    pub tonnes: u64,
    ghost range: { tonnes ≤ most_tonnes },
}

/// Thousandths of a unit of production.
#[derive(Clone, Copy, Debug, PartialEq, Eq)]
pub struct Production {
    pub thousandths: u64,
    ghost range: { thousandths ≤ most_thousandths },
}

/// An output-based standard, in ten-thousandths of a tonne per unit of production.
#[derive(Clone, Copy, Debug, PartialEq, Eq)]
pub struct Standard {
    pub ten_thousandths: u64,
    ghost range: { ten_thousandths ≤ most_ten_thousandths },
}

/// Megawatts of capacity that a unit gained in a year.
#[derive(Clone, Copy, Debug, PartialEq, Eq)]
pub struct Megawatts {
    pub mw: u64,
    ghost range: { mw ≤ most_megawatts },
}

/// An exact quotient of whole numbers, before it is rounded.
#[derive(Clone, Copy)]
pub struct Quotient {
    pub num: u64,
    pub den: u64,
    ghost small: { num ≤ most_numerator },
    ghost divides: { 0 < den },
}

impl Kilograms {
    pub const MOST: u64 = 200_000_000_000;

    // Five `new` and no generic one: a field's name tells its scale, and with a trait there would be five impls beside the five.
    /// So many kilograms, unless they pass the most.
    pub fn new(kg: u64) -> Option<Kilograms>
        ensures { Within (λ q. q.kg) most_kilograms kg result }
    {
        if kg > Self::MOST {
            return None;
        }
        Some(Kilograms { kg })
    }
}

impl Tonnes {
    pub const MOST: u64 = 1_000_000_000_000;

    /// So many tonnes, unless they pass the most.
    pub fn new(tonnes: u64) -> Option<Tonnes>
        ensures { Within (λ q. q.tonnes) most_tonnes tonnes result }
    {
        if tonnes > Self::MOST {
            return None;
        }
        Some(Tonnes { tonnes })
    }
}

impl Production {
    pub const MOST: u64 = 100_000_000_000;

    /// So many thousandths of a unit, unless they pass the most.
    pub fn new(thousandths: u64) -> Option<Production>
        ensures { Within (λ q. q.thousandths) most_thousandths thousandths result }
    {
        if thousandths > Self::MOST {
            return None;
        }
        Some(Production { thousandths })
    }
}

impl Standard {
    pub const MOST: u64 = 10_000_000;

    /// So many ten-thousandths of a tonne per unit, unless they pass the most.
    pub fn new(ten_thousandths: u64) -> Option<Standard>
        ensures { Within (λ q. q.ten_thousandths) most_ten_thousandths ten_thousandths result }
    {
        if ten_thousandths > Self::MOST {
            return None;
        }
        Some(Standard { ten_thousandths })
    }
}

impl Megawatts {
    pub const MOST: u64 = 1_000;

    /// So many megawatts, unless they pass the most.
    pub fn new(mw: u64) -> Option<Megawatts>
        ensures { Within (λ q. q.mw) most_megawatts mw result }
    {
        if mw > Self::MOST {
            return None;
        }
        Some(Megawatts { mw })
    }
}

impl Quotient {
    pub const MOST: u64 = 10_000_000_000_000_000_000;

    /// `num / den`, unless `num` passes the most or `den` is 0.
    pub fn new(num: u64, den: u64) -> Option<Quotient>
        ensures { Divided (λ q. q.num) (λ q. q.den) num den result }
    {
        if num > Self::MOST || den == 0 {
            return None;
        }
        Some(Quotient { num, den })
    }
}
