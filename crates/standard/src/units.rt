//! Figures on the way to a limit. Nothing cited here names these types, so that definitions above may.
ghost use Rattle.std.specs.Prelude.{◌+◌, ◌<◌, ◌≤◌};
ghost use Rattle.quantity.specs.Ranges.{most_kilograms};
ghost use Rattle.standard.specs.Ranges.{most_contributed, most_capacity, most_produced};

/// What a line contributes, in ten-millionths of a tonne.
#[derive(Clone, Copy)]
pub struct Contribution {
    pub ten_millionths: u64,
    ghost range: { ten_millionths ≤ most_contributed },
}

/// A unit's capacity in megawatts: what triggers the decreasing standard, and the rest.
#[derive(Clone, Copy)]
pub struct Capacity {
    pub triggering: u64,
    pub other: u64,
    ghost range: { triggering + other ≤ most_capacity },
}

impl Capacity {
    /// No megawatts.
    pub(crate) const NONE: Capacity = Capacity {
        triggering: 0,
        other: 0,
    };
}

/// What a reference year has of an activity: kilograms emitted, and production in thousandths.
#[derive(Clone, Copy)]
pub struct ReferenceYear {
    pub year: u64,
    pub kg: u64,
    pub thousandths: u64,
    ghost emitted: { kg ≤ most_kilograms },
    ghost made: { (0 < thousandths) × (thousandths ≤ most_produced) },
}

/// The reference years of an activity, in order.
#[derive(Clone, Copy)]
pub enum ReferenceYears {
    One(ReferenceYear),
    Two(ReferenceYear, ReferenceYear),
}
