use crate::rounding::{nearest_whole, three_figures};
use crate::units::*;
use std::test::Fail;

#[test]
fn quantities_end_at_their_most(rt: HostRuntime) {
    assert!(rt; Kilograms::new(200_000_000_000).is_some());
    assert!(rt; Kilograms::new(200_000_000_001).is_none());
    assert!(rt; Tonnes::new(1_000_000_000_000).is_some());
    assert!(rt; Tonnes::new(1_000_000_000_001).is_none());
    assert!(rt; Production::new(100_000_000_000).is_some());
    assert!(rt; Production::new(100_000_000_001).is_none());
    assert!(rt; Standard::new(10_000_000).is_some());
    assert!(rt; Standard::new(10_000_001).is_none());
    assert!(rt; Megawatts::new(1_000).is_some());
    assert!(rt; Megawatts::new(1_001).is_none());
    assert!(rt; Quotient::new(10_000_000_000_000_000_000, 1).is_some());
    assert!(rt; Quotient::new(10_000_000_000_000_000_001, 1).is_none());
    assert!(rt; Quotient::new(1, 0).is_none());
}

#[test]
fn production_keeps_three_figures(rt: HostRuntime) -> Result<(), Fail> {
    let table = [
        (0, 0),
        (999, 999),
        (1_000, 1_000),
        (1_004, 1_000),
        (1_005, 1_010),
        (9_995, 10_000),
        (100_000_000_000, 100_000_000_000),
    ];
    for (exact, rounded) in table {
        let production = Production::new(exact).ok_or(exact)?;
        assert_eq!(rt; production.rounded().thousandths, rounded);
    }
    Ok(())
}

#[test]
fn quotients_round_half_up(rt: HostRuntime) -> Result<(), Fail> {
    let table = [
        (1, 2, 1),
        (3, 2, 2),
        (1, 3, 0),
        (10_000_000_000_000_000_000, 1, 10_000_000_000_000_000_000),
    ];
    for (num, den, nearest) in table {
        let quotient = Quotient::new(num, den).ok_or(num)?;
        assert_eq!(rt; nearest_whole(quotient), nearest);
    }
    Ok(())
}

#[test]
fn quotients_keep_three_figures(rt: HostRuntime) -> Result<(), Fail> {
    let table = [
        (4_139_995, 10, 414_000),
        (6_814, 10, 681),
        (999_499, 1_000, 999),
        (9_995, 10, 1_000),
    ];
    for (num, den, figures) in table {
        let quotient = Quotient::new(num, den).ok_or(num)?;
        assert_eq!(rt; three_figures(quotient), figures);
    }
    Ok(())
}

#[test]
fn tonnes_round_half_up(rt: HostRuntime) -> Result<(), Fail> {
    let table = [(499, 0), (500, 1), (1_499, 1), (1_500, 2)];
    for (kg, tonnes) in table {
        let mass = Kilograms::new(kg).ok_or(kg)?;
        assert_eq!(rt; mass.in_tonnes().tonnes, tonnes);
    }
    Ok(())
}
