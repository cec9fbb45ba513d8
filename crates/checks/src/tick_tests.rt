// Numbers brought to ticks, at ties and at the ends of the number types.
use ticks::{Decimals, Unit, half_ticks, step_ticks, to_ticks};

#[test]
fn coordinates_go_to_the_nearest_tick(rt: HostRuntime) {
    let cases = [
        (2500, Decimals::Six, Unit::Millimetre, 1),
        (-2500, Decimals::Six, Unit::Millimetre, -1),
        (2499, Decimals::Six, Unit::Millimetre, 0),
        (-2499, Decimals::Six, Unit::Millimetre, 0),
        (7500, Decimals::Six, Unit::Millimetre, 2),
        (1, Decimals::Four, Unit::Inch, 1),
        (25, Decimals::Four, Unit::Millimetre, 1),
        (24, Decimals::Four, Unit::Millimetre, 0),
        (1500024, Decimals::Four, Unit::Millimetre, 30_000),
        (1500025, Decimals::Four, Unit::Millimetre, 30_001),
        (-1500025, Decimals::Four, Unit::Millimetre, -30_001),
        (999_999_999_999, Decimals::Six, Unit::Inch, 5_080_000_000),
        (
            -999_999_999_999,
            Decimals::Five,
            Unit::Inch,
            -50_800_000_000,
        ),
        (
            i64::MAX,
            Decimals::Four,
            Unit::Inch,
            4_685_472_994_722_226_110,
        ),
        (
            i64::MIN,
            Decimals::Four,
            Unit::Inch,
            -4_685_472_994_722_226_110,
        ),
    ];
    for (v, decimals, unit, ticks) in cases {
        assert_eq!(rt; to_ticks(v, decimals, unit), ticks, "ticks of a coordinate");
    }
}

#[test]
fn halves_and_steps_go_to_the_nearest_tick(rt: HostRuntime) {
    let cases = [
        (0, Unit::Millimetre, 0, 0),
        (15_000, Unit::Millimetre, 2, 3),
        (200_000, Unit::Millimetre, 20, 40),
        (100, Unit::Inch, 0, 1),
        (9_999_999_999, Unit::Inch, 25_400_000, 50_800_000),
        (
            u64::MAX,
            Unit::Inch,
            46_854_729_947_222_261,
            93_709_459_894_444_522,
        ),
    ];
    for (millionths, unit, half, step) in cases {
        assert_eq!(rt; half_ticks(millionths, unit), half, "half of a size");
        assert_eq!(rt; step_ticks(millionths, unit), step, "a repeat step");
    }
}
