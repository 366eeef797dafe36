//! Rounded division and printed numbers, on rows.
use spd_scaled::{ceil_div, floor_div, put_units};

#[test]
fn division_rounds_down_or_up(rt: HostRuntime) {
    let rows: [(i128, i128, i128, i128); 7] = [
        (-7, 2, -4, -3),
        (7, 2, 3, 4),
        (-8, 2, -4, -4),
        (0, 5, 0, 0),
        (-1, 1_000_000, -1, 0),
        (i128::MIN, 1, i128::MIN, i128::MIN),
        (i128::MAX, i128::MAX - 1, 1, 2),
    ];
    for (n, d, floor, ceil) in rows {
        assert_eq!(rt; floor_div(n, d), floor, "floor of {n} / {d}");
        assert_eq!(rt; ceil_div(n, d), ceil, "ceiling of {n} / {d}");
    }
}

#[test]
fn every_digit_is_printed(rt: HostRuntime) {
    let rows: [(i128, u8, &str); 7] = [
        (-1, 9, "-0.000000001"),
        (0, 9, "0.000000000"),
        (12_345_678_901, 9, "12.345678901"),
        (999_900_000_000, 12, "0.999900000000"),
        (-1_000_000_000_000, 12, "-1.000000000000"),
        (i128::MIN, 9, "-170141183460469231731687303715.884105728"),
        (i128::MAX, 12, "170141183460469231731687303.715884105727"),
    ];
    for (n, places, want) in rows {
        let mut buf = [0; 64];
        let len = put_units(n, places, &mut buf);
        assert_eq!(rt; &buf[..len], want.as_bytes(), "{n} at {places} places");
    }
}
