//! Decimals: those that are read, those that are not, and what they count in small units.
use spd_scaled::{Decimal, Scale, put_units, read_decimal, scale};

#[test]
fn decimals_are_read(rt: HostRuntime) {
    let rows: [(&str, bool, u128, i128); 12] = [
        ("1e-3", false, 1, 3),
        (".5", false, 5, 1),
        ("5.", false, 5, 0),
        ("0.50000000000000", false, 5, 1),
        ("+2", false, 2, 0),
        ("-0", false, 0, 0),
        ("-0.000e-9", false, 0, 0),
        ("-12.50E+01", true, 125, 0),
        ("1200", false, 12, -2),
        ("1e99", false, 1, -99),
        (
            "0099999999999999999999.999999999999999999000",
            false,
            99_999_999_999_999_999_999_999_999_999_999_999_999,
            18,
        ),
        ("100000000000000000000000000000000000000000", false, 1, -41),
    ];
    for (text, negative, digits, places) in rows {
        let want = Decimal {
            negative,
            digits,
            places,
        };
        assert_eq!(rt; read_decimal(text.as_bytes()), Some(want), "{text}");
    }
}

#[test]
fn other_texts_are_no_decimals(rt: HostRuntime) {
    let rows: [&str; 16] = [
        "",
        ".",
        "-",
        "+.",
        "e1",
        ".e1",
        "1e",
        "1e+",
        "1e100",
        "--1",
        "+-1",
        "1 ",
        "1.2.3",
        "1f",
        "0x1",
        "100000000000000000000000000000000000001.0",
    ];
    for text in rows {
        assert_eq!(rt; read_decimal(text.as_bytes()), None, "{text}");
    }
}

#[test]
fn decimals_are_scaled(rt: HostRuntime) {
    let rows: [(&str, u8, Result<i128, Scale>); 15] = [
        ("0.1234567890123", 12, Err(Scale::TooFine)),
        ("0.123456789012", 12, Ok(123_456_789_012)),
        ("1e30", 9, Err(Scale::TooLarge)),
        ("-1e31", 0, Err(Scale::TooLarge)),
        ("1e21", 9, Ok(1_000_000_000_000_000_000_000_000_000_000)),
        ("-1e18", 12, Ok(-1_000_000_000_000_000_000_000_000_000_000)),
        ("1000000000000000000.000000000001", 12, Err(Scale::TooLarge)),
        ("1000000000000000000.0000000000001", 12, Err(Scale::TooFine)),
        ("1e99", 12, Err(Scale::TooLarge)),
        ("1e-99", 12, Err(Scale::TooFine)),
        ("0e-99", 12, Ok(0)),
        ("-0.0000005", 6, Err(Scale::TooFine)),
        ("-0.000005", 6, Ok(-5)),
        ("0.5", 0, Err(Scale::TooFine)),
        ("1000", 0, Ok(1000)),
    ];
    for (text, places, want) in rows {
        let got = read_decimal(text.as_bytes()).map(|d| scale(&d, places));
        assert_eq!(rt; got, Some(want), "{text} at {places} places");
    }
}

#[test]
fn any_places_are_scaled(rt: HostRuntime) {
    let rows: [(u128, i128, Result<i128, Scale>); 5] = [
        (0, i128::MIN, Ok(0)),
        (1, i128::MIN, Err(Scale::TooLarge)),
        (u128::MAX, i128::MAX, Err(Scale::TooFine)),
        (u128::MAX, 12, Err(Scale::TooLarge)),
        (u128::MAX, 13, Err(Scale::TooFine)),
    ];
    for (digits, places, want) in rows {
        let d = Decimal {
            negative: false,
            digits,
            places,
        };
        assert_eq!(rt; scale(&d, 12), want, "{digits} with {places} places");
    }
}

#[test]
fn what_is_printed_is_read_back(rt: HostRuntime) {
    let rows: [(i128, u8); 6] = [
        (-1, 9),
        (0, 12),
        (123_456_789_000, 9),
        (1_000_000_000_000_000_000_000_000_000_000, 12),
        (-1_000_000_000_000_000_000_000_000_000_000, 9),
        (-999_999_999_999_999_999_999_999_999_999, 12),
    ];
    for (n, places) in rows {
        let mut buf = [0; 64];
        let len = put_units(n, places, &mut buf);
        let got = read_decimal(&buf[..len]).map(|d| scale(&d, places));
        assert_eq!(rt; got, Some(Ok(n)), "{n} at {places} places");
    }
}
