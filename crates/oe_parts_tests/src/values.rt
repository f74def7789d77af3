//! Stamps, of which no script shows the seconds.
use oe_values::Stamp;

/// Gives the seconds since 1900 that a text says, where that text spells them again.
fn seconds(text: &str) -> Option<u64> {
    let stamp = Stamp::read(text)?;
    let spelled = Stamp::from_seconds(stamp.seconds())?.text();
    if spelled.as_str() == text {
        Some(stamp.seconds())
    } else {
        None
    }
}

#[test]
fn stamps_are_seconds(rt: HostRuntime) {
    let cases = [
        ("1900-02-28T23:59:59", 5_097_599),
        ("2000-02-29T00:00:00", 3_160_771_200),
        ("2100-12-31T23:59:59", 6_342_969_599),
    ];
    for (text, want) in cases {
        assert!(rt; seconds(text) == Some(want));
    }
}
