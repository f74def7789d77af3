//! What stands at the front of bytes, and the bytes that follow it. Nothing is copied.
ghost use Rattle.std.specs.Prelude.{◌≡◌, ◌<◌, ◌^◌, IfSome};
ghost use Rattle.std.specs.Option.{option_map};
ghost use Rattle.oe_values.specs.Front.{after_of, pair_of, digits_from, decimal_of};

/// Gives what follows `front`, where the text begins with it.
#[inline]
pub fn after<'a>(text: &'a [u8], front: &[u8]) -> Option<&'a [u8]>
    ensures { option_map (λ rest. rest.now) result ≡ after_of front.now text.now }
{
    if text.len() < front.len() {
        return None;
    }
    for (i, b) in front.iter().enumerate() {
        if text[i] != *b {
            return None;
        }
    }
    Some(&text[front.len()..])
}

/// Gives the number below 100 that the first two bytes say as digits, and what follows them.
#[inline]
#[tactic(auto, unfolding(crate::specs::Front::pair_of))]
pub fn pair(text: &[u8]) -> Option<(u8, &[u8])>
    ensures { option_map (λ p. (p.0, p.1.now)) result ≡ pair_of text.now }
{
    let [tens, ones, rest @ ..] = text else {
        return None;
    };
    if *tens < b'0' || *tens > b'9' || *ones < b'0' || *ones > b'9' {
        return None;
    }
    Some(((*tens - b'0') * 10 + (*ones - b'0'), rest))
}

/// Gives the number that goes on with the digits at the front, and what follows them.
#[inline]
fn digits_from(start: u64, text: &[u8]) -> Option<(u64, &[u8])>
    requires { start < 10 ^ 15 }
    ensures value { option_map (λ p. (p.0, p.1.now)) result ≡ digits_from start text.now }
    ensures small { IfSome result (λ p. p.0 < 10 ^ 15) }
{
    let mut value = start;
    for (i, b) in text.iter().enumerate() {
        if *b < b'0' || *b > b'9' {
            return Some((value, &text[i..]));
        }
        if value >= 100_000_000_000_000 {
            return None;
        }
        value = value * 10 + u64::from(*b - b'0');
    }
    Some((value, &text[text.len()..]))
}

/// Gives the number of at most 15 digits, without a leading zero, at the front, and what follows
/// its digits. After a 0 that may be a digit.
#[inline]
#[tactic(auto, unfolding(crate::specs::Front::decimal_of))]
pub fn decimal(text: &[u8]) -> Option<(u64, &[u8])>
    ensures value { option_map (λ p. (p.0, p.1.now)) result ≡ decimal_of text.now }
    ensures small { IfSome result (λ p. p.0 < 10 ^ 15) }
{
    let [first, rest @ ..] = text else {
        return None;
    };
    if *first == b'0' {
        return Some((0, rest));
    }
    if *first < b'0' || *first > b'9' {
        return None;
    }
    digits_from(u64::from(*first - b'0'), rest)
}
