//! Two truths as one value, by which a walk stops. Nothing can fail.
ghost use Rattle.std.specs.Prelude.{◌≡◌, ◌&&◌};

/// Tells whether both are so.
pub(crate) fn are_both(first: bool, second: bool) -> bool
    ensures { result ≡ (first && second) }
{
    first && second
}
