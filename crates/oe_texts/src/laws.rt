//! What the definitions that texts are exact against amount to.
ghost use Rattle.std.specs.Prelude.{◌<◌, ◌≡◌, ℕ, List};
ghost use Rattle.oe_values.specs.Stamp.{SaysStamp};
ghost use Rattle.oe_values.specs.declared.stamps.TheConstants.{SECONDS};
ghost use Rattle.oe_texts.specs.Stamp.{stamp_text};

/// The text of each stamp from 1900 to 2100 says it, and is the only one that does.
pub fn stamps_are_read()
    ensures says { (n : ℕ) → n < SECONDS → SaysStamp (stamp_text n) n }
    ensures only { (n : ℕ) → (s : List ℕ) → SaysStamp s n → s ≡ stamp_text n }
{}
