//! The names of the two figures that a part of a check compares. Nothing can fail.
ghost use Rattle.std.specs.Prelude.{◌≡◌, ◌≤◌, length};

/// How a part of a check tells a key at which it fails.
#[derive(Drop)]
pub struct Label {
    /// What the key is of, where its columns do not say it; or nothing.
    pub row: &'static str,
    /// The first figure's name.
    pub first: &'static str,
    /// The second figure's name.
    pub second: &'static str,
    /// The figures are amounts of money.
    pub is_money: bool,
    ghost row_short: { length row.now ≤ 10 },
    ghost first_short: { length first.now ≤ 30 },
    ghost second_short: { length second.now ≤ 30 },
}

impl Label {
    /// Gives what the key is of.
    pub(crate) fn row(&self) -> &[u8]
        ensures value { result.now ≡ self.now.row.now }
        ensures most { length result.now ≤ 10 }
    {
        self.row.as_bytes()
    }

    /// Gives the first figure's name.
    pub(crate) fn first(&self) -> &[u8]
        ensures value { result.now ≡ self.now.first.now }
        ensures most { length result.now ≤ 30 }
    {
        self.first.as_bytes()
    }

    /// Gives the second figure's name.
    pub(crate) fn second(&self) -> &[u8]
        ensures value { result.now ≡ self.now.second.now }
        ensures most { length result.now ≤ 30 }
    {
        self.second.as_bytes()
    }
}
