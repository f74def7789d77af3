//! How often each kind of step was asked for.
ghost use Rattle.std.specs.Prelude.{◌≡◌};
ghost use Rattle.oe_counted.specs.Counts.{one_more, no_counts};

/// How often each kind of step was asked for, whatever the answers. No count goes past the greatest
/// number.
///
/// Audits and reads have no count: who asks for them lends the machine, and may not change it.
#[derive(Clone, Copy, PartialEq, Eq, Debug)]
pub struct Counts {
    pub begins: u64,
    pub advances: u64,
    pub saves: u64,
    pub backs: u64,
    pub rollbacks: u64,
    pub purges: u64,
    pub rewinds: u64,
}

impl Counts {
    /// Counts nothing.
    pub fn none() -> Counts
        ensures { result ≡ no_counts }
    {
        Counts {
            begins: 0,
            advances: 0,
            saves: 0,
            backs: 0,
            rollbacks: 0,
            purges: 0,
            rewinds: 0,
        }
    }
}

// Counts once more.
pub(crate) fn count(counted: &mut u64)
    ensures { counted.new ≡ one_more counted.old }
{
    *counted = counted.saturating_add(1);
}
