//! Where a script comes from and where its answers go: what a reader and a writer have to tell of
//! the bytes that they move, and of calls that failed.
ghost use Rattle.std.specs.Prelude.{◌≡◌, ◌<◌, ◌≤◌, ◌+◌, ℕ, List, length, Option, Some, None, IfOk};
ghost use Rattle.oe_io.specs.Ports.{Source, Sink, Reads, Writes};

/// A call that failed.
#[derive(Clone, Copy)]
pub struct Failed;

pub trait Intake {
    /// What is left to read, where it is known.
    ghost source: { Self → Option Source };

    fn read(&mut self, buf: &mut [u8]) -> Result<usize, Failed>
        ensures bound { IfOk result (λ n. n ≤ length buf.new) }
        ensures bytes { Reads (source self.old) (source self.new) result buf.new };
}

pub trait Outlet {
    /// What was written, where it is known.
    ghost sink: { Self → Option Sink };

    /// Takes at least one byte or fails.
    fn write(&mut self, bytes: &[u8]) -> Result<usize, Failed>
        requires { 0 < length bytes.now }
        ensures bound { IfOk result (λ n. (0 < n) × (n ≤ length bytes.now)) }
        ensures bytes { Writes (sink self.old) (sink self.new) result bytes.now };
}
