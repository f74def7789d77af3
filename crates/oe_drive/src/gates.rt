//! What stands before and after each call of a desk.

use oe_values::Terminal;

/// A gate. A call is a begin, an advance, a read or an end, numbered from 1 for each terminal. The
/// gate is asked outside the hall's lock, so it may hold one terminal until another was answered.
pub trait Gate {
    /// Comes before the lock is asked for.
    fn before(&self, terminal: Terminal, call: u64);

    /// Comes after the lock was given back.
    fn after(&self, terminal: Terminal, call: u64);

    /// Comes after a terminal's errand: it was carried out, given up, or left in the queue.
    fn done(&self, _terminal: Terminal) {}

    /// Tells whether terminals keep their commits, for whoever reads them behind the drive.
    fn keeps_commits(&self) -> bool {
        false
    }
}

/// A gate that holds nobody.
#[derive(Drop)]
pub struct Ajar;

impl Gate for Ajar {
    fn before(&self, _terminal: Terminal, _call: u64) {}

    fn after(&self, _terminal: Terminal, _call: u64) {}
}

/// The calls of one terminal, each between the gate's two.
#[derive(Drop)]
pub struct Calls<'g, G: Gate> {
    gate: &'g G,
    terminal: Terminal,
    count: u64,
}

impl<'g, G: Gate> Calls<'g, G> {
    /// Makes the calls of a terminal that has made none.
    pub fn new(gate: &'g G, terminal: Terminal) -> Calls<'g, G> {
        Calls {
            gate,
            terminal,
            count: 0,
        }
    }

    /// Passes the gate before the next call.
    pub fn before(&mut self) {
        self.count = self.count.saturating_add(1);
        self.gate.before(self.terminal, self.count);
    }

    /// Passes the gate after that call.
    pub fn after(&self) {
        self.gate.after(self.terminal, self.count);
    }

    /// Tells the gate that an errand is done.
    pub fn done(&self) {
        self.gate.done(self.terminal);
    }
}
