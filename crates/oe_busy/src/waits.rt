//! How long terminals wait: since which line each does, and the longest wait so far.
ghost use Rattle.std.specs.Prelude.{◌≡◌, ◌∷◌, List, [], OnOk};
ghost use Rattle.oe_busy.specs.declared.happenings.Happening.{Happening};
ghost use Rattle.oe_theory.specs.World.{set};
ghost use Rattle.oe_busy.specs.Happenings.{wait_starts, counts_in, ends, without_wait, greater, meets, wait_length};
ghost use Rattle.oe_busy.specs.Happenings.{AreWaits};

use crate::happenings::Happening;
use crate::tables::Uncounted;
use oe_values::Terminal;

/// By terminal the number of a line, or 0; with a place for each number from 0, which is nobody's,
/// to 64.
type Since = [u64; 65];

/// Since when each terminal waits, how many lines there were, and the longest wait.
#[derive(Drop)]
pub struct Waits {
    since: Since,
    lines: u64,
    pub longest: u64,
}

/// Gives the terminal that has gone on, or was rolled back.
fn ended(happening: &Happening) -> Option<Terminal>
    ensures { result ≡ ends happening.now }
{
    match happening {
        Happening::Went(terminal) => Some(*terminal),
        Happening::Took(terminal, _, _) => Some(*terminal),
        Happening::Broke(terminal, _) => Some(*terminal),
        Happening::GaveWay(terminal) => Some(*terminal),
        Happening::Begun | Happening::Done | Happening::Waits(_, _, _) => None,
    }
}

/// Gives the terminal that was answered `Busy`.
fn met(happening: &Happening) -> Option<Terminal>
    ensures { result ≡ meets happening.now }
{
    match happening {
        Happening::Waits(terminal, _, _) => Some(*terminal),
        _ => None,
    }
}

/// Gives the line since which a terminal waits, or 0.
fn since_of(since: &Since, terminal: Terminal) -> u64
    ensures { result ≡ counts_in since.now terminal }
{
    since[terminal.get() as usize]
}

/// Sets the line of a terminal.
#[tactic(auto, using(crate::proofs::CountFacts::put_at))]
fn put(since: &mut Since, terminal: Terminal, line: u64)
    ensures { counts_in since.new ≡ set terminal line (counts_in since.old) }
{
    since[terminal.get() as usize] = line;
}

/// Counts the lines between a terminal's first `Busy` and the line behind the last one, at which
/// this happens.
fn waited(since: &Since, happening: &Happening, lines: u64) -> u64
    ensures { result ≡ wait_length (ends happening.now) lines (counts_in since.now) }
{
    let Some(terminal) = ended(happening) else {
        return 0;
    };
    let line = since_of(since, terminal);
    if line == 0 {
        return 0;
    }
    lines.saturating_sub(line)
}

/// Ends the wait of a terminal that has gone on.
fn end(since: &mut Since, happening: &Happening)
    ensures { counts_in since.new ≡ without_wait (ends happening.now) (counts_in since.old) }
{
    match ended(happening) {
        Some(terminal) => put(since, terminal, 0),
        None => {}
    }
}

/// Begins the wait of a terminal that was answered `Busy`, unless it waits already.
fn begin(since: &mut Since, happening: &Happening, line: u64)
    ensures { counts_in since.new ≡ wait_starts (meets happening.now) line (counts_in since.old) }
{
    let Some(terminal) = met(happening) else {
        return;
    };
    if since_of(since, terminal) == 0 {
        put(since, terminal, line);
    }
}

/// Gives the greater of two.
fn greater(one: u64, other: u64) -> u64
    ensures { result ≡ greater one other }
{
    if one < other { other } else { one }
}

impl Waits {
    /// Knows no line.
    pub(crate) fn new() -> Waits
        ensures { AreWaits result [] }
    {
        Waits {
            since: [0; 65],
            lines: 0,
            longest: 0,
        }
    }

    /// Notes what happened at one more line.
    pub(crate) fn note(&mut self, happening: &Happening) -> Result<(), Uncounted>
        ensures { (hs : List Happening) → AreWaits self.old hs →
            OnOk result (AreWaits self.new (happening.now ∷ hs)) }
    {
        let Some(line) = self.lines.checked_add(1) else {
            return Err(Uncounted::TooMany);
        };
        let wait = waited(&self.since, happening, self.lines);
        self.longest = greater(self.longest, wait);
        end(&mut self.since, happening);
        begin(&mut self.since, happening, line);
        self.lines = line;
        Ok(())
    }
}
