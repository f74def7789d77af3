//! One script's run: what is open, the line that is read, and the output that waits.
ghost use Rattle.std.specs.Prelude.{◌≡◌, ◌<◌, ◌≤◌, ◌+◌, ◌++◌, ◌∷◌, ◌^◌, ℕ, List, [], length, Option, None, Some, OnOk};
ghost use Rattle.oe_io.specs.Ports.{Streams};
ghost use Rattle.oe_script.specs.Hearing.{place_of, Attends, HearsEach};
ghost use Rattle.oe_script.specs.Script.{Holds, last_text};
ghost use Rattle.oe_script.specs.Session.{state_of, Dialogue, StandsIn, FedIn, EndedIn, ScriptHeard};
ghost use Rattle.oe_admission.specs.Programs.{IsLive};
ghost use Rattle.oe_script.specs.Outcome.{Replies};

use crate::listeners::{Listener, Place};
use crate::outcome::answer_line;
use arrayvec::ArrayVec;
use memchr::memchr;
use oe_filelines::HeldLine;
use oe_io::output::{flush, put_bad};
use oe_io::ports::{Failed, Intake, Outlet};
use oe_machine::Machine;
use oe_texts::Pending;
use std::alloc::Global;
use thiserror::Error;

/// A line's bytes before its end are at most as many.
pub const LINE: usize = 1_024;

/// So many bytes are read at once.
pub const PIECE: usize = 65_536;

/// It can't be dropped, since a machine can't: `close` ends it.
pub struct Session<M: Machine> {
    pub core: Option<M>,
    /// The beginning of a line whose end was not read yet.
    pub line: HeldLine<LINE>,
    /// How many lines came before.
    pub count: u128,
    pub out: Pending,
}

/// Why a script could not be answered whole.
#[derive(Clone, Copy, Debug, Error)]
pub enum ScriptFault {
    /// A read failed, or the input has 2^64 - 1 bytes or more.
    #[error("read")]
    Read,
    /// A write failed.
    #[error("write")]
    Write,
}

impl<M: Machine> Session<M> {
    /// Makes a session where nothing is open, read or answered.
    pub fn new() -> Session<M>
        ensures { result ≡ record {
          core = None;
          line = Some [];
          count = 0;
          out = record { items = [] };
        } }
    {
        Session::begun(None)
    }

    /// Makes a session where that machine is open, and nothing read or answered.
    pub fn on(core: M) -> Session<M>
        ensures { result ≡ record {
          core = Some core;
          line = Some [];
          count = 0;
          out = record { items = [] };
        } }
    {
        Session::begun(Some(core))
    }

    /// Makes a session where this is open, and nothing read or answered.
    fn begun(core: Option<M>) -> Session<M>
        ensures { result ≡ record {
          core = core;
          line = Some [];
          count = 0;
          out = record { items = [] };
        } }
    {
        Session {
            core,
            line: HeldLine::new(),
            count: 0,
            out: ArrayVec::new(),
        }
    }

    /// Gives up what is open.
    pub fn close(self) {
        let Session {
            core,
            line: _,
            count: _,
            out: _,
        } = self;
        match core {
            None => {}
            Some(core) => core.discard(),
        }
    }

    /// Reads the input to its end and answers it. The listener hears of each line that is answered
    /// `BadLine`.
    pub fn run<R: Intake, W: Outlet, H: Listener>(
        &mut self,
        alloc: Global,
        reader: &mut R,
        writer: &mut W,
        listener: &mut H,
    ) -> Result<(), ScriptFault>
        requires live { IsLive (state_of M.world self.old.core) }
        requires line { self.old.line ≡ Some [] }
        requires count { self.old.count ≡ 0 }
        requires out { self.old.out.items ≡ [] }
        ensures { ScriptHeard (state_of M.world self.old.core)
            (λ told. HearsEach H.hears listener.old told listener.new)
            (R.source reader.old) (R.source reader.new)
            (W.sink writer.old) (W.sink writer.new) result }
    {
        let mut buf = [0u8; PIECE];
        for _ in 0..u64::MAX {
            prove!(self.out.is_empty());
            match reader.read(&mut buf) {
                Err(_) => return Err(ScriptFault::Read),
                Ok(0) => {
                    return match self.finish(writer, listener) {
                        Ok(()) => Ok(()),
                        Err(_) => Err(ScriptFault::Write),
                    };
                }
                Ok(n) => {
                    if let Err(_) = self.answer(alloc, &buf[..n], writer, listener) {
                        return Err(ScriptFault::Write);
                    }
                }
            }
        }
        Err(ScriptFault::Read)
    }

    /// Takes the next bytes of the input, and writes what waits.
    fn answer<W: Outlet, H: Listener>(
        &mut self,
        alloc: Global,
        piece: &[u8],
        to: &mut W,
        listener: &mut H,
    ) -> Result<(), Failed>
        requires count { self.old.count + length piece.now < 2 ^ 128 }
        requires live { IsLive (state_of M.world self.old.core) }
        ensures fed { (d : Dialogue H) (input : List ℕ)
            → StandsIn d M.world H.hears input listener.old (W.sink to.old) self.old
            → FedIn d M.world H.hears (input ++ piece.now) listener.new (W.sink to.new) self.new result }
        ensures written { OnOk result (self.new.out.items ≡ []) }
        ensures count { self.new.count ≤ self.old.count + length piece.now }
        ensures live { IsLive (state_of M.world self.new.core) }
    {
        if let Err(e) = self.feed(alloc, piece, to, listener) {
            return Err(e);
        }
        flush(&mut self.out, to)
    }

    /// Takes the next bytes of the input.
    pub fn feed<W: Outlet, H: Listener>(
        &mut self,
        alloc: Global,
        piece: &[u8],
        to: &mut W,
        listener: &mut H,
    ) -> Result<(), Failed>
        requires count { self.old.count + length piece.now < 2 ^ 128 }
        requires live { IsLive (state_of M.world self.old.core) }
        ensures fed { (d : Dialogue H) (input : List ℕ)
            → StandsIn d M.world H.hears input listener.old (W.sink to.old) self.old
            → FedIn d M.world H.hears (input ++ piece.now) listener.new (W.sink to.new) self.new result }
        ensures count { self.new.count ≤ self.old.count + length piece.now }
        ensures live { IsLive (state_of M.world self.new.core) }
    {
        let mut rest = piece;
        while let Some(n) = memchr(b'\n', rest) {
            if let Err(e) = self.end_line(alloc, &rest[..n], to, listener) {
                return Err(e);
            }
            rest = &rest[n + 1..];
        }
        self.line.keep(rest);
        Ok(())
    }

    /// Answers what is left at the end of the input, and writes what waits. Then the listener hears
    /// of a last line that has no end.
    fn finish<W: Outlet, H: Listener>(&mut self, to: &mut W, listener: &mut H) -> Result<(), Failed>
        requires { self.old.count + 1 < 2 ^ 128 }
        ensures { (d : Dialogue H) (input : List ℕ)
            → StandsIn d M.world H.hears input listener.old (W.sink to.old) self.old
            → EndedIn d H.hears input listener.new (W.sink to.new) result }
    {
        let is_begun = self.line.is_begun();
        let number = self.count + 1;
        if let Err(e) = self.end_last(to) {
            return Err(e);
        }
        if let Err(e) = flush(&mut self.out, to) {
            return Err(e);
        }
        if is_begun {
            listener.hear(number, &[], Place::Unended);
        }
        Ok(())
    }

    /// Answers a last line that has no end.
    fn end_last<W: Outlet>(&mut self, to: &mut W) -> Result<(), Failed>
        requires { self.old.count + 1 < 2 ^ 128 }
        ensures { (line : List ℕ) → Holds self.old.line line →
            Streams (W.sink to.old) self.old.out.items (W.sink to.new) self.new.out.items
            (last_text (self.old.count + 1) line) result }
    {
        if self.line.is_begun() {
            return put_bad(&mut self.out, to, self.count + 1);
        }
        Ok(())
    }

    /// Ends a line with these last bytes, and answers it.
    fn end_line<W: Outlet, H: Listener>(
        &mut self,
        alloc: Global,
        last: &[u8],
        to: &mut W,
        listener: &mut H,
    ) -> Result<(), Failed>
        requires count { self.old.count + 1 < 2 ^ 128 }
        requires live { IsLive (state_of M.world self.old.core) }
        ensures answer { (line : List ℕ) → Holds self.old.line line →
            Replies (state_of M.world self.old.core) (self.old.count + 1) (line ++ last.now)
            (state_of M.world self.new.core) (W.sink to.old) self.old.out.items
            (W.sink to.new) self.new.out.items result }
        ensures heard { (line : List ℕ) → Holds self.old.line line →
            Attends H.hears (state_of M.world self.old.core) (self.old.count + 1) (line ++ last.now)
            listener.old listener.new result }
        ensures line { self.new.line ≡ Some [] }
        ensures count { self.new.count ≡ self.old.count + 1 }
        ensures live { IsLive (state_of M.world self.new.core) }
    {
        self.count += 1;
        if self.line.is_begun() || LINE < last.len() {
            self.line.keep(last);
            return self.end_kept(alloc, to, listener);
        }
        answer_whole(
            &mut self.core,
            alloc,
            last,
            self.count,
            &mut self.out,
            to,
            listener,
        )
    }

    /// Ends a line of this number that was kept, and answers it.
    #[inline(never)]
    fn end_kept<W: Outlet, H: Listener>(
        &mut self,
        alloc: Global,
        to: &mut W,
        listener: &mut H,
    ) -> Result<(), Failed>
        requires live { IsLive (state_of M.world self.old.core) }
        ensures answer { (line : List ℕ) → Holds self.old.line line →
            Replies (state_of M.world self.old.core) self.old.count line (state_of M.world self.new.core)
            (W.sink to.old) self.old.out.items (W.sink to.new) self.new.out.items result }
        ensures heard { (line : List ℕ) → Holds self.old.line line →
            Attends H.hears (state_of M.world self.old.core) self.old.count line
            listener.old listener.new result }
        ensures line { self.new.line ≡ Some [] }
        ensures count { self.new.count ≡ self.old.count }
        ensures live { IsLive (state_of M.world self.new.core) }
    {
        let Some(line) = self.line.text() else {
            self.line.clear();
            if let Err(e) = put_bad(&mut self.out, to, self.count) {
                return Err(e);
            }
            listener.hear(self.count, &[], Place::Long);
            return Ok(());
        };
        let number = self.count;
        let answered = answer_whole(
            &mut self.core,
            alloc,
            line,
            number,
            &mut self.out,
            to,
            listener,
        );
        self.line.clear();
        answered
    }
}

/// Tells where a whole line stands.
fn place_in<M: Machine>(core: &Option<M>) -> Place
    ensures { result ≡ place_of (state_of M.world core.now) }
{
    match core {
        None => Place::Closed,
        Some(_) => Place::Open,
    }
}

/// Answers a line of at most 1,024 bytes. The listener hears of it where it is no command.
#[inline(always)]
fn answer_whole<W: Outlet, H: Listener, M: Machine>(
    core: &mut Option<M>,
    alloc: Global,
    line: &[u8],
    number: u128,
    out: &mut Pending,
    to: &mut W,
    listener: &mut H,
) -> Result<(), Failed>
    requires short { length line.now ≤ 1_024 }
    requires live { IsLive (state_of M.world core.old) }
    ensures answer { Replies (state_of M.world core.old) number line.now (state_of M.world core.new)
        (W.sink to.old) out.old.items (W.sink to.new) out.new.items result }
    ensures heard { Attends H.hears (state_of M.world core.old) number line.now
        listener.old listener.new result }
{
    match answer_line(core, alloc, line, number, out, to) {
        Ok(true) => Ok(()),
        Ok(false) => {
            listener.hear(number, line, place_in(core));
            Ok(())
        }
        Err(e) => Err(e),
    }
}
