//! The machine that counts, each call of which is the call of the machine inside.
ghost use Rattle.std.specs.Prelude.{◌≡◌};
ghost use Rattle.oe_machine.specs.Steps.{Carries, begin_answer, Advances};
ghost use Rattle.oe_machine.specs.Replies.{RepliesBegun, RepliesAfter, RepliesWithout};
ghost use Rattle.oe_counted.specs.Counts.{no_counts, counts_with};

use crate::counts::{Counts, count};
use oe_locks::Lock;
use oe_machine::{Advanced, Machine};
use oe_requests::{Answer, Condition, Query, Refusal, ReplyRef, Request, Step};
use oe_rows::{Layout, Mode, Name};
use oe_store::Tables;
use oe_values::{ExtentCount, Moment, NoMemory, Terminal};
use std::alloc::Global;

/// A machine with how often each kind of step was asked of it. It can't be dropped, if the machine
/// can't.
pub struct Counted<M: Machine> {
    machine: M,
    counts: Counts,
}

impl<M: Machine> Counted<M> {
    /// Counts from now on what a machine is asked for.
    #[inline(always)]
    pub fn on(machine: M) -> Counted<M>
        ensures { result ≡ record { machine = machine; counts = no_counts } }
    {
        Counted {
            machine,
            counts: Counts::none(),
        }
    }

    /// Lends how often each kind of step was asked for since the counting began.
    #[inline(always)]
    pub fn counts(&self) -> &Counts
        ensures { result.now ≡ self.now.counts }
    {
        &self.counts
    }
}

impl<M: Machine> Machine for Counted<M> {
    ghost world = { λ c. M.world c.machine };

    ghost last = { λ c. M.last c.machine };

    #[inline(always)]
    fn open(
        alloc: Global,
        tables: Tables,
        extents: ExtentCount,
        layout: Layout,
    ) -> Result<Self, NoMemory> {
        let machine = M::open(alloc, tables, extents, layout)?;
        Ok(Counted::on(machine))
    }

    #[inline(always)]
    fn tables(&self) -> &Tables {
        self.machine.tables()
    }

    #[inline(always)]
    fn is_reached(&self) {
        self.machine.is_reached();
    }

    #[inline(always)]
    fn allocator(&self) -> Global {
        self.machine.allocator()
    }

    #[inline(always)]
    fn newest(&self) -> Moment {
        self.machine.newest()
    }

    #[inline(always)]
    fn horizon(&self) -> Moment {
        self.machine.horizon()
    }

    #[inline(always)]
    fn open_count(&self) -> u32 {
        self.machine.open_count()
    }

    #[inline(always)]
    fn is_open(&self, terminal: Terminal) -> bool {
        self.machine.is_open(terminal)
    }

    #[inline(always)]
    fn wanted(&self, terminal: Terminal) -> Option<Lock> {
        self.machine.wanted(terminal)
    }

    #[inline(always)]
    fn held(&self, terminal: Terminal, name: &Name) -> Option<Mode> {
        self.machine.held(terminal, name)
    }

    #[inline(always)]
    fn names(&self, terminal: Terminal) -> &[Name] {
        self.machine.names(terminal)
    }

    #[inline(always)]
    fn last_reply(&self, terminal: Terminal) -> Option<ReplyRef<'_>> {
        self.machine.last_reply(terminal)
    }

    #[inline(always)]
    fn begin(&mut self, terminal: Terminal, request: &Request) -> Result<(), Refusal>
        ensures carries { Carries (M.world self.old.machine) (Step.Begin terminal request.now)
            (begin_answer result) (M.world self.new.machine) }
        ensures replies { RepliesBegun terminal result (M.last self.old.machine)
            (M.last self.new.machine) }
        ensures counts { self.new.counts
            ≡ counts_with (Step.Begin terminal request.now) self.old.counts }
    {
        count(&mut self.counts.begins);
        self.machine.begin(terminal, request)
    }

    #[inline(always)]
    fn advance(&mut self, terminal: Terminal) -> Advanced
        ensures advances { Advances (M.world self.old.machine) terminal result
            (M.world self.new.machine) (M.last self.new.machine terminal) }
        ensures replies { RepliesAfter terminal result (M.last self.old.machine)
            (M.last self.new.machine) }
        ensures counts { self.new.counts ≡ counts_with (Step.Advance terminal) self.old.counts }
    {
        count(&mut self.counts.advances);
        self.machine.advance(terminal)
    }

    #[inline(always)]
    fn save(&mut self, terminal: Terminal) -> Answer
        ensures carries { Carries (M.world self.old.machine) (Step.Save terminal) result
            (M.world self.new.machine) }
        ensures replies { M.last self.new.machine ≡ M.last self.old.machine }
        ensures counts { self.new.counts ≡ counts_with (Step.Save terminal) self.old.counts }
    {
        count(&mut self.counts.saves);
        self.machine.save(terminal)
    }

    #[inline(always)]
    fn back(&mut self, terminal: Terminal) -> Answer
        ensures carries { Carries (M.world self.old.machine) (Step.Back terminal) result
            (M.world self.new.machine) }
        ensures replies { M.last self.new.machine ≡ M.last self.old.machine }
        ensures counts { self.new.counts ≡ counts_with (Step.Back terminal) self.old.counts }
    {
        count(&mut self.counts.backs);
        self.machine.back(terminal)
    }

    #[inline(always)]
    fn rollback(&mut self, terminal: Terminal) -> Answer
        ensures carries { Carries (M.world self.old.machine) (Step.Rollback terminal) result
            (M.world self.new.machine) }
        ensures replies { RepliesWithout terminal result (M.last self.old.machine)
            (M.last self.new.machine) }
        ensures counts { self.new.counts ≡ counts_with (Step.Rollback terminal) self.old.counts }
    {
        count(&mut self.counts.rollbacks);
        self.machine.rollback(terminal)
    }

    #[inline(always)]
    fn audit(&self, condition: Condition, moment: Moment) -> Answer {
        self.machine.audit(condition, moment)
    }

    #[inline(always)]
    fn read(&self, moment: Moment, query: &Query) -> Answer {
        self.machine.read(moment, query)
    }

    #[inline(always)]
    fn purge(&mut self, moment: Moment) -> Answer
        ensures carries { Carries (M.world self.old.machine) (Step.Purge moment) result
            (M.world self.new.machine) }
        ensures replies { M.last self.new.machine ≡ M.last self.old.machine }
        ensures counts { self.new.counts ≡ counts_with (Step.Purge moment) self.old.counts }
    {
        count(&mut self.counts.purges);
        self.machine.purge(moment)
    }

    #[inline(always)]
    fn rewind(&mut self, moment: Moment) -> Answer
        ensures carries { Carries (M.world self.old.machine) (Step.Rewind moment) result
            (M.world self.new.machine) }
        ensures replies { M.last self.new.machine ≡ M.last self.old.machine }
        ensures counts { self.new.counts ≡ counts_with (Step.Rewind moment) self.old.counts }
    {
        count(&mut self.counts.rewinds);
        self.machine.rewind(moment)
    }

    #[inline(always)]
    fn close(self) -> Tables {
        let Counted { machine, counts: _ } = self;
        machine.close()
    }

    #[inline(always)]
    fn discard(self) {
        let Counted { machine, counts: _ } = self;
        machine.discard();
    }
}
