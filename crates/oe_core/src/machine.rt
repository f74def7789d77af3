//! The core as a machine: each call is the core's own.
ghost use Rattle.oe_core.specs.Core.{world_of, last_reply};

use crate::cores::Core;
use oe_locks::Lock;
use oe_machine::{Advanced, Machine};
use oe_requests::{Answer, Condition, Query, Refusal, ReplyRef, Request};
use oe_rows::{Layout, Mode, Name};
use oe_store::Tables;
use oe_values::{ExtentCount, Moment, NoMemory, Terminal};
use std::alloc::Global;

impl Machine for Core {
    ghost world = { world_of };

    ghost last = { last_reply };

    #[inline(always)]
    fn open(
        alloc: Global,
        tables: Tables,
        extents: ExtentCount,
        layout: Layout,
    ) -> Result<Self, NoMemory> {
        Core::open(alloc, tables, extents, layout)
    }

    #[inline(always)]
    fn tables(&self) -> &Tables {
        Core::tables(self)
    }

    #[inline(always)]
    fn is_reached(&self) {
        Core::is_reached(self);
    }

    #[inline(always)]
    fn allocator(&self) -> Global {
        Core::allocator(self)
    }

    #[inline(always)]
    fn newest(&self) -> Moment {
        Core::newest(self)
    }

    #[inline(always)]
    fn horizon(&self) -> Moment {
        Core::horizon(self)
    }

    #[inline(always)]
    fn open_count(&self) -> u32 {
        Core::open_count(self)
    }

    #[inline(always)]
    fn is_open(&self, terminal: Terminal) -> bool {
        Core::is_open(self, terminal)
    }

    #[inline(always)]
    fn wanted(&self, terminal: Terminal) -> Option<Lock> {
        Core::wanted(self, terminal)
    }

    #[inline(always)]
    fn held(&self, terminal: Terminal, name: &Name) -> Option<Mode> {
        Core::held(self, terminal, name)
    }

    #[inline(always)]
    fn names(&self, terminal: Terminal) -> &[Name] {
        Core::names(self, terminal)
    }

    #[inline(always)]
    fn last_reply(&self, terminal: Terminal) -> Option<ReplyRef<'_>> {
        Core::last_reply(self, terminal)
    }

    #[inline(always)]
    fn begin(&mut self, terminal: Terminal, request: &Request) -> Result<(), Refusal> {
        Core::begin(self, terminal, request)
    }

    #[inline(always)]
    fn advance(&mut self, terminal: Terminal) -> Advanced {
        Core::advance(self, terminal)
    }

    #[inline(always)]
    fn save(&mut self, terminal: Terminal) -> Answer {
        Core::save(self, terminal)
    }

    #[inline(always)]
    fn back(&mut self, terminal: Terminal) -> Answer {
        Core::back(self, terminal)
    }

    #[inline(always)]
    fn rollback(&mut self, terminal: Terminal) -> Answer {
        Core::rollback(self, terminal)
    }

    #[inline(always)]
    fn audit(&self, condition: Condition, moment: Moment) -> Answer {
        Core::audit(self, condition, moment)
    }

    #[inline(always)]
    fn read(&self, moment: Moment, query: &Query) -> Answer {
        Core::read(self, moment, query)
    }

    #[inline(always)]
    fn purge(&mut self, moment: Moment) -> Answer {
        Core::purge(self, moment)
    }

    #[inline(always)]
    fn rewind(&mut self, moment: Moment) -> Answer {
        Core::rewind(self, moment)
    }

    #[inline(always)]
    fn close(self) -> Tables {
        Core::close(self)
    }

    #[inline(always)]
    fn discard(self) {
        Core::discard(self);
    }
}
