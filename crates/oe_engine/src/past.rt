//! Versions of moments, and commits that a purge forgets or a rewind undoes. Nothing takes memory;
//! a purge or a rewind that is refused changes nothing.
ghost use Rattle.std.specs.Prelude.{◌≡◌, IfOk, IfErr, OnOk, OnErr};
ghost use Rattle.oe_log.specs.Moments.{IsOutside};
ghost use Rattle.oe_log.specs.Moments as log;
ghost use Rattle.oe_journal.specs.GivesUp.{GivesUpDeleted};
ghost use Rattle.oe_engine.specs.View.{view_of};
ghost use Rattle.oe_engine.specs.Calls.{newest, horizon, records_up_to, IsQuiet, IsKeptMoment, CantRewind, after_purge, after_rewind};

use crate::engine::Engine;
use crate::renames::Renames;
use oe_requests::Refusal;
use oe_values::Moment;
use oe_versions::Version;

impl Engine {
    /// Gives the version of a moment: the tables as the commits up to it left them, whatever is
    /// open. It finds customers by last name as they are found now where no transaction that is
    /// open, and none that has ended since, may have renamed one.
    ///
    /// `TooOld` with the oldest, `Future` with the newest moment: the moment is not between the
    /// two.
    pub fn version(&self, moment: Moment) -> Result<Version<'_>, Refusal>
        ensures version { IfOk result (λ v. v
            ≡ record { tables = self.now.tables; log = self.now.undo; moment = moment }) }
        ensures kept { OnOk result (log.IsKeptMoment self.now.undo moment) }
        ensures refusal { IfErr result (log.IsUnkept self.now.undo moment) }
    {
        let names_stand = self.renames.stand(moment);
        Version::at(&self.tables, &self.undo, moment, names_stand)
    }

    /// Forgets the commits up to a moment, which becomes the oldest that can be read. All rows,
    /// open work and the later commits stay as they are; the NEW-ORDER keys that the forgotten
    /// commits deleted, that have no row and no record left, have no place any more. It takes no
    /// memory.
    ///
    /// `TooOld` with the oldest, `Future` with the newest moment: the moment is not between the
    /// two. Nothing has changed then.
    #[tactic(auto, unfolding(crate::specs::View::view_of, crate::specs::View::view_from))]
    pub fn purge(&mut self, moment: Moment) -> Result<(), Refusal>
        ensures kept { OnOk result (IsKeptMoment (view_of self.old) moment) }
        ensures purged { OnOk result (view_of self.new ≡ after_purge moment (view_of self.old)) }
        ensures places { OnOk result (GivesUpDeleted self.old.tables self.new.tables
            (records_up_to moment (view_of self.old)) self.new.undo) }
        ensures name { self.new.name ≡ self.old.name }
        ensures cause { IfErr result
            (IsOutside (horizon (view_of self.old)) (newest (view_of self.old)) moment) }
        ensures err { OnErr result (self.new ≡ self.old) }
    {
        let may_forget = !self.renames.stand(self.undo.segments().horizon());
        oe_journal::purge(&mut self.tables, &mut self.undo, moment, may_forget)
    }

    /// Undoes the commits after a moment, the newest first, while no transaction is open: the
    /// moment becomes the newest, and the next commit the one after it. It takes no memory.
    ///
    /// `NotQuiet` with the number of open transactions. `TooOld` with the oldest, `Future` with the
    /// newest moment: the moment is not between the two. The first of these is named, and nothing
    /// has changed then.
    #[tactic(auto, unfolding(crate::specs::View::view_of, crate::specs::View::view_from))]
    pub fn rewind(&mut self, moment: Moment) -> Result<(), Refusal>
        ensures quiet { OnOk result (IsQuiet (view_of self.old)) }
        ensures kept { OnOk result (IsKeptMoment (view_of self.old) moment) }
        ensures rewound { OnOk result (view_of self.new ≡ after_rewind moment (view_of self.old)) }
        ensures name { self.new.name ≡ self.old.name }
        ensures cause { IfErr result (CantRewind (view_of self.old) moment) }
        ensures err { OnErr result (self.new ≡ self.old) }
    {
        let answer = oe_journal::rewind(&mut self.tables, &mut self.undo, moment);
        self.tables.schema_holds();
        match answer {
            Ok(()) => {
                self.renames = Renames::none(self.undo.segments().newest());
                Ok(())
            }
            Err(refusal) => Err(refusal),
        }
    }
}
