//! Versions: the tables as they stood at a moment that is kept.
//!
//! A version lends the tables and the undo log, and copies no row. By its invariant the moment is
//! from the horizon to the newest, so that no read of it can be refused. Only its making can be:
//! the moment is checked there, once.
ghost use Rattle.std.specs.Prelude.{◌≡◌, ◌↔◌, IsTrue, IfOk, IfErr, OnOk};
ghost use Rattle.oe_model.specs.Choice.{HaveSameNames};
ghost use Rattle.oe_store.specs.Places.{rows};
ghost use Rattle.oe_log.specs.Moments.{IsKeptMoment, IsUnkept};
ghost use Rattle.oe_versions.specs.Versions.{version, IsSettled};

use oe_requests::Refusal;
use oe_store::Tables;
use oe_undo::Undo;
use oe_values::Moment;
use std::marker::Model;

/// The tables as they stood at a moment that is kept: what the commits up to it left, without
/// anybody's open work.
///
/// It borrows the tables as they stand and the undo log. Neither its making nor a read takes
/// memory: from the key's newest record on a read goes along the key's own records that are open or
/// of commits after the moment, and puts each back on a copy of the row that stands. Where the key
/// has no such record, it reads the row that stands.
#[derive(Drop)]
pub struct Version<'a> {
    tables: &'a Tables,
    pub(crate) undo: &'a Undo,
    pub(crate) moment: Moment,
    // Each row stands as it was: nothing is open, and no commit is later.
    pub(crate) is_settled: bool,
    // Each customer had the names that it has.
    pub(crate) names_stand: bool,
}

impl<'a> Model for Version<'a> {
    ghost use Rattle.oe_versions.specs.Versions.{VersionState, IsVersion};

    ghost Value = { VersionState };

    ghost view = { λ v. record {
      tables = v.tables.now;
      log = v.undo.now.log;
      moment = v.moment;
    } };

    ghost invariant = { λ v.
        IsVersion v.tables.now v.undo.now.log v.moment v.is_settled v.names_stand };
}

/// Tells whether there is nothing to put back: no commit is later than the moment, and no
/// transaction is open.
fn is_settled(undo: &Undo, moment: Moment) -> bool
    ensures { IsTrue result ↔ IsSettled undo.now.log moment }
{
    undo.segments().newest().get() == moment.get() && undo.segments().open_count() == 0
}

impl<'a> Version<'a> {
    /// Gives the version of a moment. `TooOld` with the horizon and `Future` with the newest
    /// moment, exactly where the moment is not between the two.
    ///
    /// Where `names_stand` says that each customer had the names that it has, the version finds
    /// customers by last name as they are found now.
    pub fn at(
        tables: &'a Tables,
        undo: &'a Undo,
        moment: Moment,
        names_stand: bool,
    ) -> Result<Version<'a>, Refusal>
        requires { IsTrue names_stand
            → HaveSameNames (version tables.now undo.now.log moment) (rows tables.now) }
        ensures version { IfOk result (λ v.
            v ≡ record { tables = tables.now; log = undo.now.log; moment = moment }) }
        ensures kept { OnOk result (IsKeptMoment undo.now.log moment) }
        ensures refusal { IfErr result (IsUnkept undo.now.log moment) }
    {
        match undo.segments().commits_after(moment) {
            Ok(_) => Ok(Version {
                tables,
                undo,
                moment,
                is_settled: is_settled(undo, moment),
                names_stand,
            }),
            Err(refusal) => Err(refusal),
        }
    }

    /// Tells whether there is nothing to put back: no commit is later than the moment, and no
    /// transaction is open.
    pub fn is_settled(&self) -> bool
        ensures { IsTrue result ↔ IsSettled self.now.log self.now.moment }
    {
        self.is_settled
    }

    /// Gives the tables as they stand, which it borrows.
    pub fn tables(&self) -> &'a Tables
        ensures { result.now ≡ self.now.tables }
    {
        self.tables
    }
}
