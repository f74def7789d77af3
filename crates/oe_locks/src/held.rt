//! What one terminal holds: names, each in a mode, in the order in which they were taken.
ghost use Rattle.std.specs.Prelude.{◌≡◌, [], Some, None, IsSome, IfSome, IfNone, IfOk, OnOk, OnErr, not};
ghost use Rattle.std.specs.Map.{lookup, keys_of};
ghost use Rattle.oe_rows.specs.declared.locks.Name.{Name};
ghost use Rattle.oe_rows.specs.contracts.locks.NamePartialEq.TheImpl.{ghosts};
ghost use Rattle.oe_locks.specs.Held.{greater_mode, go_together};
ghost use Rattle.oe_locks.specs.Listed.{taken_names, given_back_names, AreOnce};
ghost use Rattle.oe_locks.specs.Marks.{Changes};

use crate::hashes::NameHashes;
use indexmap::IndexMap;
use oe_rows::{Mode, Name};
use std::alloc::{AllocError, Global};
use std::marker::Model;

/// The names that one terminal holds, which clauses see as a list.
#[derive(Drop)]
pub(crate) struct Held {
    names: IndexMap<Name, Mode, NameHashes>,
}

impl Model for Held {
    ghost use Rattle.std.specs.Prelude.{List};
    ghost use Rattle.oe_rows.specs.declared.locks.Name.{Name};
    ghost use Rattle.oe_rows.specs.declared.locks.Mode.{Mode};

    ghost Value = { List (Name × Mode) };

    ghost view = { λ h. h.names.entries };
}

// Whether a mode in which a name is held is in the way of a mode that is asked for.
#[inline(always)]
fn is_in_the_way(held: Mode, mode: Mode) -> bool
    ensures { result ≡ not (go_together mode (Some held)) }
{
    match held {
        Mode::Exclusive => true,
        Mode::Shared => matches!(mode, Mode::Exclusive),
    }
}

// Gives a name that is there another mode.
#[inline]
fn set_mode(names: &mut IndexMap<Name, Mode, NameHashes>, name: &Name, mode: Mode)
    requires { IsSome (lookup (ghosts.eq name.now) names.old.entries) }
    ensures own { Changes names.old.entries names.new.entries name.now (Some mode) }
    ensures order { keys_of names.new.entries ≡ keys_of names.old.entries }
{
    if let Some(was) = names.get_mut(name) {
        *was = mode;
    }
}

impl Held {
    /// Makes a list of no name.
    pub(crate) fn new(alloc: Global) -> Held
        ensures { result ≡ [] }
    {
        Held {
            names: IndexMap::with_hasher(alloc, NameHashes {}),
        }
    }

    /// Gives the mode of a name, where it is held.
    #[inline(always)]
    pub(crate) fn mode(&self, name: &Name) -> Option<Mode>
        ensures { result ≡ lookup (ghosts.eq name.now) self.now }
    {
        Some(*self.names.get(name)?)
    }

    /// Tells whether a name is held in a mode that conflicts.
    #[inline(always)]
    pub(crate) fn conflicts(&self, name: &Name, mode: Mode) -> bool
        ensures { result ≡ not (go_together mode (lookup (ghosts.eq name.now) self.now)) }
    {
        match self.names.get(name) {
            Some(held) => is_in_the_way(*held, mode),
            None => false,
        }
    }

    /// Lends the names.
    pub(crate) fn names(&self) -> &[Name]
        ensures exact { result.now ≡ keys_of self.now }
        ensures once { AreOnce result.now }
    {
        self.names.keys().as_slice()
    }

    // Gives the mode of a name that stays in that mode where the other one is asked for.
    #[inline(always)]
    fn stays(&self, name: &Name, mode: Mode) -> Option<Mode>
        ensures there { IfSome result (λ was. lookup (ghosts.eq name.now) self.now ≡ Some was) }
        ensures same { IfSome result (λ was. greater_mode mode (Some was) ≡ was) }
        ensures other { IfNone result (greater_mode mode (lookup (ghosts.eq name.now) self.now)
            ≡ mode) }
    {
        match mode {
            Mode::Shared => self.mode(name),
            Mode::Exclusive => None,
        }
    }

    /// Takes a name, or raises its mode, and answers the mode before.
    #[inline(never)]
    pub(crate) fn take(&mut self, name: &Name, mode: Mode) -> Result<Option<Mode>, AllocError>
        ensures before { IfOk result (λ was. was ≡ lookup (ghosts.eq name.now) self.old) }
        ensures own { OnOk result (Changes self.old self.new name.now
            (Some (greater_mode mode (lookup (ghosts.eq name.now) self.old)))) }
        ensures order { OnOk result (keys_of self.new ≡ taken_names (keys_of self.old) name.now) }
        ensures absent { OnErr result (lookup (ghosts.eq name.now) self.old ≡ None) }
        ensures err { OnErr result (self.new ≡ self.old) }
    {
        if let Some(was) = self.stays(name, mode) {
            return Ok(Some(was));
        }
        match self.names.insert(*name, mode) {
            Ok(was) => Ok(was),
            Err(_) => Err(AllocError),
        }
    }

    // Gives a name that is held another mode.
    #[inline]
    fn lower(&mut self, name: &Name, mode: Mode)
        requires { IsSome (lookup (ghosts.eq name.now) self.old) }
        ensures own { Changes self.old self.new name.now (Some mode) }
        ensures order { keys_of self.new ≡ keys_of self.old }
    {
        set_mode(&mut self.names, name, mode);
    }

    // Lets go of a name. The others keep their order.
    #[inline]
    fn leave(&mut self, name: &Name)
        ensures own { Changes self.old self.new name.now None }
        ensures order { keys_of self.new ≡ given_back_names (keys_of self.old) name.now None }
    {
        self.names.shift_remove(name);
    }

    /// Gives a name that is held another mode, or with `None` lets go of the name.
    #[inline]
    pub(crate) fn give_back(&mut self, name: &Name, mode: Option<Mode>)
        requires { IfSome mode (λ m. IsSome (lookup (ghosts.eq name.now) self.old)) }
        ensures own { Changes self.old self.new name.now mode }
        ensures order { keys_of self.new ≡ given_back_names (keys_of self.old) name.now mode }
    {
        match mode {
            Some(mode) => self.lower(name, mode),
            None => self.leave(name),
        }
    }

    /// Lets go of all names, and keeps their room.
    #[inline(always)]
    pub(crate) fn clear(&mut self)
        ensures { self.new ≡ [] }
    {
        self.names.truncate(0);
    }
}
