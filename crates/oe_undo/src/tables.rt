//! The links of one table, whose keys have their places by their numbers. Only `reach` and `insert`
//! take memory, and may be refused it.
ghost use Rattle.std.specs.Prelude.{◌≡◌, None, IsSome, Option, OnOk, OnErr};
ghost use Rattle.std.specs.Borrow.{sem};
ghost use Rattle.std.specs.Option.{option_copied_mut};
ghost use Rattle.oe_undo.specs.declared.links.OwnedLink.{OwnedLink};
ghost use Rattle.oe_undo.specs.Tables.{link_by_number, link_in, SetsNumber, GivesNumbers, InsertsNumber};
ghost use Rattle.oe_undo.specs.TablesLend.{lends_number};

use crate::links::OwnedLink;
use crate::numbers::NumberedKey;
use crate::places::Places;
use oe_values::NoMemory;

/// Gives the link of a key, if it has one.
#[inline(always)]
pub(crate) fn link_in<K: NumberedKey>(links: &Places<OwnedLink>, key: &K) -> Option<OwnedLink>
    ensures { result ≡ link_in (link_by_number links.now (K.shelf_of key.now)
        (K.number_of key.now)) }
{
    links.content(key.shelf(), key.number())
}

/// Gives the place of a key that has one, to be set there.
#[inline(always)]
pub(crate) fn place_in<'a, K: NumberedKey>(
    links: &'a mut Places<OwnedLink>,
    key: &K,
) -> Option<&'a mut Option<OwnedLink>>
    ensures* writes_back { sem 𝓛
        (lends_number links.entry (K.shelf_of key.now) (K.number_of key.now) result) }
    ensures place { option_copied_mut result
        ≡ link_by_number links.old (K.shelf_of key.now) (K.number_of key.now) }
{
    links.place_mut(key.shelf(), key.number())
}

/// Gives a key without a place one, and each key before it on its shelf.
pub(crate) fn reach<K: NumberedKey>(links: &mut Places<OwnedLink>, key: &K) -> Result<(), NoMemory>
    ensures given { OnOk result
        (GivesNumbers K.shelf_of K.number_of links.old links.new key.now) }
    ensures own { OnOk result
        (IsSome (link_by_number links.new (K.shelf_of key.now) (K.number_of key.now))) }
    ensures no_place { OnErr result
        (link_by_number links.old (K.shelf_of key.now) (K.number_of key.now) ≡ None) }
    ensures err { OnErr result (links.new ≡ links.old) }
{
    links.reach(key.shelf(), key.number())
}

/// Sets the link in a key's place.
#[inline(always)]
pub(crate) fn set<K: NumberedKey>(links: &mut Places<OwnedLink>, key: &K, link: Option<OwnedLink>)
    requires { IsSome (link_by_number links.old (K.shelf_of key.now) (K.number_of key.now)) }
    ensures { SetsNumber K.cmp K.shelf_of K.number_of links.old links.new key.now link }
{
    let place = place_in(links, key).unwrap();
    *place = link;
}

/// Gives a key without a place one with its link, and each key before it on its shelf one.
pub(crate) fn insert<K: NumberedKey>(
    links: &mut Places<OwnedLink>,
    key: &K,
    link: OwnedLink,
) -> Result<(), NoMemory>
    ensures inserted { OnOk result (InsertsNumber K.cmp K.shelf_of K.number_of
        links.old links.new key.now (Some link)) }
    ensures err { OnErr result (links.new ≡ links.old) }
{
    if let Err(refusal) = reach(links, key) {
        return Err(refusal);
    }
    set(links, key, Some(link));
    Ok(())
}
