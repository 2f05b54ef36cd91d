//! Windows that were left at leaves, as they are before they are unwound, and the members to which they came.
ghost use Rattle.std.specs.Prelude.{◌≡◌, ◌<◌, ◌≤◌, ◌^◌, [], ℕ, List, Some, length, map, slice_get, IfOk, IfSome, OnOk};
ghost use Rattle.pc_window.specs.Tree.{tree_size};
ghost use Rattle.pc_window.specs.Unwinding.{most_unwound};
ghost use Rattle.pc_window.specs.Steps.{IsProper};
ghost use Rattle.pc_window.specs.StoredWindow.{tree_in, window_in};
ghost use Rattle.pc_pattern.specs.Searches.{Rules};
ghost use Rattle.pc_pattern.specs.models.Pools.{keys_in};
ghost use Rattle.pc_pattern.specs.models.Seen.{AreSeen, HasPlace, IsMet, MayKeep};

use crate::member_key::MemberKey;
use crate::pool::placed;
use indexmap::IndexSet;
use pc_canon::{WindowKey, key};
use pc_window::{NumberList, Window, WindowError};
use std::alloc::{AllocError, Global};

/// A member to which a left window came.
#[derive(Debug, Drop)]
pub(crate) struct SeenMember {
    /// Its number.
    pub(crate) number: u32,
    /// Where the parameters of the window that was brought on stand among those of the left window, in the order of first use.
    pub(crate) places: NumberList,
}

/// Left windows that were met: the key of each, once it is rebased, and the member to which it came, if it came to one.
#[derive(Drop)]
pub(crate) struct Seen {
    pub(crate) keys: IndexSet<MemberKey>,
    pub(crate) members: Vec<Option<SeenMember>>,
    /// How many more may be looked for in vain. Each that is found gives more.
    credit: u32,
}

/// How many members a search has at least where looking for a left window is worth its key.
const LARGE: usize = 12;

/// How many left windows may be looked for in vain at first.
const FIRST_CREDIT: u32 = 8;

/// How many more, for each that is found.
const CREDIT_OF_ONE: u32 = 2;

impl Seen {
    /// No window was met.
    pub(crate) fn nothing(alloc: Global) -> Seen
        ensures keys { keys_in result.keys.keys ≡ [] }
        ensures members { result.members.items ≡ [] }
    {
        Seen {
            keys: IndexSet::new(alloc),
            members: Vec::new(alloc),
            credit: FIRST_CREDIT,
        }
    }

    /// Whether it is worth its key to look for a left window, in a search with so many members.
    pub(crate) fn is_worth_a_look(&self, members: usize) -> bool {
        self.credit > 0 && members >= LARGE
    }

    /// The place of a left window with this key; it is met for the first time where it has no place yet.
    #[tactic(auto, using(crate::proofs::SeenWindows::places))]
    pub(crate) fn place_of(&mut self, key: MemberKey) -> Result<usize, AllocError>
        ensures { IfOk result (λ place. HasPlace key.bytes.items place self.old self.new) }
    {
        let (place, is_new) = placed(key, &mut self.keys)?;
        if is_new {
            self.members.push(None)?;
            self.credit = self.credit.saturating_sub(1);
        } else {
            self.credit = self.credit.saturating_add(CREDIT_OF_ONE);
        }
        Ok(place)
    }

    /// The member to which the left window at a place came, if it came to one.
    pub(crate) fn member_at(&self, place: usize) -> Option<&SeenMember>
        ensures { IfSome result (λ member. slice_get self.now.members.items place ≡ Some (Some member.now)) }
    {
        self.members.get(place)?.as_ref()
    }

    /// Keeps for a left window that was met the member with this number, to which it came: with these parameters, once
    /// it was brought on.
    #[tactic(auto, using(crate::proofs::SeenWindows::keeping))]
    pub(crate) fn keep(
        &mut self,
        alloc: Global,
        met: &Met,
        number: u32,
        parameters: &[u32],
    ) -> Result<(), AllocError>
        ensures { OnOk result (MayKeep met.now number parameters.now self.old self.new) }
    {
        let Some(places) = places_among(alloc, met.parameters.as_slice(), parameters)? else {
            return Ok(());
        };
        if met.place < self.members.len() {
            self.members[met.place] = Some(SeenMember { number, places });
        }
        Ok(())
    }
}

/// A left window that was met, once it was rebased: its place among those, and its parameters in the order of first use.
#[derive(Debug, Drop)]
pub(crate) struct Met {
    pub(crate) place: usize,
    pub(crate) parameters: NumberList,
}

/// A rebased window as one that is met.
#[tactic(auto, using(crate::proofs::SeenWindows::meeting))]
pub(crate) fn met_as(alloc: Global, window: &Window, seen: &mut Seen) -> Result<Met, WindowError>
    requires proper { IsProper (window_in window.now) }
    requires size { tree_size (tree_in window.now.tree) ≤ most_unwound }
    requires names { length window.now.names.forms < 2 ^ 31 }
    ensures met { IfOk result (λ met. IsMet seen.new met (window_in window.now)) }
    ensures kept { OnOk result ((rules : Rules) (keys : List (List ℕ)) → AreSeen rules keys seen.old → AreSeen rules keys seen.new) }
{
    let WindowKey {
        bytes,
        names: parameters,
        ..
    } = key(alloc, window)?;
    let place = seen.place_of(MemberKey { bytes })?;
    Ok(Met { place, parameters })
}

/// Where a name stands in a list, if it does.
fn place_in(names: &[u32], name: u32) -> Option<u32>
    ensures { IfSome result (λ place. slice_get names.now place ≡ Some name) }
{
    for at in 0..names.len() {
        if names[at] == name {
            return u32::try_from(at).ok();
        }
    }
    None
}

/// Where names stand among others, one by one, if all do.
pub(crate) fn places_among(
    alloc: Global,
    others: &[u32],
    names: &[u32],
) -> Result<Option<NumberList>, AllocError>
    ensures { IfOk result (λ found. IfSome found (λ places. map (λ place. slice_get others.now place) places ≡ map (λ name. Some name) names.now)) }
{
    let mut places = NumberList::new(alloc);
    for name in names {
        let Some(place) = place_in(others, *name) else {
            return Ok(None);
        };
        places.push(place)?;
    }
    Ok(Some(places))
}

/// The name that stands at a place, if one does.
fn name_at(names: &[u32], place: u32) -> Option<u32>
    ensures { IfSome result (λ name. slice_get names.now place ≡ Some name) }
{
    names.get(place as usize).copied()
}

/// The names that stand at these places, one by one, if all are there.
pub(crate) fn names_at(
    alloc: Global,
    names: &[u32],
    places: &[u32],
) -> Result<Option<NumberList>, AllocError>
    ensures { IfOk result (λ found. IfSome found (λ there. map (λ place. slice_get names.now place) places.now ≡ map (λ name. Some name) there)) }
{
    let mut there = NumberList::new(alloc);
    for place in places {
        let Some(name) = name_at(names, *place) else {
            return Ok(None);
        };
        there.push(name)?;
    }
    Ok(Some(there))
}
