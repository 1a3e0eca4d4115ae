// What is found in the elements of rows, once for the same rows.

ghost use Rattle.std.specs.Prelude.{◌≡◌, ℕ, Bool, List, ◌<◌, ◌≤◌, ◌^◌, [], ◌∷◌, flat_map, length, None, IfOk, OnOk};
ghost use Rattle.std.specs.Rc.{rc_slice_items};
ghost use Rattle.nxt_model.specs.Reading.{row_count};
ghost use Rattle.nxt_layout.specs.Rows.{Ground, elements_of};
ghost use Rattle.nxt_layout.specs.Inside.RowPasses.{ground_of, numbers_in, tallied};
ghost use Rattle.nxt_layout.specs.Inside.Known.{AreElements, ArePlacesOf, IsFoundIn, IsKnown, IsNamed, IsSame, IsToldBy};

use crate::dataspace::Dataspace;
use crate::names::Names;
use crate::places::{Places, places_of};
use nxt_types::NoMemory;
use std::alloc::Global;
use std::collections::BTreeMap;
use std::rc::RcSlice;

/// How many row numbers are kept at most, but for those that were found last.
const MOST_KEPT: u64 = 2_500_000;

/// What is kept beside row numbers with what is found, as row numbers.
const KEPT_BESIDE: u64 = 50;

/// What the numbers at a place in elements tell: the rows that they name, each at most twice, how many numbers there are, and
/// whether one is past the table's rows.
#[derive(Drop)]
pub struct Found {
    pub rows: RcSlice<u16>,
    pub lists: u64,
    pub beyond: bool,
}

/// The rows whose elements are read through an array, and the places of those elements once they were asked for.
#[derive(Drop)]
pub struct Elements {
    pub rows: RcSlice<u16>,
    places: Option<Places>,
}

/// What is found by the place of the numbers and the rows whose elements have them, and how many row numbers it takes.
#[derive(Drop)]
pub struct Known {
    found: BTreeMap<(u32, RcSlice<u16>), Found>,
    kept: u64,
}

/// What the number outside of all elements tells.
pub fn found_outside(alloc: Global, space: &Dataspace, place: u32) -> Result<Found, NoMemory>
    requires { place < 2 ^ 16 }
    ensures { IfOk result (IsFoundIn (ground_of space.now) place (0 ∷ [])) }
{
    let mut names = Names::new(alloc, space)?;
    names.take(space.number_at(place as usize), 1);
    found_of(alloc, space, &names, 1)
}

impl Known {
    /// Nothing is known.
    pub fn new(alloc: Global) -> Known
        ensures { (g : Ground) → IsKnown g result }
    {
        Known {
            found: BTreeMap::new(alloc),
            kept: 0,
        }
    }

    /// What the numbers at a place in these elements tell. It is found once, while it is kept.
    pub fn find(
        &mut self,
        alloc: Global,
        space: &Dataspace,
        elements: &mut Elements,
        place: u32,
    ) -> Result<Found, NoMemory>
        requires place { place < 2 ^ 16 }
        requires elements { AreElements (ground_of space.now) elements.old }
        requires known { IsKnown (ground_of space.now) self.old }
        ensures found { IfOk result (IsFoundIn (ground_of space.now) place (flat_map (elements_of (ground_of space.now)) (rc_slice_items elements.old.rows))) }
        ensures rows { rc_slice_items elements.new.rows ≡ rc_slice_items elements.old.rows }
        ensures elements { AreElements (ground_of space.now) elements.new }
        ensures known { OnOk result (IsKnown (ground_of space.now) self.new) }
    {
        let key = (place, elements.rows.clone()?);
        if let Some(found) = self.found.get(&key) {
            return found.share();
        }
        let found = elements.find(alloc, space, place)?;
        let shared = found.share()?;
        self.keep(alloc, key, found)?;
        Ok(shared)
    }

    // Keeps what is found, and nothing else where that is too much.
    fn keep(
        &mut self,
        alloc: Global,
        key: (u32, RcSlice<u16>),
        found: Found,
    ) -> Result<(), NoMemory>
        ensures { (g : Ground) → IsKnown g self.old → IsFoundIn g key.0 (flat_map (elements_of g) (rc_slice_items key.1)) found → OnOk result (IsKnown g self.new) }
    {
        if self.kept > MOST_KEPT {
            self.found = BTreeMap::new(alloc);
            self.kept = 0;
        }
        self.kept += KEPT_BESIDE + found.rows.as_slice().len() as u64;
        let _none = self.found.insert(key, found)?;
        Ok(())
    }
}

impl Elements {
    /// The elements of these rows.
    pub fn new(rows: RcSlice<u16>) -> Elements
        ensures rows { result.rows ≡ rows }
        ensures places { result.places ≡ None }
    {
        Elements { rows, places: None }
    }

    // What the numbers at a place in them tell.
    fn find(&mut self, alloc: Global, space: &Dataspace, place: u32) -> Result<Found, NoMemory>
        requires place { place < 2 ^ 16 }
        requires elements { AreElements (ground_of space.now) self.old }
        ensures found { IfOk result (IsFoundIn (ground_of space.now) place (flat_map (elements_of (ground_of space.now)) (rc_slice_items self.old.rows))) }
        ensures rows { rc_slice_items self.new.rows ≡ rc_slice_items self.old.rows }
        ensures elements { AreElements (ground_of space.now) self.new }
    {
        let places = match self.places.take() {
            Some(places) => places,
            None => places_of(alloc, space, self.rows.as_slice())?,
        };
        let names = names_at(alloc, space, &places, place)?;
        self.places = Some(places);
        let lists = count_of(space, self.rows.as_slice());
        found_of(alloc, space, &names, lists)
    }
}

// What the numbers at a place in the elements that stand at these places name.
fn names_at(
    alloc: Global,
    space: &Dataspace,
    places: &Places,
    place: u32,
) -> Result<Names, NoMemory>
    ensures { (bases : List ℕ) → ArePlacesOf bases places.now → IfOk result (IsNamed (ground_of space.now) (tallied (numbers_in (ground_of space.now) place bases))) }
{
    let mut names = Names::new(alloc, space)?;
    names.take_at(space, places.once.as_slice(), place, 1);
    names.take_at(space, places.often.as_slice(), place, 2);
    Ok(names)
}

// What the names tell of numbers of which there are `lists`.
fn found_of(alloc: Global, space: &Dataspace, names: &Names, lists: u64) -> Result<Found, NoMemory>
    requires { length names.now.marks.items ≡ row_count (ground_of space.now).memory }
    ensures { (c : (ℕ → Bool) → ℕ) → IsNamed (ground_of space.now) c names.now → IfOk result (IsToldBy (ground_of space.now) c lists) }
{
    let rows = names.rows(alloc, space)?;
    Ok(Found {
        rows: RcSlice::from_vec(rows)?,
        lists,
        beyond: names.beyond,
    })
}

impl Found {
    fn share(&self) -> Result<Found, NoMemory>
        ensures { IfOk result (IsSame self.now) }
    {
        Ok(Found {
            rows: self.rows.clone()?,
            lists: self.lists,
            beyond: self.beyond,
        })
    }
}

// How many elements the rows have.
fn count_of(space: &Dataspace, rows: &[u16]) -> u64
    requires { length rows.now ≤ 2 ^ 17 }
    ensures count { result ≡ length (flat_map (elements_of (ground_of space.now)) rows.now) }
    ensures bound { result ≤ 2 ^ 33 }
{
    let mut count: u64 = 0;
    for row in rows {
        count += u64::from(space.count(*row));
    }
    count
}
