//! The places of a program that is being read.
ghost use Rattle.std.specs.Prelude.{◌≡◌, ◌++◌, ◌∷◌, [], Some, None, length, map, slice_set, IfOk, OnOk};
ghost use Rattle.apl_grammar.specs.Storage.{places_of};
ghost use Rattle.apl_grammar.specs.Automaton.{without_empty_places};

use crate::program::Operation;
use std::alloc::{AllocError, Global};
use std::marker::Model;
use std::mem;

/// Most statements keep no place empty. Their operations take less room, and are not copied at the end.
#[derive(Drop)]
enum PlaceStorage {
    Dense(Vec<Operation>),
    Sparse(Vec<Option<Operation>>),
}

/// Operations in the order of evaluation, with empty places among them.
#[derive(Drop)]
pub(crate) struct PartialProgram {
    storage: PlaceStorage,
}

impl Model for PartialProgram {
    ghost use Rattle.std.specs.Prelude.{List, Option};
    ghost use Rattle.apl_grammar.specs.declared.program.Operation.{Operation};

    ghost Value = { List (Option Operation) };

    ghost use Rattle.apl_grammar.specs.Storage.{places_of};

    ghost view = { λ p. places_of p.storage };
}

impl PartialProgram {
    /// No places, and room for `capacity` of them.
    pub(crate) fn with_capacity(
        alloc: Global,
        capacity: usize,
    ) -> Result<PartialProgram, AllocError>
        ensures { IfOk result (λ places. places ≡ []) }
    {
        let operations = Vec::with_capacity(alloc, capacity)?;
        Ok(PartialProgram {
            storage: PlaceStorage::Dense(operations),
        })
    }

    #[inline]
    #[tactic(auto, using(crate::proofs::Full::full_append))]
    pub(crate) fn push(&mut self, operation: Operation) -> Result<(), AllocError>
        ensures { OnOk result (self.new ≡ self.old ++ Some operation ∷ []) }
    {
        match &mut self.storage {
            PlaceStorage::Dense(operations) => Ok(operations.push(operation)?),
            PlaceStorage::Sparse(places) => Ok(places.push(Some(operation))?),
        }
    }

    /// Keeps a place, and answers which it is.
    pub(crate) fn keep_place(&mut self, alloc: Global) -> Result<usize, AllocError>
        ensures place { IfOk result (λ place. place ≡ length self.old) }
        ensures kept { OnOk result (self.new ≡ self.old ++ None ∷ []) }
    {
        let storage = mem::replace(&mut self.storage, PlaceStorage::Sparse(Vec::new(alloc)));
        let mut places = into_sparse(alloc, storage)?;
        let place = places.len();
        places.push(None)?;
        self.storage = PlaceStorage::Sparse(places);
        Ok(place)
    }

    /// Puts an operation into a place, if there is such a place.
    #[tactic(auto, using(crate::proofs::Full::full_set))]
    pub(crate) fn fill(&mut self, place: usize, operation: Operation)
        ensures { self.new ≡ slice_set self.old place (Some operation) }
    {
        match &mut self.storage {
            PlaceStorage::Dense(operations) => put(operations, place, operation),
            PlaceStorage::Sparse(places) => put(places, place, Some(operation)),
        }
    }

    /// The operations without the empty places.
    #[tactic(auto, using(crate::proofs::Full::emitted_full))]
    pub(crate) fn into_operations(self, alloc: Global) -> Result<Vec<Operation>, AllocError>
        ensures { IfOk result (λ operations. operations.items ≡ without_empty_places self) }
    {
        let PartialProgram { storage } = self;
        match storage {
            PlaceStorage::Dense(operations) => Ok(operations),
            PlaceStorage::Sparse(places) => without_empty(alloc, places),
        }
    }
}

/// Puts an item into a place, if there is such a place.
fn put<T: Drop>(items: &mut Vec<T>, place: usize, item: T)
    ensures { items.new.items ≡ slice_set items.old.items place item }
{
    if let Some(kept) = items.get_mut(place) {
        *kept = item;
    }
}

/// The places one by one.
fn into_sparse(alloc: Global, storage: PlaceStorage) -> Result<Vec<Option<Operation>>, AllocError>
    ensures { IfOk result (λ places. places.items ≡ places_of storage) }
{
    match storage {
        PlaceStorage::Dense(operations) => filled_places(alloc, operations),
        PlaceStorage::Sparse(places) => Ok(places),
    }
}

/// Places that have these operations, with room for as many as they had.
fn filled_places(
    alloc: Global,
    operations: Vec<Operation>,
) -> Result<Vec<Option<Operation>>, AllocError>
    ensures { IfOk result (λ places. places.items ≡ map Some operations.items) }
{
    let mut places = Vec::with_capacity(alloc, operations.capacity())?;
    for operation in operations {
        places.push(Some(operation))?;
    }
    Ok(places)
}

/// The operations without the empty places.
fn without_empty(
    alloc: Global,
    places: Vec<Option<Operation>>,
) -> Result<Vec<Operation>, AllocError>
    ensures { IfOk result (λ operations. operations.items ≡ without_empty_places places.items) }
{
    let mut operations = Vec::with_capacity(alloc, places.len())?;
    for place in places {
        if let Some(operation) = place {
            operations.push(operation)?;
        }
    }
    Ok(operations)
}
