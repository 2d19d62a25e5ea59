//! The contents of handles.

ghost use Rattle.std.specs.Prelude.{◌≡◌, IfOk};
ghost use Rattle.std.specs.Arc.{arc_value};
ghost use Rattle.c_calls.specs.Contents.{dictionary_of, held_in, Dictionary, Levels};

use any_dictionary::AnyDictionary;
use libhyphen_files::LevelDictionary;
use std::alloc::{AllocError, Global};
use std::cell::Cell;
use std::sync::Arc;

// A longer list is freed after its call, so that a handle keeps 512 bytes at most.
const MOST_KEPT: usize = 64;

/// A dictionary of either kind, which several handles may hold, and a list for the places of a word.
///
/// A handle keeps the list, so that calls for one word after the other need no memory of their own. It is that of one
/// handle, and so no two calls use it at once.
#[derive(Drop)]
pub struct Loaded {
    /// The dictionary.
    pub dictionary: Arc<AnyDictionary>,
    // The list, unless a call has taken it.
    list: Cell<Option<Vec<usize>>>,
}

/// A dictionary in the box of a handle, for one of the two sorts of calls.
#[derive(Drop)]
pub enum Content {
    /// A dictionary of either kind.
    Dictionary(Loaded),
    /// A dictionary of two levels.
    Levels(LevelDictionary),
}

impl Loaded {
    /// Puts this dictionary in a box for another handle. Nothing of it is copied. The only error is that memory was
    /// refused.
    pub fn shared(&self, alloc: Global) -> Result<Box<Content>, AllocError>
        ensures { IfOk result (λ boxed. held_in boxed.value ≡ Dictionary (dictionary_of self.now)) }
    {
        held_by_one(alloc, Arc::try_clone(&self.dictionary)?)
    }

    /// Takes the list, or a new one that has no memory yet. Nothing is known of what it contains.
    #[inline(always)]
    pub fn take_list(&self, alloc: Global) -> Vec<usize> {
        match self.list.replace(None) {
            Some(list) => list,
            None => Vec::new(alloc),
        }
    }

    /// Keeps a list for the next call, if it is short.
    #[inline(always)]
    pub fn keep_list(&self, list: Vec<usize>) {
        if list.capacity() <= MOST_KEPT {
            self.list.set(Some(list));
        }
    }
}

impl Content {
    /// Puts a dictionary in a box, as one handle holds it. The only error is that memory was refused.
    pub fn of_dictionary(
        alloc: Global,
        dictionary: AnyDictionary,
    ) -> Result<Box<Content>, AllocError>
        ensures { IfOk result (λ boxed. held_in boxed.value ≡ Dictionary dictionary) }
    {
        match Arc::new(alloc, dictionary) {
            Ok(counted) => held_by_one(alloc, counted),
            Err(_) => Err(AllocError),
        }
    }

    /// Puts a dictionary of two levels in a box. The only error is that memory was refused.
    pub fn of_levels(alloc: Global, dictionary: LevelDictionary) -> Result<Box<Content>, AllocError>
        ensures { IfOk result (λ boxed. held_in boxed.value ≡ Levels dictionary) }
    {
        boxed(alloc, Content::Levels(dictionary))
    }
}

// A counted dictionary in a box, without a list.
fn held_by_one(alloc: Global, dictionary: Arc<AnyDictionary>) -> Result<Box<Content>, AllocError>
    ensures { IfOk result (λ boxed. held_in boxed.value ≡ Dictionary (arc_value dictionary)) }
{
    let list = Cell::new(None);
    boxed(alloc, Content::Dictionary(Loaded { dictionary, list }))
}

// A content in a box.
fn boxed(alloc: Global, content: Content) -> Result<Box<Content>, AllocError>
    ensures { IfOk result (λ boxed. boxed.value ≡ content) }
{
    match Box::new(alloc, content) {
        Ok(boxed) => Ok(boxed),
        Err(_) => Err(AllocError),
    }
}
