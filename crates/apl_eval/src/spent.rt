//! Values that are not needed any more.

use apl_array::{Array, Ravel};
use apl_pool::KeptLists;
use std::rc::Rc;

/// Keeps the elements of a value for a later result, if they are many and nothing else has the value.
pub(crate) fn let_go(kept: &KeptLists, value: Rc<Array>) {
    if !kept.keeps(value.shape().count()) {
        return;
    }
    if let Ok(array) = Rc::try_unwrap(value) {
        match array.into_ravel() {
            Ravel::Numbers(numbers) => kept.keep(numbers),
            Ravel::Narrow(numbers) => kept.keep(numbers),
            Ravel::Truths(truths) => kept.keep(truths),
            Ravel::Characters(characters) => kept.keep(characters),
        }
    }
}
