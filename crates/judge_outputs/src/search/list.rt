//! Small calls on lists.
use std::alloc::{AllocError, Global};

/// A copy of a list.
pub(crate) fn copy_of<T: Copy>(alloc: Global, list: &[T]) -> Result<Vec<T>, AllocError> {
    Vec::from_slice(alloc, list)
}

/// Writes an element, where there is one at this place.
pub(crate) fn set_at<T: Copy + Drop>(list: &mut Vec<T>, at: usize, value: T) {
    if let Some(element) = list.get_mut(at) {
        *element = value;
    }
}
