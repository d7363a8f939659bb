//! Memory that is given back.

/// Shrinks the list before it is freed: once a large block was given back, the C library keeps
/// larger blocks in its own heaps.
pub(crate) fn release<T: Copy>(list: Vec<T>) {
    let mut list = list;
    list.truncate(1);
    list.shrink_to_fit();
    drop(list);
}
