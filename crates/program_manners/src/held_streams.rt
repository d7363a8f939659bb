//! Standard streams that are closed.

use std::fs;
use std::fs::Files;

/// A folder, which can be neither read nor written as a stream, takes the place of a closed one: the
/// system gives a file the place of the first closed stream.
fn held<R: Files>(rt: &R, stream: &str) -> Option<R::File> {
    match fs::metadata(rt, stream) {
        Ok(_) => None,
        Err(_) => fs::open(rt, "/").ok(),
    }
}

/// Holds the places of the standard streams that are closed, as long as what is returned is kept, so
/// that no file of the run is read or written in their place.
pub fn hold_streams<R: Files>(rt: &R) -> [Option<R::File>; 3] {
    [
        held(rt, "/dev/stdin"),
        held(rt, "/dev/stdout"),
        held(rt, "/dev/stderr"),
    ]
}
