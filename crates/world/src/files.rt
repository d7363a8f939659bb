//! Whole files and standard input, up to a limit, each read recorded.
ghost use Rattle.std.specs.Prelude.{◌≡◌, ◌≢◌, ◌+◌, ◌≤◌, ◌<◌, Err, None, Some, IfErr, IfOk, OnOk};
ghost use Rattle.std.specs.Prelude.{[], length, take, vec_len};
ghost use Rattle.world.specs.{Loads.IsRefused, Run.Load, Run.with_load};

use crate::faults::LoadFault;
use crate::trace::Trace;
use std::alloc::{AllocError, Global};
use std::fs::Files;
use std::io::{ErrorKind, Read};
use std::{fs, io};

/// The most bytes of a file that is loaded: 64 MiB.
pub const LOAD_LIMIT_BYTES: usize = 67_108_864;

/// How many bytes more are requested if the room is full.
const MORE_BYTES: usize = 65_536;

/// All bytes of the file of this name, read into the memory of `room`, which is overwritten.
pub fn load_into<R: Files>(
    rt: &R,
    name: &str,
    room: Vec<u8>,
    trace: &mut Trace,
) -> Result<Vec<u8>, LoadFault>
    ensures loaded { IfOk result (λ bytes.
        trace.new.run ≡ with_load trace.old.run (Some name.now) bytes.items) }
    ensures refused { IfErr result (IsRefused trace.old.run trace.new.run (Some name.now)) }
{
    match fs::open(rt, name) {
        Ok(mut file) => {
            trace.opened(name);
            read_all(&mut file, room, trace)
        }
        Err(error) if error.kind() == ErrorKind::OutOfMemory => Err(LoadFault::NoMemory),
        Err(_) => {
            trace.unopened(name);
            Err(LoadFault::Unread)
        }
    }
}

/// All bytes that standard input has left, read to its end.
pub fn load_input<I: Read>(
    alloc: Global,
    input: &mut I,
    trace: &mut Trace,
) -> Result<Vec<u8>, LoadFault>
    ensures loaded { IfOk result (λ bytes.
        trace.new.run ≡ with_load trace.old.run None bytes.items) }
    ensures refused { IfErr result (IsRefused trace.old.run trace.new.run None) }
{
    trace.input();
    read_all(input, Vec::new(alloc), trace)
}

fn make_room(bytes: &mut Vec<u8>, end: usize) -> Result<(), AllocError>
    requires len { end ≤ vec_len bytes.old }
    requires short { end ≤ LOAD_LIMIT_BYTES }
    ensures kept { OnOk result (take end bytes.new.items ≡ take end bytes.old.items) }
    ensures len { OnOk result (end ≤ vec_len bytes.new) }
{
    if end >= bytes.len() {
        bytes.resize(end + MORE_BYTES, 0)?;
    }
    Ok(())
}

fn read_after<F: Read>(file: &mut F, bytes: &mut Vec<u8>, end: usize) -> io::Result<usize>
    requires { end ≤ vec_len bytes.old }
    ensures kept { take end bytes.new.items ≡ take end bytes.old.items }
    ensures len { vec_len bytes.new ≡ vec_len bytes.old }
    ensures bound { IfOk result (λ count. end + count ≤ vec_len bytes.new) }
{
    file.read(&mut bytes[end..])
}

fn note_read(trace: &mut Trace, bytes: &Vec<u8>, end: usize, count: usize)
    requires { count ≢ 0 }
    ensures run { trace.new.run ≡ trace.old.run }
    ensures reading { (before : Load)
        → trace.old.reading ≡ record { name = before.name; bytes = take end bytes.now.items }
        → trace.new.reading
        ≡ record { name = before.name; bytes = take (end + count) bytes.now.items } }
{
    trace.read(bytes, end, count)
}

fn note_too_long(trace: &mut Trace, bytes: &Vec<u8>, end: usize) -> LoadFault
    requires len { end ≤ vec_len bytes.now }
    requires longer { LOAD_LIMIT_BYTES < end }
    ensures { (before : Load)
        → trace.old.reading ≡ record { name = before.name; bytes = take end bytes.now.items }
        → IsRefused trace.old.run trace.new.run before.name result }
{
    let _ = bytes;
    let _ = end;
    trace.stopped();
    LoadFault::TooLong
}

/// Stops at the first read that fails, unless by a signal, or that passes the limit.
fn read_all<F: Read>(file: &mut F, room: Vec<u8>, trace: &mut Trace) -> Result<Vec<u8>, LoadFault>
    requires { trace.old.reading.bytes ≡ [] }
    ensures loaded { IfOk result (λ bytes.
        trace.new.run ≡ with_load trace.old.run trace.old.reading.name bytes.items) }
    ensures refused { IfErr result
        (IsRefused trace.old.run trace.new.run trace.old.reading.name) }
{
    let mut bytes = room;
    let mut end = 0usize;
    for _ in 0..u64::MAX {
        make_room(&mut bytes, end)?;
        match read_after(file, &mut bytes, end) {
            Ok(0) => {
                trace.read(&bytes, end, 0);
                bytes.truncate(end);
                return Ok(bytes);
            }
            Ok(count) => {
                note_read(trace, &bytes, end, count);
                end += count;
                if end > LOAD_LIMIT_BYTES {
                    return Err(note_too_long(trace, &bytes, end));
                }
            }
            Err(error) if error.kind() == ErrorKind::Interrupted => {}
            Err(error) if error.kind() == ErrorKind::OutOfMemory => {
                return Err(LoadFault::NoMemory);
            }
            Err(_) => break,
        }
    }
    trace.unread();
    Err(LoadFault::Unread)
}
