//! A file for which memory runs out.

use super::running::{NoDisk, texts_of};
use fare_program::{Output, main_over};
use std::fmt::Display;
use std::test::Fail;
use std::{fs, io};
use world::{Inputs, LoadFault, Loaded, MakeFault, System, Trace, World, WriteFault};

/// The name of the file for which memory runs out.
const LARGE: &str = "large";

/// A world that has too little memory for the file `LARGE`.
#[derive(Drop)]
struct Scarce<W> {
    from: W,
}

impl<S: Inputs + Drop> Inputs for Scarce<S> {
    ghost run = { λ w. S.run w.from };

    fn load(&mut self, name: &str) -> Result<Vec<u8>, LoadFault> {
        if name == LARGE {
            return Err(LoadFault::NoMemory);
        }
        self.from.load(name)
    }

    fn load_into(&mut self, name: &str, room: Vec<u8>) -> Result<Vec<u8>, LoadFault> {
        if name == LARGE {
            return Err(LoadFault::NoMemory);
        }
        self.from.load_into(name, room)
    }

    fn input(&mut self) -> Result<Vec<u8>, LoadFault> {
        self.from.input()
    }

    fn take(&mut self, file: Loaded) -> Vec<u8> {
        self.from.take(file)
    }

    fn join(&mut self, calls: Trace) {
        self.from.join(calls);
    }
}

impl<S: World + Drop> World for Scarce<S> {
    type File = S::File;

    fn write(&mut self, piece: &[u8]) -> Result<(), WriteFault> {
        self.from.write(piece)
    }

    fn flush(&mut self) -> Result<(), WriteFault> {
        self.from.flush()
    }

    fn say(&mut self, text: &[u8]) {
        self.from.say(text);
    }

    fn report_line<D: Display + Drop>(&mut self, line: D) -> Result<(), io::Error> {
        self.from.report_line(line)
    }

    fn begin(&mut self, name: &str, is_new: bool) -> Result<S::File, MakeFault> {
        self.from.begin(name, is_new)
    }

    fn finish(&mut self, name: &str, file: S::File) -> Result<(), MakeFault> {
        self.from.finish(name, file)
    }

    fn fail(&mut self, name: &str, file: S::File) -> MakeFault {
        self.from.fail(name, file)
    }

    fn discard(&mut self, file: S::File) {
        self.from.discard(file);
    }
}

/// It is not reported as one that cannot be read. The first fault in the order of the words is reported.
#[test]
fn says_that_a_file_wants_memory(rt: HostRuntime) -> Result<(), Fail> {
    let alloc = rt.alloc();
    fs::write(&rt, "empty", "")?;
    let words = texts_of(alloc, &["empty", LARGE, "x.tap"])?;
    let (mut out, mut said) = (Vec::new(alloc), Vec::new(alloc));
    let mut world = Scarce {
        from: System::new(&rt, io::sink(), &mut said),
    };
    let status = main_over(
        &rt,
        alloc,
        &words,
        &NoDisk,
        &mut world,
        &mut Output::new(&mut out),
    );
    drop(world);
    assert_eq!(rt; (out.len(), status), (0, 1));
    assert_eq!(rt; said.as_slice(), b"fault: out of memory\n".as_slice());
    fs::remove_file(&rt, "empty")?;
    Ok(())
}
