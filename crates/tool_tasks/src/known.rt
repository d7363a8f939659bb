//! A file whose bytes are known, whatever is written to it.
ghost use Rattle.std.specs.Prelude.{◌≢◌, None};

use std::io;
use std::io::Write;

/// A writer that holds known bytes.
#[derive(Drop)]
pub(crate) struct Known<F: Write + Drop> {
    file: F,
    pub ghost known: { F.contents file ≢ None },
}

impl<F: Write + Drop> Known<F> {
    ghost use Rattle.std.specs.Prelude.{◌≡◌, ◌≢◌, None};

    pub(crate) fn new(file: F) -> Known<F>
        requires { F.contents file ≢ None }
        ensures { result.file ≡ file }
    {
        Known { file }
    }

    pub(crate) fn into_file(self) -> F
        ensures file { result ≡ self.file }
        ensures known { F.contents result ≢ None }
    {
        let Known { file } = self;
        file
    }
}

impl<F: Write + Drop> Write for Known<F> {
    ghost contents = { λ known. F.contents known.file };

    #[tactic(auto, using(crate::proofs::KnownBytes::known_after))]
    fn write(&mut self, bytes: &[u8]) -> io::Result<usize> {
        self.file.write(bytes)
    }

    #[tactic(auto, using(crate::proofs::KnownBytes::known_kept))]
    fn flush(&mut self) -> io::Result<()> {
        self.file.flush()
    }
}
