//! Files that are opened late.

use lan_base::KnownRead;
use std::fs::File;
use std::io;
use std::io::Read;

/// A file of this name, which is opened when it is first read. Contracts know nothing of what it has.
#[derive(Drop)]
pub struct LateFile<'a> {
    rt: &'a HostRuntime,
    name: &'a str,
    file: Option<File>,
}

impl<'a> LateFile<'a> {
    /// The file of this name, which may be missing.
    pub fn new(rt: &'a HostRuntime, name: &'a str) -> LateFile<'a> {
        LateFile {
            rt,
            name,
            file: None,
        }
    }
}

impl Read for LateFile<'_> {
    fn read(&mut self, into: &mut [u8]) -> io::Result<usize> {
        match &mut self.file {
            Some(file) => file.read(into),
            None => {
                let file = File::open(self.rt, self.name)?;
                self.file.insert(file).read(into)
            }
        }
    }
}

impl KnownRead for LateFile<'_> {
    ghost use Rattle.std.specs.Prelude.{refl};

    ghost steady = { λ _ _. refl };
}
