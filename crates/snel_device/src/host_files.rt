ghost use Rattle.std.specs.Prelude.{◌≡◌};

use crate::{Failed, Files, FreshFault, SizeFault};
use std::alloc::Global;
use std::fs::{File, OpenOptions};
use std::io::{ErrorKind, Read, Seek, SeekFrom, Write};
use std::{fs, io, rt};

/// The files of the system, by their paths. They tell nothing of what they hold.
///
/// The file that was read last stays open, so that reads of one file after the other open it once. The
/// counts start at 0.
#[derive(Drop)]
pub struct HostFiles<'r, R: rt::Files> {
    rt: &'r R,
    alloc: Global,
    last: Option<Opened<R::File>>,
    read_faults: u64,
    write_faults: u64,
    misses: u64,
    taken: u64,
}

// A file that stays open, and its name.
#[derive(Drop)]
struct Opened<F> {
    name: String,
    file: F,
}

impl<'r, R: rt::Files> HostFiles<'r, R> {
    /// The files that the runtime reaches.
    pub fn new(rt: &'r R, alloc: Global) -> Self
        ensures read_faults { ⟦<HostFiles<'r, R> as Files>⟧.read_faults result ≡ 0 }
        ensures write_faults { ⟦<HostFiles<'r, R> as Files>⟧.write_faults result ≡ 0 }
        ensures misses { ⟦<HostFiles<'r, R> as Files>⟧.misses result ≡ 0 }
        ensures taken { ⟦<HostFiles<'r, R> as Files>⟧.taken result ≡ 0 }
    {
        HostFiles {
            rt,
            alloc,
            last: None,
            read_faults: 0,
            write_faults: 0,
            misses: 0,
            taken: 0,
        }
    }

    // A read that ends before `into` is full is an error.
    fn try_read(&mut self, name: &str, at: u64, into: &mut [u8]) -> io::Result<()>
        ensures same_taken { self.new.taken ≡ self.old.taken }
        ensures same_misses { self.new.misses ≡ self.old.misses }
        ensures same_read_faults { self.new.read_faults ≡ self.old.read_faults }
        ensures same_write_faults { self.new.write_faults ≡ self.old.write_faults }
    {
        if let Some(opened) = &mut self.last
            && opened.name.as_str() == name
        {
            return read_part(&mut opened.file, at, into);
        }
        let mut file = File::open(self.rt, name)?;
        let read = read_part(&mut file, at, into);
        self.last = match String::from_str(self.alloc, name) {
            Ok(name) => Some(Opened { name, file }),
            Err(_) => None,
        };
        read
    }

    // A write that takes nothing of a piece that isn't empty is an error.
    fn try_append(&self, name: &str, piece: &[u8]) -> io::Result<()> {
        let mut file = OpenOptions::new().append(true).open(self.rt, name)?;
        file.write_all(piece)
    }
}

// The part of an open file from a place on that fills `into`.
fn read_part<F: Read + Seek>(file: &mut F, at: u64, into: &mut [u8]) -> io::Result<()> {
    file.seek(SeekFrom::Start(at))?;
    file.read_exact(into)
}

impl<R: rt::Files> Files for HostFiles<'_, R> {
    ghost use Rattle.snel_device.specs.Untold.{untold_files};

    ghost told = { λ _. untold_files };

    ghost read_faults = { λ s. s.read_faults };

    ghost write_faults = { λ s. s.write_faults };

    ghost misses = { λ s. s.misses };

    ghost taken = { λ s. s.taken };

    fn size(&mut self, name: &str) -> Result<u64, SizeFault> {
        match fs::metadata(self.rt, name) {
            Ok(metadata) => Ok(metadata.len()),
            Err(e) if e.kind() == ErrorKind::NotFound => {
                self.misses = self.misses.saturating_add(1);
                Err(SizeFault::Absent)
            }
            Err(_) => {
                self.read_faults = self.read_faults.saturating_add(1);
                Err(SizeFault::Failed)
            }
        }
    }

    fn read_at(&mut self, name: &str, at: u64, into: &mut [u8]) -> Result<(), Failed> {
        let taken = self.taken;
        match self.try_read(name, at, into) {
            Ok(()) => {
                self.taken = taken.saturating_add(into.len() as u64);
                Ok(())
            }
            Err(_) => {
                self.read_faults = self.read_faults.saturating_add(1);
                Err(Failed)
            }
        }
    }

    fn fresh(&mut self, name: &str) -> Result<(), FreshFault> {
        match File::create_new(self.rt, name) {
            Ok(_) => Ok(()),
            Err(e) if e.kind() == ErrorKind::AlreadyExists => {
                self.misses = self.misses.saturating_add(1);
                Err(FreshFault::Exists)
            }
            Err(_) => {
                self.write_faults = self.write_faults.saturating_add(1);
                Err(FreshFault::Failed)
            }
        }
    }

    fn append(&mut self, name: &str, piece: &[u8]) -> Result<(), Failed> {
        match self.try_append(name, piece) {
            Ok(()) => Ok(()),
            Err(_) => {
                self.write_faults = self.write_faults.saturating_add(1);
                Err(Failed)
            }
        }
    }
}
