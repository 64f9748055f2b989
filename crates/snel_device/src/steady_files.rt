ghost use Rattle.std.specs.Prelude.{◌≡◌, ◌↔◌, ℕ, [], length, take, IfOk, OnOk, OnErr, IsErr, IsErrOf, IsSome, IsSomeAnd, MatchOption};
ghost use Rattle.std.specs.Option.{ForSome};
ghost use Rattle.snel_device.specs.Causes.{HasCause, Takes, raised};
ghost use Rattle.snel_device.specs.Contents.{HasAt, Sets, Extends};

use crate::pieces::fill_padded;
use crate::{Failed, Files, FreshFault, MemFiles, SizeFault};

/// Files that never fail and take no memory. They know the names and bytes of files in memory,
/// and tell nothing: what is made and appended is counted and not kept.
#[derive(Drop)]
pub struct SteadyFiles<'a> {
    files: &'a MemFiles,
    misses: u64,
    taken: u64,
    appended: u64,
}

impl<'a> SteadyFiles<'a> {
    ghost use Rattle.snel_device.specs.MemFiles.{stored};
    ghost use Rattle.snel_device.specs.SteadyFiles.{lent, appended_count};

    /// The names and bytes of these files. Each count is 0.
    pub fn new(files: &'a MemFiles) -> SteadyFiles<'a>
        ensures files { lent result ≡ stored files.now }
        ensures appended { appended_count result ≡ 0 }
    {
        SteadyFiles {
            files,
            misses: 0,
            taken: 0,
            appended: 0,
        }
    }

    /// How many bytes were appended, to all files together. It stands still at `u64::MAX`.
    pub fn appended(&self) -> u64
        ensures { result ≡ appended_count self.now }
    {
        self.appended
    }
}

// Each call has the clauses of `Files` where nothing is told, and after them those on what it does
// with the lent files.
impl Files for SteadyFiles<'_> {
    ghost use Rattle.snel_device.specs.Untold.{untold_files};
    ghost use Rattle.snel_device.specs.SteadyFiles.{lent, lent_bytes, padded, appended_count};

    ghost told = { λ _. untold_files };

    ghost read_faults = { λ _. 0 };

    ghost write_faults = { λ _. 0 };

    ghost misses = { λ s. s.misses };

    ghost taken = { λ s. s.taken };

    /// The length of the lent file, or `Absent` where none of this name was lent.
    fn size(&mut self, name: &str) -> Result<u64, SizeFault>
        ensures length { IfOk result (λ n. ForSome untold_files
            (λ files. IsSomeAnd (files name.now) (λ bytes. n ≡ length bytes))) }
        ensures absent { IsErrOf result SizeFault.Absent
            → ForSome untold_files (λ files. files name.now ≡ None) }
        ensures failed { IsErrOf result SizeFault.Failed
            → ForSome untold_files (λ files. IsSome (files name.now)) }
        ensures fault { HasCause 0 0 (IsErrOf result SizeFault.Failed) }
        ensures missed { HasCause self.old.misses self.new.misses
            (IsErrOf result SizeFault.Absent) }
        ensures same_taken { self.new.taken ≡ self.old.taken }
        ensures answer { MatchOption (lent self.old name.now) (result ≡ Err SizeFault.Absent)
            (λ bytes. result ≡ Ok (length bytes)) }
        ensures lent { lent self.new ≡ lent self.old }
        ensures same_appended { appended_count self.new ≡ appended_count self.old }
    {
        match self.files.bytes(name) {
            Some(bytes) => Ok(bytes.len() as u64),
            None => {
                self.misses = self.misses.saturating_add(1);
                Err(SizeFault::Absent)
            }
        }
    }

    /// The bytes of the lent file, with zeros past its end. Another name reads as an empty file.
    fn read_at(&mut self, name: &str, at: u64, into: &mut [u8]) -> Result<(), Failed>
        ensures bytes { OnOk result (ForSome untold_files
            (λ files. HasAt files name.now at into.new)) }
        ensures taken { Takes self.old.taken self.new.taken (length into.old) result }
        ensures fault { HasCause 0 0 (IsErr result) }
        ensures same_misses { self.new.misses ≡ self.old.misses }
        ensures filled { into.new ≡ padded (lent_bytes self.old name.now) at (length into.old) }
        ensures lent { lent self.new ≡ lent self.old }
        ensures same_appended { appended_count self.new ≡ appended_count self.old }
    {
        let bytes = self.files.bytes(name).unwrap_or(&[]);
        let start = usize::try_from(at).unwrap_or(usize::MAX).min(bytes.len());
        fill_padded(bytes, start, into);
        self.taken = self.taken.saturating_add(into.len() as u64);
        Ok(())
    }

    /// `Exists` where a file of this name was lent. A file that is made isn't kept.
    fn fresh(&mut self, name: &str) -> Result<(), FreshFault>
        ensures made { OnOk result (Sets untold_files untold_files name.now []) }
        ensures unchanged { OnErr result (untold_files ≡ untold_files) }
        ensures exists { ForSome untold_files (λ files. IsErrOf result FreshFault.Exists
            ↔ IsSome (files name.now)) }
        ensures fault { HasCause 0 0 (IsErrOf result FreshFault.Failed) }
        ensures missed { HasCause self.old.misses self.new.misses
            (IsErrOf result FreshFault.Exists) }
        ensures same_taken { self.new.taken ≡ self.old.taken }
        ensures answer { MatchOption (lent self.old name.now) (result ≡ Ok tt) (λ _. result
            ≡ Err FreshFault.Exists) }
        ensures lent { lent self.new ≡ lent self.old }
        ensures same_appended { appended_count self.new ≡ appended_count self.old }
    {
        if self.files.bytes(name).is_some() {
            self.misses = self.misses.saturating_add(1);
            return Err(FreshFault::Exists);
        }
        Ok(())
    }

    /// Counts the bytes of the piece, and keeps none.
    fn append(&mut self, _name: &str, piece: &[u8]) -> Result<(), Failed>
        ensures grown { OnOk result (Extends untold_files untold_files _name.now piece.now) }
        ensures cut { OnErr result ((n : ℕ)
            × Extends untold_files untold_files _name.now (take n piece.now)) }
        ensures fault { HasCause 0 0 (IsErr result) }
        ensures same_misses { self.new.misses ≡ self.old.misses }
        ensures same_taken { self.new.taken ≡ self.old.taken }
        ensures counted { appended_count self.new
            ≡ raised (appended_count self.old) (length piece.now) }
        ensures lent { lent self.new ≡ lent self.old }
    {
        self.appended = self.appended.saturating_add(piece.len() as u64);
        Ok(())
    }
}
