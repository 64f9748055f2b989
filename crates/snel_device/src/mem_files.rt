ghost use Rattle.std.specs.Prelude.{◌≡◌, ◌↔◌, ◌≤◌, ℕ, [], length, take, IfOk, OnOk, OnErr, IsErr, IsErrOf, IsSome, IsSomeAnd, IsTrue, option_copied};
ghost use Rattle.std.specs.Option.{ForSome};
ghost use Rattle.snel_device.specs.Causes.{HasCause, Takes, raised};
ghost use Rattle.snel_device.specs.Contents.{with_file, IsWithin, HasAt, Sets, Extends};

use crate::schedule::Schedule;
use crate::stored::{copy_part, extend_file, put_file};
use crate::{Failed, Files, FreshFault, SizeFault};
use std::alloc::{AllocError, Global};
use std::collections::BTreeMap;

/// Files in memory, which tell what they hold. Some of their calls fail.
#[derive(Drop)]
pub struct MemFiles {
    alloc: Global,
    files: BTreeMap<String, Vec<u8>>,
    schedule: Schedule,
    read_faults: u64,
    write_faults: u64,
    misses: u64,
    taken: u64,
}

impl MemFiles {
    ghost use Rattle.snel_device.specs.MemFiles.{stored, schedule, ChangesFilesOnly};
    ghost use Rattle.snel_device.specs.Schedule.{calls_made, failing_calls};

    /// No files. The calls with the numbers in `failing` will fail, counted from 1 over all calls
    /// of the four functions of [`Files`]; but `size` of an absent name answers `Absent`, and
    /// `fresh` of a name that is there answers `Exists`, at these numbers too.
    ///
    /// An error says that no memory was left.
    pub fn new(alloc: Global, failing: &[u32]) -> Result<MemFiles, AllocError>
        ensures files { IfOk result (λ files. stored files ≡ (λ _. None)) }
        ensures calls { IfOk result (λ files. calls_made (schedule files) ≡ 0) }
        ensures failing { IfOk result (λ files. failing_calls (schedule files) ≡ failing.now) }
    {
        Ok(MemFiles {
            alloc,
            files: BTreeMap::new(alloc),
            schedule: Schedule::new(alloc, failing)?,
            read_faults: 0,
            write_faults: 0,
            misses: 0,
            taken: 0,
        })
    }

    /// Puts a file with these bytes there, in place of one of this name. It counts as no call.
    ///
    /// An error says that no memory was left; then nothing changed.
    pub fn insert(&mut self, name: &str, bytes: &[u8]) -> Result<(), AllocError>
        ensures put { OnOk result (stored self.new
            ≡ with_file name.now bytes.now (stored self.old)) }
        ensures unchanged { OnErr result (stored self.new ≡ stored self.old) }
        ensures others { ChangesFilesOnly self.old self.new }
    {
        put_file(self.alloc, &mut self.files, name, bytes)
    }

    // Counts a failed write.
    fn fail_write(&mut self) -> Failed
        ensures counted { self.new ≡ record self.old {
          write_faults = raised self.old.write_faults 1;
        } }
        ensures later { self.old.write_faults ≤ self.new.write_faults }
    {
        self.write_faults = self.write_faults.saturating_add(1);
        Failed
    }

    /// The bytes of the file of this name, `None` exactly where there is none.
    pub fn bytes(&self, name: &str) -> Option<&[u8]>
        ensures { option_copied result ≡ stored self.now name.now }
    {
        match self.files.get(name) {
            Some(bytes) => Some(bytes.as_slice()),
            None => None,
        }
    }
}

// Each call has the clauses of `Files` at the files that are told here, and after them those on the
// schedule.
impl Files for MemFiles {
    ghost use Rattle.std.specs.Prelude.{Some};
    ghost use Rattle.snel_device.specs.MemFiles.{stored, schedule};
    ghost use Rattle.snel_device.specs.Schedule.{fails_next, after_call};

    ghost told = { λ s. Some (stored s) };

    ghost read_faults = { λ s. s.read_faults };

    ghost write_faults = { λ s. s.write_faults };

    ghost misses = { λ s. s.misses };

    ghost taken = { λ s. s.taken };

    fn size(&mut self, name: &str) -> Result<u64, SizeFault>
        ensures length { IfOk result (λ n. ForSome (Some (stored self.old))
            (λ files. IsSomeAnd (files name.now) (λ bytes. n ≡ length bytes))) }
        ensures absent { IsErrOf result SizeFault.Absent
            → ForSome (Some (stored self.old)) (λ files. files name.now ≡ None) }
        ensures failed { IsErrOf result SizeFault.Failed
            → ForSome (Some (stored self.old)) (λ files. IsSome (files name.now)) }
        ensures told { Some (stored self.new) ≡ Some (stored self.old) }
        ensures fault { HasCause self.old.read_faults self.new.read_faults
            (IsErrOf result SizeFault.Failed) }
        ensures missed { HasCause self.old.misses self.new.misses
            (IsErrOf result SizeFault.Absent) }
        ensures same_write_faults { self.new.write_faults ≡ self.old.write_faults }
        ensures same_taken { self.new.taken ≡ self.old.taken }
        ensures fails { IsTrue (fails_next (schedule self.old)) → IsErr result }
        ensures scheduled { IsErrOf result SizeFault.Failed
            → IsTrue (fails_next (schedule self.old)) }
        ensures counted { schedule self.new ≡ after_call (schedule self.old) }
    {
        let fails = self.schedule.count_call();
        match self.files.get(name) {
            None => {
                self.misses = self.misses.saturating_add(1);
                Err(SizeFault::Absent)
            }
            Some(_) if fails => {
                self.read_faults = self.read_faults.saturating_add(1);
                Err(SizeFault::Failed)
            }
            Some(bytes) => Ok(bytes.len() as u64),
        }
    }

    fn read_at(&mut self, name: &str, at: u64, into: &mut [u8]) -> Result<(), Failed>
        requires { ForSome (Some (stored self.old))
            (λ files. IsWithin files name.now at (length into.old)) }
        ensures bytes { OnOk result (ForSome (Some (stored self.old))
            (λ files. HasAt files name.now at into.new)) }
        ensures told { Some (stored self.new) ≡ Some (stored self.old) }
        ensures taken { Takes self.old.taken self.new.taken (length into.old) result }
        ensures fault { HasCause self.old.read_faults self.new.read_faults (IsErr result) }
        ensures same_write_faults { self.new.write_faults ≡ self.old.write_faults }
        ensures same_misses { self.new.misses ≡ self.old.misses }
        ensures fails { IsErr result ↔ IsTrue (fails_next (schedule self.old)) }
        ensures counted { schedule self.new ≡ after_call (schedule self.old) }
    {
        let taken = self.taken;
        if self.schedule.count_call() {
            self.read_faults = self.read_faults.saturating_add(1);
            return Err(Failed);
        }
        copy_part(&self.files, name, at, into);
        self.taken = taken.saturating_add(into.len() as u64);
        Ok(())
    }

    fn fresh(&mut self, name: &str) -> Result<(), FreshFault>
        ensures made { OnOk result (Sets (Some (stored self.old))
            (Some (stored self.new)) name.now []) }
        ensures unchanged { OnErr result (Some (stored self.new) ≡ Some (stored self.old)) }
        ensures exists { ForSome (Some (stored self.old)) (λ files. IsErrOf result FreshFault.Exists
            ↔ IsSome (files name.now)) }
        ensures fault { HasCause self.old.write_faults self.new.write_faults
            (IsErrOf result FreshFault.Failed) }
        ensures missed { HasCause self.old.misses self.new.misses
            (IsErrOf result FreshFault.Exists) }
        ensures same_read_faults { self.new.read_faults ≡ self.old.read_faults }
        ensures same_taken { self.new.taken ≡ self.old.taken }
        ensures fails { IsTrue (fails_next (schedule self.old)) → IsErr result }
        ensures counted { schedule self.new ≡ after_call (schedule self.old) }
    {
        let fails = self.schedule.count_call();
        if self.files.contains_key(name) {
            self.misses = self.misses.saturating_add(1);
            return Err(FreshFault::Exists);
        }
        if !fails && put_file(self.alloc, &mut self.files, name, &[]).is_ok() {
            return Ok(());
        }
        self.write_faults = self.write_faults.saturating_add(1);
        Err(FreshFault::Failed)
    }

    /// At `Failed` nothing was added.
    fn append(&mut self, name: &str, piece: &[u8]) -> Result<(), Failed>
        requires { ForSome (Some (stored self.old)) (λ files. IsSome (files name.now)) }
        ensures grown { OnOk result (Extends (Some (stored self.old))
            (Some (stored self.new)) name.now piece.now) }
        ensures cut { OnErr result ((n : ℕ)
            × Extends (Some (stored self.old)) (Some (stored self.new)) name.now
            (take n piece.now)) }
        ensures fault { HasCause self.old.write_faults self.new.write_faults (IsErr result) }
        ensures same_read_faults { self.new.read_faults ≡ self.old.read_faults }
        ensures same_misses { self.new.misses ≡ self.old.misses }
        ensures same_taken { self.new.taken ≡ self.old.taken }
        ensures fails { IsTrue (fails_next (schedule self.old)) → IsErr result }
        ensures none { OnErr result (stored self.new ≡ stored self.old) }
        ensures counted { schedule self.new ≡ after_call (schedule self.old) }
    {
        if self.schedule.count_call() {
            return Err(self.fail_write());
        }
        match extend_file(&mut self.files, name, piece) {
            Ok(()) => Ok(()),
            Err(_) => Err(self.fail_write()),
        }
    }
}
