ghost use Rattle.std.specs.Prelude.{◌≡◌, ◌↔◌, ◌<◌, ◌≤◌, ℕ, List, [], length, take, Option, IfOk, OnOk, OnErr, IsErr, IsErrOf, IsSome, IsSomeAnd};
ghost use Rattle.std.specs.Option.{ForSome};
ghost use Rattle.std.specs.Io.KnownBytes.{Appends, Consumes, IsAtEnd};
ghost use Rattle.snel_device.specs.Causes.{HasCause, Takes};
ghost use Rattle.snel_device.specs.Contents.{Contents, IsWithin, HasAt, Sets, Extends};

/// A read or a write failed. A count of the object that was asked rose, or stands at `u64::MAX`.
#[derive(Clone, Copy, Debug, PartialEq, Eq)]
pub struct Failed;

/// Why [`Files::size`] gives no length.
#[derive(Clone, Copy, Debug, PartialEq, Eq)]
pub enum SizeFault {
    /// There is no file of this name.
    Absent,
    /// Asking failed.
    Failed,
}

/// Why [`Files::fresh`] makes no file.
#[derive(Clone, Copy, Debug, PartialEq, Eq)]
pub enum FreshFault {
    /// There is a file of this name already.
    Exists,
    /// Making it failed.
    Failed,
}

/// Files by their names. Names are texts, sizes and places are in bytes.
///
/// An implementation may tell which files there are and what they hold; then each call says what
/// it reads there and how it changes them. Where it tells nothing, only the counts speak. Whether
/// it tells never changes.
///
/// Four counts say what went wrong and how much was read. None ever falls, and each stands still
/// at `u64::MAX`. A call that a fault made fail has raised the count of its kind of call, so a
/// program whose counts didn't rise met no fault.
pub trait Files {
    /// The bytes of each file by its name, where they are told.
    ghost told: { Self → Option Contents };

    /// How often `size` or `read_at` failed.
    ghost read_faults: { Self → ℕ };

    /// How often `fresh` or `append` failed.
    ghost write_faults: { Self → ℕ };

    /// How often `size` answered `Absent` or `fresh` answered `Exists`.
    ghost misses: { Self → ℕ };

    /// How many bytes `read_at` has read.
    ghost taken: { Self → ℕ };

    /// The length of the file in bytes. No file changes.
    ///
    /// Where files are told, `Absent` comes exactly where there is none of this name, and
    /// otherwise the length or `Failed` comes.
    fn size(&mut self, name: &str) -> Result<u64, SizeFault>
        ensures length { IfOk result (λ n. ForSome (told self.old)
            (λ files. IsSomeAnd (files name.now) (λ bytes. n ≡ length bytes))) }
        ensures absent { IsErrOf result SizeFault.Absent
            → ForSome (told self.old) (λ files. files name.now ≡ None) }
        ensures failed { IsErrOf result SizeFault.Failed
            → ForSome (told self.old) (λ files. IsSome (files name.now)) }
        ensures told { told self.new ≡ told self.old }
        ensures fault { HasCause (read_faults self.old) (read_faults self.new)
            (IsErrOf result SizeFault.Failed) }
        ensures missed { HasCause (misses self.old) (misses self.new)
            (IsErrOf result SizeFault.Absent) }
        ensures same_write_faults { write_faults self.new ≡ write_faults self.old }
        ensures same_taken { taken self.new ≡ taken self.old };

    /// Fills `into` with the bytes of the file from byte `at` on. No file changes.
    ///
    /// Where files are told, the file has to be there and the read to lie within it, so that no
    /// caller can bring a failure about. Where nothing is told, a read past the end or of an
    /// absent file may fail. After `Failed` nothing is known of what `into` holds, and at most as
    /// many bytes as it has room for were read.
    fn read_at(&mut self, name: &str, at: u64, into: &mut [u8]) -> Result<(), Failed>
        requires { ForSome (told self.old) (λ files. IsWithin files name.now at (length into.old)) }
        ensures bytes { OnOk result (ForSome (told self.old)
            (λ files. HasAt files name.now at into.new)) }
        ensures told { told self.new ≡ told self.old }
        ensures taken { Takes (taken self.old) (taken self.new) (length into.old) result }
        ensures fault { HasCause (read_faults self.old) (read_faults self.new) (IsErr result) }
        ensures same_write_faults { write_faults self.new ≡ write_faults self.old }
        ensures same_misses { misses self.new ≡ misses self.old };

    /// Makes an empty file, and leaves all others as they are.
    ///
    /// Where files are told, `Exists` comes exactly where there is one of this name. After
    /// `Exists` or `Failed` no file changed.
    fn fresh(&mut self, name: &str) -> Result<(), FreshFault>
        ensures made { OnOk result (Sets (told self.old) (told self.new) name.now []) }
        ensures unchanged { OnErr result (told self.new ≡ told self.old) }
        ensures exists { ForSome (told self.old) (λ files. IsErrOf result FreshFault.Exists
            ↔ IsSome (files name.now)) }
        ensures fault { HasCause (write_faults self.old) (write_faults self.new)
            (IsErrOf result FreshFault.Failed) }
        ensures missed { HasCause (misses self.old) (misses self.new)
            (IsErrOf result FreshFault.Exists) }
        ensures same_read_faults { read_faults self.new ≡ read_faults self.old }
        ensures same_taken { taken self.new ≡ taken self.old };

    /// Adds a piece at the end of the file, and leaves all others as they are.
    ///
    /// Where files are told, the file has to be there. At `Failed` a prefix of the piece was
    /// added, which may be none of it or all.
    fn append(&mut self, name: &str, piece: &[u8]) -> Result<(), Failed>
        requires { ForSome (told self.old) (λ files. IsSome (files name.now)) }
        ensures grown { OnOk result (Extends (told self.old) (told self.new) name.now piece.now) }
        ensures cut { OnErr result ((n : ℕ)
            × Extends (told self.old) (told self.new) name.now (take n piece.now)) }
        ensures fault { HasCause (write_faults self.old) (write_faults self.new) (IsErr result) }
        ensures same_read_faults { read_faults self.new ≡ read_faults self.old }
        ensures same_misses { misses self.new ≡ misses self.old }
        ensures same_taken { taken self.new ≡ taken self.old };
}

/// A stream of bytes that comes in.
pub trait Input {
    /// The bytes that are still to come, where they are told.
    ghost left: { Self → Option (List ℕ) };

    /// How often `read` failed. It never falls, and stands still at `u64::MAX`.
    ghost faults: { Self → ℕ };

    /// Puts the next bytes at the front of `into`, and answers how many, at most the length of
    /// `into`.
    ///
    /// None into a piece that isn't empty says that the input has ended. After `Failed` no byte
    /// was taken from the input, and nothing is known of what `into` holds.
    fn read(&mut self, into: &mut [u8]) -> Result<usize, Failed>
        ensures bound { IfOk result (λ n. n ≤ length into.new) }
        ensures bytes { IfOk result (λ n. Consumes (left self.old) (left self.new)
            (take n into.new)) }
        ensures ended { IfOk result (λ n. n ≡ 0 → 0 < length into.new → IsAtEnd (left self.new)) }
        ensures unchanged { OnErr result (left self.new ≡ left self.old) }
        ensures fault { HasCause (faults self.old) (faults self.new) (IsErr result) };
}

/// A sink for bytes that go out.
pub trait Out {
    /// The bytes that it took, where they are told.
    ghost holds: { Self → Option (List ℕ) };

    /// How often `put` failed. It never falls, and stands still at `u64::MAX`.
    ghost faults: { Self → ℕ };

    /// Adds the whole piece, or at `Failed` a prefix of it, which may be none of it or all.
    fn put(&mut self, piece: &[u8]) -> Result<(), Failed>
        ensures added { OnOk result (Appends (holds self.old) (holds self.new) piece.now) }
        ensures cut { OnErr result ((n : ℕ)
            × Appends (holds self.old) (holds self.new) (take n piece.now)) }
        ensures fault { HasCause (faults self.old) (faults self.new) (IsErr result) };
}

/// A gate that each worker passes once after each claim that gave it a block.
pub trait Gate {
    /// Passes with the number of the claimed block in its batch. It has no effect on any answer.
    fn pass(&self, claim: u32);
}
