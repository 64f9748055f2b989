//! Lines of an input, one after the other.
ghost use Rattle.std.specs.Prelude.{◌≡◌, ◌≤◌, ◌<◌, ◌+◌, ◌++◌, ◌-◌, [], List, ℕ, length, take, drop, IfOk, OnOk, IfErr, IfSome, IsErrOf, Ok, None, true, false};
ghost use Rattle.std.specs.Io.KnownBytes.{IsAtEnd, Consumes};
ghost use Rattle.snel_device.specs.Causes.{HasCause};
ghost use Rattle.pack_meaning.specs.Splitting.{HasNoEnd};
ghost use Rattle.json_pack.specs.Reading.{IsReady, unread, ahead, TakesFront, HasLine, IsAllRead};

use memchr::memchr;
use pack_meaning::MOST_LINE_BYTES;
use snel_device::Input;
use snel_values::OutOfMemory;
use std::alloc::Global;

/// How many bytes are asked for at once.
const PIECE_BYTES: usize = 65_536;

/// A piece of an input, of which some bytes weren't looked at yet, and the line at hand.
#[derive(Drop)]
pub(crate) struct LineReader {
    pub(crate) piece: Vec<u8>,
    pub(crate) from: usize,
    pub(crate) until: usize,
    pub(crate) line: Vec<u8>,
}

/// Why there is no line.
#[derive(Clone, Copy, Debug, PartialEq, Eq)]
pub(crate) enum ReadFault {
    /// Reading failed.
    Failed,
    /// No memory was left.
    OutOfMemory,
}

impl LineReader {
    /// Before the first byte.
    pub(crate) fn new(alloc: Global) -> Result<LineReader, OutOfMemory>
        ensures ready { IfOk result (λ reader. IsReady reader) }
        ensures none { IfOk result (λ reader. unread reader ≡ []) }
    {
        let Ok(piece) = vec![in alloc; 0u8; PIECE_BYTES] else {
            return Err(OutOfMemory);
        };
        Ok(LineReader {
            piece,
            from: 0,
            until: 0,
            line: Vec::new(alloc),
        })
    }

    /// Reads the next line, which stands in `line` then without the byte that ends it, and answers how many bytes it has with
    /// that byte. `None` says that the input has ended.
    ///
    /// Of a line of more than 1,048,576 bytes only a front is read that is longer than that.
    pub(crate) fn next_line<I: Input>(&mut self, input: &mut I) -> Result<Option<u64>, ReadFault>
        requires { IsReady self.old }
        ensures ready { OnOk result (IsReady self.new) }
        ensures line { IfOk result (λ o. IfSome o (λ n.
            HasLine (ahead self.old (I.left input.old)) (ahead self.new (I.left input.new)) self.new.line.items n)) }
        ensures some { IfOk result (λ o. IfSome o (λ n. 1 ≤ n)) }
        ensures bare { OnOk result (HasNoEnd self.new.line.items) }
        ensures ended { result ≡ Ok None → IsAllRead (ahead self.old (I.left input.old)) }
        ensures at_end { result ≡ Ok None → IsAtEnd (I.left input.new) }
        ensures fault { HasCause (I.faults input.old) (I.faults input.new)
            (IsErrOf result ReadFault.Failed) }
    {
        self.line.clear();
        while self.line.len() <= MOST_LINE_BYTES {
            match self.refill(input) {
                Ok(true) => {}
                Ok(false) => return Ok(self.last_line()),
                Err(fault) => return Err(fault),
            }
            match self.take_front() {
                Ok(true) => return Ok(Some(self.line.len() as u64 + 1)),
                Ok(false) => {}
                Err(_) => return Err(ReadFault::OutOfMemory),
            }
        }
        Ok(Some(self.line.len() as u64))
    }

    /// How many bytes the last line has, where it isn't empty.
    fn last_line(&self) -> Option<u64>
        ensures some { IfSome result (λ n. (n ≡ length self.now.line.items) × (1 ≤ n)) }
        ensures none { result ≡ None → self.now.line.items ≡ [] }
    {
        if self.line.is_empty() {
            None
        } else {
            Some(self.line.len() as u64)
        }
    }

    /// Sees to it that some byte wasn't looked at yet, unless the input has ended.
    fn refill<I: Input>(&mut self, input: &mut I) -> Result<bool, ReadFault>
        requires { IsReady self.old }
        ensures ready { OnOk result (IsReady self.new) }
        ensures line { self.new.line.items ≡ self.old.line.items }
        ensures ahead { OnOk result (Consumes (ahead self.old (I.left input.old)) (ahead self.new (I.left input.new)) []) }
        ensures some { IfOk result (λ more. more ≡ true → 1 ≤ length (unread self.new)) }
        ensures none { IfOk result (λ more. more ≡ false → unread self.new ≡ []) }
        ensures at_end { IfOk result (λ more. more ≡ false → IsAtEnd (I.left input.new)) }
        ensures fault { HasCause (I.faults input.old) (I.faults input.new)
            (IsErrOf result ReadFault.Failed) }
    {
        if self.from < self.until {
            return Ok(true);
        }
        match input.read(&mut self.piece) {
            Ok(count) => {
                self.from = 0;
                self.until = count;
                Ok(count > 0)
            }
            Err(_) => Err(ReadFault::Failed),
        }
    }

    /// Adds to the line what stands before the next line end, and whether there is one.
    fn take_front(&mut self) -> Result<bool, OutOfMemory>
        requires { IsReady self.old }
        ensures ready { OnOk result (IsReady self.new) }
        ensures taken { IfOk result (λ found. TakesFront found (unread self.old) (unread self.new)
            self.old.line.items self.new.line.items) }
    {
        let unread = &self.piece[self.from..self.until];
        match memchr(b'\n', unread) {
            Some(end) => {
                self.line.extend_from_slice(&unread[..end])?;
                self.from += end + 1;
                Ok(true)
            }
            None => {
                self.line.extend_from_slice(unread)?;
                self.from = self.until;
                Ok(false)
            }
        }
    }
}
