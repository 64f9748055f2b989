//! The rows of lines, one after the other.
ghost use Rattle.std.specs.Prelude.{◌≡◌, ◌≤◌, ◌<◌, ◌+◌, ◌^◌, ◌-◌, ◌++◌, [], List, ℕ, min, length, OnOk, IfOk, IfErr, IfSome, IsSome, IsErrOf, Ok, None, option_map};
ghost use Rattle.std.specs.Io.KnownBytes.{IsAtEnd};
ghost use Rattle.snel_device.specs.Causes.{HasCause};
ghost use Rattle.snel_values.specs.View.{view};
ghost use Rattle.write_meaning.specs.Standing.{IsWritableRow};
ghost use Rattle.write_meaning.specs.Weights.{weight};
ghost use Rattle.json_rows.specs.LineViews.{settings_view, reason_of as why_of};
ghost use Rattle.pack_meaning.specs.PackedFiles.{field_name};
ghost use Rattle.json_pack.specs.Reading.{IsReady, IsAllRead, ahead};
ghost use Rattle.json_pack.specs.Packs.{refusal_in};
ghost use Rattle.json_pack.specs.Packing.{HasRead, CanPack, AddsRow, AddsLine, RefusesRow, RefusesText, RefusesLine, TakesLine, StopsAt, GoesOn};

use crate::reader::{LineReader, ReadFault};
use crate::sums::PackFault;
use json_rows::{LineFault, LineRead, PackSettings, read_line};
use pack_blocks::{BlockWriter, RowFault};
use pack_meaning::{LineWhy, MOST_INPUT_BYTES, MOST_LINE_BYTES};
use snel_device::Input;
use snel_values::{Bytes, Value};
use std::alloc::Global;

/// The rows of lines, as blocks, and how many fractions were dropped from them.
#[derive(Drop)]
pub(crate) struct PackedRows {
    pub(crate) writer: BlockWriter,
    pub(crate) dropped: u64,
}

/// The rows of the lines so far, how many lines there were, and how many bytes they had.
#[derive(Drop)]
pub(crate) struct LinePacker {
    pub(crate) rows: PackedRows,
    pub(crate) number: u64,
    pub(crate) at: u64,
}

impl LinePacker {
    /// Before the first line.
    pub(crate) fn new(alloc: Global, settings: &PackSettings<'_>) -> LinePacker
        requires block { settings.now.block ≤ 1_000_000 }
        requires time { length (field_name (option_map (λ t. t.now) settings.now.time)) ≤ 255 }
        ensures rows { HasRead (settings_view settings.now) [] [] result.rows }
        ensures number { result.number ≡ 0 }
        ensures at { result.at ≡ 0 }
    {
        LinePacker {
            rows: PackedRows {
                writer: BlockWriter::new(alloc, settings.time, settings.block),
                dropped: 0,
            },
            number: 0,
            at: 0,
        }
    }

    /// Reads the next line and adds its row, and gives the bytes of the block that it closes: none where it closes none.
    /// `None` says that the input has ended.
    pub(crate) fn pack_line<I: Input>(
        &mut self,
        alloc: Global,
        settings: &PackSettings<'_>,
        reader: &mut LineReader,
        input: &mut I,
    ) -> Result<Option<Bytes>, PackFault>
        requires ready { IsReady reader.old }
        requires rows { CanPack (settings_view settings.now) self.old.rows }
        ensures ready { OnOk result (IsReady reader.new) }
        ensures goes { IfOk result (λ o. IfSome o (λ bytes. GoesOn (settings_view settings.now)
            (ahead reader.old (I.left input.old)) (ahead reader.new (I.left input.new)) self.old self.new bytes)) }
        ensures further { IfOk result (λ o. IfSome o (λ _. self.old.at < self.new.at)) }
        ensures within { IfOk result (λ o. IfSome o (λ _. self.new.at ≤ 2 ^ 42)) }
        ensures ended { result ≡ Ok None → IsAllRead (ahead reader.old (I.left input.old)) }
        ensures same { result ≡ Ok None → self.new ≡ self.old }
        ensures at_end { result ≡ Ok None → IsAtEnd (I.left input.new) }
        ensures refused { IfErr result (λ fault. IfSome (refusal_in fault) (λ r.
            StopsAt (settings_view settings.now) (ahead reader.old (I.left input.old)) self.old r)) }
        ensures not_exists { IsErrOf result PackFault.Exists → ⊥ }
        ensures not_write { IsErrOf result PackFault.WriteFault → ⊥ }
        ensures fault { HasCause (I.faults input.old) (I.faults input.new)
            (IsErrOf result PackFault.ReadFault) }
    {
        let bytes = match reader.next_line(input) {
            Ok(Some(bytes)) => bytes,
            Ok(None) => return Ok(None),
            Err(ReadFault::Failed) => return Err(PackFault::ReadFault),
            Err(ReadFault::OutOfMemory) => return Err(PackFault::OutOfMemory),
        };
        let number = self.number;
        match self.take_counted(alloc, reader.line.as_slice(), bytes, settings) {
            Ok(closed) => Ok(Some(closed)),
            Err(fault) => Err(at_line(fault, number.saturating_add(1))),
        }
    }

    /// Adds the row of a line of so many bytes with its line end, whose text stands here without it.
    fn take_counted(
        &mut self,
        alloc: Global,
        text: &[u8],
        bytes: u64,
        settings: &PackSettings<'_>,
    ) -> Result<Bytes, LineFault>
        requires { CanPack (settings_view settings.now) self.old.rows }
        ensures ok { IfOk result (λ closed. TakesLine (settings_view settings.now) text.now bytes self.old self.new closed) }
        ensures within { OnOk result (self.new.at ≤ 2 ^ 42) }
        ensures further { OnOk result (1 ≤ bytes → self.old.at < self.new.at) }
        ensures err { IfErr result (λ e. IfSome (why_of e) (λ why.
            RefusesLine (settings_view settings.now) text.now bytes self.old why)) }
    {
        let count = bytes.min(MOST_LINE_BYTES as u64 + 1);
        let end = self.at.saturating_add(count);
        if end > MOST_INPUT_BYTES {
            return Err(LineFault::Refused(LineWhy::TooMuch));
        }
        match self.rows.take_line(alloc, text, settings) {
            Ok(closed) => {
                self.at = end;
                self.number = self.number.saturating_add(1);
                Ok(closed)
            }
            Err(fault) => Err(fault),
        }
    }
}

impl PackedRows {
    /// Adds what a line holds, which stands here without the byte that ends it.
    fn take_line(
        &mut self,
        alloc: Global,
        text: &[u8],
        settings: &PackSettings<'_>,
    ) -> Result<Bytes, LineFault>
        requires { CanPack (settings_view settings.now) self.old }
        ensures ok { IfOk result (λ closed. AddsLine (settings_view settings.now) text.now self.old self.new closed) }
        ensures err { IfErr result (λ e. IfSome (why_of e) (λ why.
            RefusesText (settings_view settings.now) text.now self.old why)) }
        ensures short { OnOk result (length text.now ≤ MOST_LINE_BYTES) }
    {
        match read_line(alloc, text, settings) {
            Ok(LineRead::Blank) => Ok(Bytes::new(alloc)),
            Ok(LineRead::Row(row, dropped)) => match self.take_row(alloc, row, dropped, settings) {
                Ok(closed) => Ok(closed),
                Err(fault) => Err(fault),
            },
            Err(fault) => Err(fault),
        }
    }

    /// Adds a row from which so many fractions were dropped, unless the file would have too many blocks.
    fn take_row(
        &mut self,
        alloc: Global,
        row: Value,
        dropped: u64,
        settings: &PackSettings<'_>,
    ) -> Result<Bytes, LineFault>
        requires rows { CanPack (settings_view settings.now) self.old }
        requires writable { IsWritableRow (view row) }
        requires light { weight (view row) ≤ settings.now.block }
        ensures ok { IfOk result (λ closed. AddsRow (settings_view settings.now) (view row) dropped self.old self.new closed) }
        ensures err { IfErr result (λ e. IfSome (why_of e) (λ why.
            RefusesRow (settings_view settings.now) (view row) dropped self.old why)) }
    {
        match self.writer.add(alloc, row, settings.time) {
            Ok(closed) => {
                self.dropped = self.dropped.saturating_add(dropped);
                Ok(closed)
            }
            Err(RowFault::Full) => Err(LineFault::Refused(LineWhy::Full)),
            Err(RowFault::OutOfMemory) => Err(LineFault::OutOfMemory),
        }
    }
}

/// The fault of the line with this number.
fn at_line(fault: LineFault, number: u64) -> PackFault
    ensures refusal { refusal_in result ≡ option_map (λ why. record { number = number; why = why }) (why_of fault) }
    ensures not_exists { result ≡ PackFault.Exists → ⊥ }
    ensures not_read { result ≡ PackFault.ReadFault → ⊥ }
    ensures not_write { result ≡ PackFault.WriteFault → ⊥ }
{
    match fault {
        LineFault::Refused(why) => PackFault::Line { number, why },
        LineFault::OutOfMemory => PackFault::OutOfMemory,
    }
}
