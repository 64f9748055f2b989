//! One line of JSON.
ghost use Rattle.std.specs.Prelude.{◌≡◌, ◌≤◌, IfOk, IfErr, IfSome, option_map};
ghost use Rattle.std.specs.List.{list_all};
ghost use Rattle.serde_json.specs.View.{view as data_of, members_view};
ghost use Rattle.serde_json.specs.Find.{as_object};
ghost use Rattle.snel_values.specs.View.{view};
ghost use Rattle.pack_meaning.specs.Lines as meant;
ghost use Rattle.pack_meaning.specs.declared.LineWhy.TheVariants.{NotJson};
ghost use Rattle.json_rows.specs.LineViews.{settings_view, line_view, counted, reason_of, MayStand};
ghost use Rattle.serde_json.specs.Data.{depth as nesting, members_depth};
ghost use Rattle.write_meaning.specs.Standing.{IsWritableRow};

use crate::convert::pairs_in;
use crate::settings::PackSettings;
use ion_write::weight;
use pack_meaning::{LineWhy, MOST_LINE_BYTES};
use serde_json::Map;
use snel_values::{OutOfMemory, Value};
use std::alloc::Global;

/// What a line holds.
#[derive(Drop)]
pub enum LineRead {
    /// Spaces, tabs and carriage returns alone.
    Blank,
    /// A row, and how many fractions were dropped from it, up to the end of the count's type.
    Row(Value, u64),
}

/// Why a line gives no row.
#[derive(Clone, Copy, Debug, PartialEq, Eq)]
pub enum LineFault {
    /// It is refused.
    Refused(LineWhy),
    /// No memory was left.
    OutOfMemory,
}

impl From<OutOfMemory> for LineFault {
    ghost use Rattle.std.specs.Prelude.{◌≡◌};
    ghost use Rattle.json_rows.specs.declared.lines.LineFault.TheVariants as fault;

    ghost from_gives = { λ _ e. e ≡ fault.OutOfMemory };

    fn from(_error: OutOfMemory) -> LineFault {
        LineFault::OutOfMemory
    }
}

/// What one line comes to, without the byte that ends it. Each refusal but want of memory comes exactly where the line is
/// refused for that reason, the first that holds.
#[tactic(auto, unfolding(pack_meaning::specs::Lines::line_of))]
pub fn read_line(
    alloc: Global,
    bytes: &[u8],
    settings: &PackSettings<'_>,
) -> Result<LineRead, LineFault>
    ensures ok { IfOk result (λ r. counted (meant.line_of (settings_view settings.now) bytes.now)
        ≡ line_view r) }
    ensures err { IfErr result (λ e. IfSome (reason_of e) (λ r.
        meant.line_of (settings_view settings.now) bytes.now ≡ meant.refused r)) }
    ensures may_stand { IfOk result (λ r. MayStand (line_view r)) }
{
    if bytes.len() > MOST_LINE_BYTES {
        return Err(LineFault::Refused(LineWhy::TooLong));
    }
    if is_blank_line(bytes) {
        return Ok(LineRead::Blank);
    }
    of_bytes(alloc, bytes, settings)
}

fn is_blank_line(bytes: &[u8]) -> bool
    ensures { result ≡ list_all meant.is_blank bytes.now }
{
    bytes.iter().all(|byte| is_blank(*byte))
}

fn is_blank(byte: u8) -> bool
    ensures { result ≡ meant.is_blank byte }
{
    byte == b' ' || byte == b'\t' || byte == b'\r'
}

/// The line of bytes that aren't blank.
fn of_bytes(alloc: Global, bytes: &[u8], settings: &PackSettings<'_>) -> Result<LineRead, LineFault>
    ensures ok { IfOk result (λ r. counted (meant.of_json (settings_view settings.now) (meant.json_of bytes.now))
        ≡ line_view r) }
    ensures err { IfErr result (λ e. IfSome (reason_of e) (λ r.
        meant.of_json (settings_view settings.now) (meant.json_of bytes.now) ≡ meant.refused r)) }
    ensures may_stand { IfOk result (λ r. MayStand (line_view r)) }
{
    match parse(alloc, bytes) {
        Ok(json) => of_object(alloc, &json, settings),
        Err(fault) => Err(fault),
    }
}

/// What JSON the bytes are.
#[tactic(auto, using(crate::proofs::LineReading::json_read, crate::proofs::LineReading::json_refused))]
fn parse(alloc: Global, bytes: &[u8]) -> Result<serde_json::Value, LineFault>
    ensures ok { IfOk result (λ v. meant.json_of bytes.now ≡ Some (data_of v)) }
    ensures err { IfErr result (λ e. IfSome (reason_of e) (λ r.
        (r ≡ NotJson) × (meant.json_of bytes.now ≡ None))) }
    ensures nests { IfOk result (λ v. nesting (data_of v) ≤ 127) }
{
    match serde_json::Value::from_slice(alloc, bytes) {
        Ok(json) => Ok(json),
        Err(error) if error.is_memory() => Err(LineFault::OutOfMemory),
        Err(_) => Err(LineFault::Refused(LineWhy::NotJson)),
    }
}

/// The line of a JSON value.
#[tactic(auto, using(crate::proofs::Stored::members_less))]
fn of_object(
    alloc: Global,
    json: &serde_json::Value,
    settings: &PackSettings<'_>,
) -> Result<LineRead, LineFault>
    requires nests { nesting (data_of json.now) ≤ 127 }
    ensures ok { IfOk result (λ r. counted (meant.of_object (settings_view settings.now) (as_object (data_of json.now)))
        ≡ line_view r) }
    ensures err { IfErr result (λ e. IfSome (reason_of e) (λ r.
        meant.of_object (settings_view settings.now) (as_object (data_of json.now)) ≡ meant.refused r)) }
    ensures may_stand { IfOk result (λ r. MayStand (line_view r)) }
{
    match json.as_object() {
        Some(members) => of_members(alloc, members, settings),
        None => Err(LineFault::Refused(LineWhy::NotObject)),
    }
}

/// The line of an object's members.
#[tactic(auto, using(crate::proofs::Stored::row_writable))]
fn of_members(
    alloc: Global,
    members: &Map<String, serde_json::Value>,
    settings: &PackSettings<'_>,
) -> Result<LineRead, LineFault>
    requires nests { members_depth (members_view members.now.entries) ≤ 126 }
    ensures ok { IfOk result (λ r. counted (meant.of_members (settings_view settings.now) (members_view members.now.entries))
        ≡ line_view r) }
    ensures err { IfErr result (λ e. IfSome (reason_of e) (λ r.
        meant.of_members (settings_view settings.now) (members_view members.now.entries) ≡ meant.refused r)) }
    ensures may_stand { IfOk result (λ r. MayStand (line_view r)) }
{
    let mut dropped = 0;
    let pairs = pairs_in(alloc, members, settings.time, &mut dropped)?;
    if dropped > 0 && !settings.drop_fractions {
        return Err(LineFault::Refused(LineWhy::Number));
    }
    fitting(Value::Struct(pairs), dropped, settings.block)
}

/// The row, if it fits into a block.
fn fitting(row: Value, dropped: u64, most: u32) -> Result<LineRead, LineFault>
    requires writable { IsWritableRow (view row) }
    ensures ok { IfOk result (λ r. meant.fitting most (view row) dropped ≡ line_view r) }
    ensures err { IfErr result (λ e. option_map meant.refused (reason_of e)
        ≡ Some (meant.fitting most (view row) dropped)) }
    ensures may_stand { IfOk result (λ r. MayStand (line_view r)) }
{
    if weight(&row) > u64::from(most) {
        Err(LineFault::Refused(LineWhy::TooLarge))
    } else {
        Ok(LineRead::Row(row, dropped))
    }
}
