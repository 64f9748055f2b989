ghost use Rattle.std.specs.Prelude.{◌≡◌, ◌%◌, ◌<◌, false, length, IfOk, IfSome};
ghost use Rattle.program_meaning.specs.Programs.{IsInstruction, mask_count, value_count};
ghost use Rattle.program_meaning.specs.Instructions.{makes_mask};
ghost use Rattle.program_meaning.specs.Jobs.{AreEnds};
ghost use Rattle.lane_ssa.specs.Bound.{IsBound};
ghost use Rattle.lane_ssa.specs.Views.{instr_view, ends_view};

use crate::looks::is_look;
use block_file::{Block, open_block};
use lane_base::{LaneMask, Look};
use lane_ssa::{Builder, EndAggs, EndOuts, Ends, Frame, Instr, Job, Registers, Tally};
use snel_values::{OutOfMemory, Text, Value};
use std::alloc::Global;
use std::process::Abort;
use std::test::Fail;
use tree_meaning::{BinOp, CastTo, Func, How, IsWhat, Part};

/// The table of `a` and `b` and the rows `{"a":1,"b":"x"}`, `{"a":null}` and `{"b":7}`.
const THREE: &[u8] = &[
    0xE0, 0x01, 0x00, 0xEA, 0xE9, 0x81, 0x83, 0xD6, 0x87, 0xB4, 0x81, 0x61, 0x81, 0x62, 0xD6, 0x8A,
    0x21, 0x01, 0x8B, 0x81, 0x78, 0xD2, 0x8A, 0x0F, 0xD3, 0x8B, 0x21, 0x07,
];

/// The same table and seventeen rows `{}`.
const SEVENTEEN: &[u8] = &[
    0xE0, 0x01, 0x00, 0xEA, 0xE9, 0x81, 0x83, 0xD6, 0x87, 0xB4, 0x81, 0x61, 0x81, 0x62, 0xD0, 0xD0,
    0xD0, 0xD0, 0xD0, 0xD0, 0xD0, 0xD0, 0xD0, 0xD0, 0xD0, 0xD0, 0xD0, 0xD0, 0xD0, 0xD0, 0xD0,
];

/// 2024-02-29T23:59:59.999999Z, in microseconds.
const LEAP_DAY: i64 = 1_709_251_199_999_999;

/// The live lanes, mask 0; the row, value 0; and its fields `a` and `b`, values 1 and 2.
fn fields(alloc: Global, builder: &mut Builder) -> Result<(), OutOfMemory>
    requires masks { mask_count builder.old ≡ 0 }
    requires values { value_count builder.old ≡ 0 }
    ensures masks { IfOk result (λ _. mask_count builder.new ≡ 1) }
    ensures values { IfOk result (λ _. value_count builder.new ≡ 3) }
{
    builder.put(Instr::All)?;
    builder.put(Instr::Root { mask: 0 })?;
    let name = Text::of(alloc, "a")?;
    builder.put(Instr::Field {
        mask: 0,
        of: 0,
        name,
    })?;
    let name = Text::of(alloc, "b")?;
    builder.put(Instr::Field {
        mask: 0,
        of: 0,
        name,
    })?;
    Ok(())
}

/// The leap day, value 3; the number 5, value 4; `a IS NULL`, value 5; the lanes in which it is so, mask 1, and those in which
/// it isn't, mask 2; and `STARTS_WITH(b, 'x')`, value 6.
fn more(alloc: Global, builder: &mut Builder) -> Result<(), OutOfMemory>
    requires masks { mask_count builder.old ≡ 1 }
    requires values { value_count builder.old ≡ 3 }
    ensures masks { IfOk result (λ _. mask_count builder.new ≡ 3) }
    ensures values { IfOk result (λ _. value_count builder.new ≡ 7) }
{
    builder.put(Instr::Const {
        mask: 0,
        value: Value::Time(LEAP_DAY),
    })?;
    builder.put(Instr::Const {
        mask: 0,
        value: Value::Int(5),
    })?;
    builder.put(Instr::Is {
        mask: 0,
        what: IsWhat::Null,
        of: 1,
    })?;
    builder.put(Instr::True { mask: 0, of: 5 })?;
    builder.put(Instr::Minus { mask: 0, less: 1 })?;
    let pattern = Text::of(alloc, "x")?;
    builder.put(Instr::Match {
        mask: 0,
        how: How::Starts,
        of: 2,
        pattern,
    })?;
    Ok(())
}

/// What the seven values show of the three rows.
const SHOWN: [[Look<'static>; 3]; 7] = [
    [
        Look::Tree(&[0xD6, 0x8A, 0x21, 0x01, 0x8B, 0x81, 0x78]),
        Look::Tree(&[0xD2, 0x8A, 0x0F]),
        Look::Tree(&[0xD3, 0x8B, 0x21, 0x07]),
    ],
    [Look::Int(1), Look::Null, Look::Missing],
    [Look::Text(b"x"), Look::Missing, Look::Int(7)],
    [
        Look::Time(LEAP_DAY),
        Look::Time(LEAP_DAY),
        Look::Time(LEAP_DAY),
    ],
    [Look::Int(5), Look::Int(5), Look::Int(5)],
    [Look::Bool(false), Look::Bool(true), Look::Bool(false)],
    [Look::Bool(true), Look::Missing, Look::Missing],
];

/// One instruction more, by its number: those that aren't among the first seven values.
fn case(k: u32) -> Instr
    ensures names { IsInstruction 3 7 (instr_view result) }
    ensures value { makes_mask (instr_view result) ≡ false }
{
    match k {
        0 => Instr::Root { mask: 1 },
        1 => Instr::At {
            mask: 2,
            of: 1,
            at: 0,
        },
        2 => Instr::Const {
            mask: 2,
            value: Value::Bool(true),
        },
        3 => Instr::Not { mask: 0, of: 5 },
        4 => Instr::Bin {
            mask: 0,
            op: BinOp::And,
            a: 5,
            b: 6,
        },
        5 => Instr::Bin {
            mask: 0,
            op: BinOp::Or,
            a: 5,
            b: 6,
        },
        6 => Instr::Bin {
            mask: 0,
            op: BinOp::Sub,
            a: 4,
            b: 1,
        },
        7 => Instr::Bin {
            mask: 0,
            op: BinOp::Lt,
            a: 1,
            b: 4,
        },
        8 => Instr::Neg { mask: 0, of: 1 },
        9 => Instr::First {
            mask: 0,
            a: 1,
            b: 2,
        },
        10 => Instr::Merge {
            mask: 0,
            pick: 1,
            a: 4,
            b: 1,
        },
        11 => Instr::Length {
            mask: 0,
            name: Func::CharLength,
            of: 2,
        },
        12 => Instr::Unix {
            mask: 0,
            name: Func::UnixEpoch,
            of: 3,
        },
        13 => Instr::Trunc {
            mask: 0,
            part: Part::Month,
            of: 3,
        },
        14 => Instr::Extract {
            mask: 0,
            part: Part::Month,
            of: 3,
        },
        15 => Instr::Cast {
            mask: 0,
            to: CastTo::Integer,
            of: 5,
        },
        _ => Instr::Shift {
            mask: 0,
            part: Part::Day,
            count: 1,
            of: 3,
        },
    }
}

/// What it shows of the three rows.
const CASES: [[Look<'static>; 3]; 17] = [
    [
        Look::Missing,
        Look::Tree(&[0xD2, 0x8A, 0x0F]),
        Look::Missing,
    ],
    [Look::Missing, Look::Missing, Look::Missing],
    [Look::Bool(true), Look::Missing, Look::Bool(true)],
    [Look::Bool(true), Look::Bool(false), Look::Bool(true)],
    [Look::Bool(false), Look::Missing, Look::Bool(false)],
    [Look::Bool(true), Look::Bool(true), Look::Missing],
    [Look::Int(4), Look::Null, Look::Missing],
    [Look::Bool(true), Look::Null, Look::Missing],
    [Look::Int(-1), Look::Null, Look::Missing],
    [Look::Int(1), Look::Null, Look::Int(7)],
    [Look::Int(1), Look::Int(5), Look::Missing],
    [Look::Int(1), Look::Missing, Look::Missing],
    [
        Look::Int(1_709_251_199),
        Look::Int(1_709_251_199),
        Look::Int(1_709_251_199),
    ],
    [
        Look::Time(1_706_745_600_000_000),
        Look::Time(1_706_745_600_000_000),
        Look::Time(1_706_745_600_000_000),
    ],
    [Look::Int(2), Look::Int(2), Look::Int(2)],
    [Look::Int(0), Look::Int(1), Look::Int(0)],
    [Look::Time(1_709_337_599_999_999), Look::Null, Look::Missing],
];

/// Ends that keep the rows in which `a` isn't NULL.
fn ends(alloc: Global) -> Ends
    ensures { AreEnds 3 8 (ends_view result) }
{
    Ends {
        keep: 2,
        star: true,
        grouped: false,
        outs: EndOuts::new(alloc),
        sorts: Registers::new(alloc),
        groups: Registers::new(alloc),
        aggs: EndAggs::new(alloc),
    }
}

/// The seven values, and one more, value 7.
fn build(alloc: Global, builder: &mut Builder, k: u32) -> Result<(), OutOfMemory>
    requires masks { mask_count builder.old ≡ 0 }
    requires values { value_count builder.old ≡ 0 }
    ensures masks { IfOk result (λ _. mask_count builder.new ≡ 3) }
    ensures values { IfOk result (λ _. value_count builder.new ≡ 8) }
{
    fields(alloc, builder)?;
    more(alloc, builder)?;
    builder.put(case(k))?;
    Ok(())
}

/// The job of these.
fn job(alloc: Global, k: u32) -> Option<Job>
    ensures { IfSome result (λ j. value_count j.program ≡ 8) }
{
    let mut builder = Builder::new(alloc);
    match build(alloc, &mut builder, k) {
        Ok(()) => Some(builder.finish(ends(alloc))),
        Err(_) => None,
    }
}

/// The register shows these in the first three lanes, and MISSING in the others.
fn shows(rt: &impl Abort, frame: &Frame<'_>, register: u32, wanted: &[Look<'_>; 3])
    requires { register < length frame.now.values }
{
    for lane in 0..16u32 {
        let want = if lane < 3 {
            wanted[lane as usize]
        } else {
            Look::Missing
        };
        let look = frame.lane(register, lane);
        assert!(rt; is_look(look, want), "register {register}, lane {lane}");
    }
}

/// Runs the job over three rows, and compares what it shows and keeps.
fn run_three<'b>(rt: &impl Abort, frame: &mut Frame<'b>, block: &Block<'b>, wanted: &[Look<'_>; 3])
    requires { value_count frame.old.job.program ≡ 8 }
{
    assert_eq!(rt; frame.kept(), LaneMask(0));
    frame.bind(block.table());
    if block.rows() == 3 {
        let chunk = block.chunk(0);
        frame.run_chunk(block, &chunk);
        for register in 0..7u32 {
            shows(rt, frame, register, &SHOWN[register as usize]);
        }
        shows(rt, frame, 7, wanted);
    }
    assert_eq!(rt; frame.kept(), LaneMask(5));
}

/// Runs the chunk that begins at the row, if the block has it.
fn run_at<'b>(frame: &mut Frame<'b>, block: &Block<'b>, first: u32)
    requires bound { IsBound block.now.0 frame.old.job.program frame.old.symbols }
    requires whole { first % 16 ≡ 0 }
    ensures job { frame.new.job ≡ frame.old.job }
    ensures symbols { frame.new.symbols ≡ frame.old.symbols }
{
    if first < block.rows() {
        let chunk = block.chunk(first);
        frame.run_chunk(block, &chunk);
    }
}

/// Runs the two chunks of seventeen rows, and compares what they keep.
fn run_two<'b>(rt: &impl Abort, frame: &mut Frame<'b>, block: &Block<'b>) {
    frame.bind(block.table());
    run_at(frame, block, 0);
    assert_eq!(rt; frame.kept(), LaneMask(0xFFFF));
    run_at(frame, block, 16);
    assert_eq!(rt; frame.kept(), LaneMask(1));
}

/// Compares what a job counted on the two chunks of seventeen rows, taken in by a tally of its own.
fn is_counted(rt: &impl Abort, counted: Tally) {
    let mut tally = Tally::none();
    tally.join(counted);
    assert_eq!(rt; tally.chunks(), 2);
    assert_eq!(rt; tally.kept(), 17);
}

/// Runs the job over a block of three rows.
fn on_three<'b>(
    rt: &impl Abort,
    alloc: Global,
    job: &'b Job,
    bytes: &'b [u8],
    wanted: &[Look<'_>; 3],
) -> bool
    requires { value_count job.now.program ≡ 8 }
{
    match (Frame::new(alloc, job), open_block(alloc, bytes, 3)) {
        (Ok(mut frame), Ok(block)) => {
            run_three(rt, &mut frame, &block, wanted);
            true
        }
        _ => false,
    }
}

/// Runs the job over a block of seventeen rows.
fn on_seventeen<'b>(rt: &impl Abort, alloc: Global, job: &'b Job, bytes: &'b [u8]) -> bool {
    match (Frame::new(alloc, job), open_block(alloc, bytes, 17)) {
        (Ok(mut frame), Ok(block)) => {
            run_two(rt, &mut frame, &block);
            is_counted(rt, frame.into_tally());
            true
        }
        _ => false,
    }
}

#[test]
fn a_job_shows_its_values(rt: HostRuntime) -> Result<(), Fail> {
    for k in 0..CASES.len() {
        let Some(job) = job(rt.alloc(), k as u32) else {
            return Err("no job".into());
        };
        assert!(rt;
            on_three(&rt, rt.alloc(), &job, THREE, &CASES[k]),
            "no frame"
        );
    }
    Ok(())
}

#[test]
fn a_dead_lane_never_passes(rt: HostRuntime) -> Result<(), Fail> {
    let Some(job) = job(rt.alloc(), 0) else {
        return Err("no job".into());
    };
    let bytes = Vec::from_slice(rt.alloc(), SEVENTEEN)?;
    assert!(rt; on_seventeen(&rt, rt.alloc(), &job, &bytes), "no frame");
    Ok(())
}
