//! Queries by several workers, under schedules that a gate forces.
use command_calls::{Blocks, OF_A, block_of, words_of};
use snel_command::snel;
use snel_device::{Gate, MemFiles, MemOut, OpenGate, SteadyInput};
use std::alloc::{AllocError, Global};
use std::random::RandomSource;
use std::sync::atomic::AtomicU64;
use std::sync::atomic::Ordering::SeqCst;
use std::test::Fail;
use std::thread;
use std::thread::Threads;

const GROUPED: &str = "SELECT a, COUNT(*) AS n FROM logs GROUP BY a ORDER BY a";

const SORTED: &str = "SELECT a FROM logs ORDER BY a";

const ALL: &str = "SELECT * FROM logs";

const SOME: &str = "SELECT * FROM logs LIMIT 2 OFFSET 1";

// So many turns are enough for all threads to come.
const TURNS: u64 = 100_000_000;

// Holds one claim back until so many have come, and notes if they don't.
#[derive(Drop)]
struct HoldingGate {
    held: u32,
    all: u64,
    come: AtomicU64,
    late: AtomicU64,
}

impl Gate for HoldingGate {
    fn pass(&self, claim: u32) {
        self.come.fetch_add(1, SeqCst);
        if claim != self.held {
            return;
        }
        for _ in 0..TURNS {
            if self.come.load(SeqCst) >= self.all {
                return;
            }
            thread::yield_now();
        }
        self.late.fetch_add(1, SeqCst);
    }
}

// The row in which `a` is this digit.
fn row_of(number: u8) -> [u8; 4] {
    [0xd3, 0x8a, 0x21, number]
}

// A file with so many blocks of one row each, in which `a` is the block's number. The first bytes of the blocks in `bad` are wrong.
fn numbered(alloc: Global, count: u8, bad: &[u8]) -> Result<Vec<u8>, AllocError> {
    let mut blocks = Blocks::new(alloc, b"")?;
    for number in 0..count {
        let row = row_of(number);
        let mut block = block_of(alloc, OF_A, &[&row])?;
        if let Some(first) = block.first_mut()
            && bad.contains(&number)
        {
            *first = 0;
        }
        blocks.push(&block, 1, 0, 0)?;
    }
    blocks.finish()
}

// Whether a query of these words over the file `p` of these bytes ends so, where its workers pass the gate.
fn ends_under<R: Threads + Sync + RandomSource + AllocGlobal, G: Gate + Sync>(
    rt: &R,
    gate: &G,
    texts: &[&str],
    file: &[u8],
    (status, out, err): (u8, &[u8], &str),
) -> Result<bool, AllocError> {
    let alloc = rt.alloc();
    let Ok(words) = words_of(alloc, texts) else {
        return Ok(false);
    };
    let mut files = MemFiles::new(alloc, &[])?;
    files.insert("p", file)?;
    let mut lines = MemOut::new(alloc, &[])?;
    let mut told = MemOut::new(alloc, &[])?;
    let mut input = SteadyInput::new(&[]);
    let ended = snel(
        rt, alloc, &words, &mut files, &mut input, &mut lines, &mut told, gate,
    );
    Ok(ended == status && lines.bytes() == out && told.bytes() == err.as_bytes())
}

// Each claim in turn is held back until the others have come: the other worker draws them. Lines of a query that doesn't sort stand in
// the order of the blocks.
#[test]
fn a_worker_that_is_held_keeps_no_block_from_the_other(rt: HostRuntime) -> Result<(), Fail> {
    let file = numbered(rt.alloc(), 3, &[])?;
    let groups = b"{\"a\":0,\"n\":1}\n{\"a\":1,\"n\":1}\n{\"a\":2,\"n\":1}\n".as_slice();
    let rows = b"{\"a\":0}\n{\"a\":1}\n{\"a\":2}\n".as_slice();
    let some = b"{\"a\":1}\n{\"a\":2}\n".as_slice();
    for (sql, answer) in [(GROUPED, groups), (ALL, rows), (SOME, some)] {
        for held in 0u32..3 {
            let gate = HoldingGate {
                held,
                all: 3,
                come: AtomicU64::new(0),
                late: AtomicU64::new(0),
            };
            let words = ["query", "--workers", "2", sql, "p"];
            assert!(rt;
                ends_under(&rt, &gate, &words, &file, (0, answer, ""))?,
                "{held} {sql}"
            );
            assert_eq!(rt; gate.late.load(SeqCst), 0);
        }
    }
    Ok(())
}

// Of two bad blocks the first is named, whatever each worker met.
#[test]
fn the_first_bad_block_is_named(rt: HostRuntime) -> Result<(), Fail> {
    let file = numbered(rt.alloc(), 6, &[3, 5])?;
    let named = (6, b"".as_slice(), "snel: p: block 3 is damaged\n");
    for workers in ["1", "2", "8"] {
        for sql in [ALL, GROUPED, SORTED] {
            let words = ["query", "--workers", workers, sql, "p"];
            assert!(rt;
                ends_under(&rt, &OpenGate, &words, &file, named)?,
                "{workers} {sql}"
            );
        }
    }
    for sql in [GROUPED, ALL, SOME] {
        for held in 0u32..6 {
            let gate = HoldingGate {
                held,
                all: 4,
                come: AtomicU64::new(0),
                late: AtomicU64::new(0),
            };
            let words = ["query", "--workers", "2", sql, "p"];
            assert!(rt;
                ends_under(&rt, &gate, &words, &file, named)?,
                "{held} {sql}"
            );
        }
    }
    Ok(())
}

// The lines of the rows of so many blocks, in order.
fn ordered_lines(alloc: Global, count: u8) -> Result<String, AllocError> {
    let mut lines = String::new(alloc);
    for number in 0..count {
        let line = format!(in alloc; "{{\"a\":{number}}}\n")?;
        lines.push_str(line.as_str())?;
    }
    Ok(lines)
}

// More workers than blocks, and more blocks than stand in one batch.
#[test]
fn any_number_of_workers_scans_any_number_of_blocks(rt: HostRuntime) -> Result<(), Fail> {
    for count in [1u8, 2, 64, 65] {
        let file = numbered(rt.alloc(), count, &[])?;
        let lines = ordered_lines(rt.alloc(), count)?;
        for workers in ["1", "2", "64"] {
            for sql in [SORTED, ALL] {
                let words = ["query", "--workers", workers, sql, "p"];
                assert!(rt;
                    ends_under(&rt, &OpenGate, &words, &file, (0, lines.as_bytes(), ""))?,
                    "{count} {workers} {sql}"
                );
            }
        }
    }
    Ok(())
}

// A LIMIT that is full within a batch lets no line of a later block through, and a later batch isn't read: its bad block isn't met.
#[test]
fn a_limit_holds_for_any_number_of_workers(rt: HostRuntime) -> Result<(), Fail> {
    let file = numbered(rt.alloc(), 66, &[65])?;
    let lines = b"{\"a\":1}\n{\"a\":2}\n".as_slice();
    for workers in ["1", "2", "8", "64"] {
        let words = ["query", "--workers", workers, SOME, "p"];
        assert!(rt;
            ends_under(&rt, &OpenGate, &words, &file, (0, lines, ""))?,
            "{workers}"
        );
    }
    Ok(())
}
