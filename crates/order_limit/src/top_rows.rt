//! The first rows in the order of their sort keys, of all that are put.
ghost use Rattle.std.specs.Prelude.{◌≡◌, ◌-◌, ◌<◌, ℕ, List, [], ◌∷◌, ◌++◌, Some, length, IfOk, OnOk, OnErr, false};
ghost use Rattle.snel_values.specs.Made.{row_view};
ghost use Rattle.order_limit.specs.Arranged.{Row, IsArranged};
ghost use Rattle.order_limit.specs.Top.{Top, no_rows, no_limit, StandsFor, IsEnough};

use crate::arranging::{limit_rows, skip_rows, sort_rows};
use crate::heap::{add_row, add_rows, is_last};
use crate::moving::to_rows;
use snel_values::{Items, MadeRow, MadeRows, OutOfMemory};
use std::alloc::Global;
use std::marker::Model;

/// The first rows in the order of their sort keys, of all that were put: `ORDER BY` with `LIMIT`. It holds at most so many rows
/// as are asked for, and drops each other one as soon as it is known not to be among them; or, with no limit, it holds all.
#[derive(Drop)]
pub struct TopK {
    falling: Vec<bool>,
    most: usize,
    rows: Vec<MadeRow>,
}

impl Model for TopK {
    ghost use Rattle.std.specs.Prelude.{map};
    ghost use Rattle.std.specs.Coded.{codes};
    ghost use Rattle.value_meaning.specs.Code.{coded_val};
    ghost use Rattle.snel_values.specs.Made.{row_view};
    ghost use Rattle.order_limit.specs.Heaps.{IsKept};
    ghost use Rattle.order_limit.specs.Top.{Top};

    ghost Value = { Top };

    ghost coded = { Prim.hlevel (codes, coded_val) };

    ghost view = { λ t. record { falling = t.falling.items; most = t.most; held = map row_view t.rows.items } };

    ghost invariant = { λ t. IsKept t.falling.items t.most t.rows.items };
}

impl TopK {
    /// No rows. At most `most` are held; those keys fall (DESC) that are flagged.
    pub fn new(alloc: Global, falling: &[bool], most: u32) -> Result<TopK, OutOfMemory>
        ensures { IfOk result (λ t. t ≡ no_rows falling.now most) }
    {
        TopK::of_most(alloc, falling, most as usize)
    }

    /// No rows. All that are put will be held; those keys fall (DESC) that are flagged.
    pub fn unlimited(alloc: Global, falling: &[bool]) -> Result<TopK, OutOfMemory>
        ensures { IfOk result (λ t. t ≡ no_rows falling.now no_limit) }
    {
        TopK::of_most(alloc, falling, usize::MAX)
    }

    /// No rows, with the flags and the limit of this one.
    pub fn fresh(&self, alloc: Global) -> Result<TopK, OutOfMemory>
        ensures { IfOk result (λ t. t ≡ no_rows self.now.falling self.now.most) }
    {
        TopK::of_most(alloc, self.falling.as_slice(), self.most)
    }

    /// No rows, of which at most so many are held.
    fn of_most(alloc: Global, falling: &[bool], most: usize) -> Result<TopK, OutOfMemory>
        ensures { IfOk result (λ t. t ≡ no_rows falling.now most) }
    {
        let mut flags = Vec::new(alloc);
        for at in 0..falling.len() {
            flags.push(falling[at])?;
        }
        Ok(TopK {
            falling: flags,
            most,
            rows: Vec::new(alloc),
        })
    }

    /// How many rows are held.
    pub fn len(&self) -> usize
        ensures { result ≡ length self.now.held }
    {
        self.rows.len()
    }

    /// Whether a row with these keys may be among the first rows. Where it can't, it needn't be made: it counts as put.
    pub fn wants(&self, keys: &Items) -> bool
        requires keyed { length keys.now ≡ length self.now.falling }
        ensures { result ≡ false → (rows : List Row) (line : List ℕ) → StandsFor self.now rows
            → StandsFor self.now (rows ++ (keys.now, line) ∷ []) }
    {
        let held = self.rows.len();
        if held < self.most {
            return true;
        }
        if held == 0 {
            return false;
        }
        !is_last(self.falling.as_slice(), self.rows.as_slice(), keys)
    }

    /// Adds a row, which has as many keys as there are flags.
    pub fn put(&mut self, row: MadeRow) -> Result<(), OutOfMemory>
        requires keyed { length row.keys ≡ length self.old.falling }
        ensures falling { self.new.falling ≡ self.old.falling }
        ensures most { self.new.most ≡ self.old.most }
        ensures stands { OnOk result ((rows : List Row) → StandsFor self.old rows
            → StandsFor self.new (rows ++ row_view row ∷ [])) }
        ensures err { OnErr result (self.new ≡ self.old) }
    {
        add_row(self.falling.as_slice(), self.most, &mut self.rows, row)
    }

    /// Adds the rows for which another one stands, which has the same flags and the same limit.
    pub fn join(&mut self, other: TopK) -> Result<(), OutOfMemory>
        requires falling { other.falling ≡ self.old.falling }
        requires most { other.most ≡ self.old.most }
        ensures falling { self.new.falling ≡ self.old.falling }
        ensures most { self.new.most ≡ self.old.most }
        ensures stands { OnOk result ((rows others : List Row) → StandsFor self.old rows
            → StandsFor other others → StandsFor self.new (rows ++ others)) }
    {
        add_rows(
            self.falling.as_slice(),
            self.most,
            &mut self.rows,
            other.rows,
        )
    }

    /// The first rows, in their order.
    pub fn finish(self, alloc: Global) -> Result<MadeRows, OutOfMemory>
        ensures { IfOk result (λ out. (rows : List Row) → StandsFor self rows
            → IsArranged self.falling 0 (Some self.most) rows out) }
    {
        self.finish_from(alloc, 0)
    }

    /// The first rows, in their order, less the first `skip` many (OFFSET).
    pub fn finish_from(mut self, alloc: Global, skip: u32) -> Result<MadeRows, OutOfMemory>
        ensures { IfOk result (λ out. (rows : List Row) → StandsFor self rows
            → IsArranged self.falling skip (Some (self.most - skip)) rows out) }
    {
        sort_rows(self.falling.as_slice(), &mut self.rows)?;
        let kept = skip_rows(&mut self.rows, skip as u64)?;
        to_rows(alloc, kept)
    }

    /// The rows in their order, less the first `skip` many (OFFSET), and then at most `take` many (LIMIT), where enough rows
    /// are held for that.
    pub fn finish_cut(
        mut self,
        alloc: Global,
        skip: u64,
        take: Option<u64>,
    ) -> Result<MadeRows, OutOfMemory>
        requires enough { IsEnough self.most skip take }
        ensures { IfOk result (λ out. (rows : List Row) → StandsFor self rows
            → IsArranged self.falling skip take rows out) }
    {
        sort_rows(self.falling.as_slice(), &mut self.rows)?;
        let mut kept = skip_rows(&mut self.rows, skip)?;
        limit_rows(&mut kept, take);
        to_rows(alloc, kept)
    }
}
