ghost use Rattle.lane_base.specs.Bits.{IsDisjoint};

use crate::mask::LaneMask;

/// A number in each lane.
#[derive(Clone, Copy)]
pub struct IntLanes {
    pub lanes: [i64; 16],
}

/// A span of bytes in each lane, which lie elsewhere.
#[derive(Clone, Copy)]
pub struct SpanLanes<'b> {
    pub lanes: [&'b [u8]; 16],
}

/// A value in each lane, by its kind. A lane is in at most one of the seven masks; in none of them it is MISSING.
#[derive(Clone, Copy)]
pub struct Lanes<'b> {
    /// The lanes that are NULL.
    pub null: LaneMask,
    /// The lanes that are true.
    pub yes: LaneMask,
    /// The lanes that are false.
    pub no: LaneMask,
    /// The lanes that are a whole number, which stands in `nums`.
    pub int: LaneMask,
    /// The lanes that are a time, whose microseconds from 1970-01-01T00:00:00Z on stand in `nums`.
    pub time: LaneMask,
    /// The lanes that are a text, whose bytes stand in `spans`.
    pub text: LaneMask,
    /// The lanes that are a list or a struct, whose cell stands in `spans`.
    pub tree: LaneMask,
    pub nums: IntLanes,
    pub spans: SpanLanes<'b>,
    ghost disjoint: { IsDisjoint null.0 yes.0 no.0 int.0 time.0 text.0 tree.0 },
}

/// What one lane shows.
#[derive(Clone, Copy, Debug, PartialEq, Eq)]
pub enum Look<'b> {
    Missing,
    Null,
    Bool(bool),
    Int(i64),
    /// The microseconds of the time from 1970-01-01T00:00:00Z on.
    Time(i64),
    /// The bytes of the text.
    Text(&'b [u8]),
    /// The bytes of the cell of the list or struct.
    Tree(&'b [u8]),
}

impl<'b> Lanes<'b> {
    ghost use Rattle.std.specs.Prelude.{◌≡◌, ◌<◌, ℕ, true, false, not, ◌&&◌, ◌||◌};
    ghost use Rattle.value_meaning.specs.Val.{int, time, text};
    ghost use Rattle.std.specs.Str.{IsUtf8};
    ghost use Rattle.time_meaning.specs.Moments.{IsTime};
    ghost use Rattle.block_meaning.specs.Tables.{Table};
    ghost use Rattle.eval_meaning.specs.Logic.{is_missing, is_null};
    ghost use Rattle.lane_base.specs.Bits.{has, AreApart};
    ghost use Rattle.block_meaning.specs.CellReading.{cell_value};
    ghost use Rattle.lane_base.specs.Shown.{IsLegal, IsTree};
    ghost use Rattle.lane_base.specs.Registers.{shown, seen, value_at, under, number_at, span_at, truth_as, one_as, AreLegal};

    /// Lanes that are NULL, true or false. No lane is in two of the masks; one in none of them is MISSING.
    #[inline(always)]
    pub fn truths(null: LaneMask, yes: LaneMask, no: LaneMask) -> Lanes<'b>
        requires { AreApart null.0 yes.0 no.0 }
        ensures value { (table : Table) (i : ℕ) → i < 16
            → value_at table result i ≡ truth_as (has null.0 i) (has yes.0 i) (has no.0 i) }
        ensures legal { (table : Table) → AreLegal table result }
    {
        Lanes {
            null,
            yes,
            no,
            int: LaneMask(0),
            time: LaneMask(0),
            text: LaneMask(0),
            tree: LaneMask(0),
            nums: IntLanes { lanes: [0; 16] },
            spans: SpanLanes { lanes: [&[]; 16] },
        }
    }

    /// Lanes that are NULL or whole numbers. No lane is in both masks; one in neither is MISSING.
    #[inline(always)]
    pub fn ints(null: LaneMask, number: LaneMask, nums: IntLanes) -> Lanes<'b>
        requires { (k : ℕ) → (has null.0 k && has number.0 k) ≡ false }
        ensures value { (table : Table) (i : ℕ) → i < 16
            → value_at table result i ≡ one_as (has null.0 i) (has number.0 i)
            (int (number_at nums.lanes i)) }
        ensures legal { (table : Table) → AreLegal table result }
    {
        Lanes {
            null,
            yes: LaneMask(0),
            no: LaneMask(0),
            int: number,
            time: LaneMask(0),
            text: LaneMask(0),
            tree: LaneMask(0),
            nums,
            spans: SpanLanes { lanes: [&[]; 16] },
        }
    }

    /// Lanes that are NULL or times, in microseconds from 1970-01-01T00:00:00Z on. No lane is in both masks; one in
    /// neither is MISSING.
    #[inline(always)]
    pub fn times(null: LaneMask, moment: LaneMask, nums: IntLanes) -> Lanes<'b>
        requires { (k : ℕ) → (has null.0 k && has moment.0 k) ≡ false }
        ensures value { (table : Table) (i : ℕ) → i < 16
            → value_at table result i ≡ one_as (has null.0 i) (has moment.0 i)
            (time (number_at nums.lanes i)) }
        ensures legal { (table : Table)
            → ((i : ℕ) → i < 16 → has moment.0 i ≡ true → IsTime (number_at nums.lanes i))
            → AreLegal table result }
    {
        Lanes {
            null,
            yes: LaneMask(0),
            no: LaneMask(0),
            int: LaneMask(0),
            time: moment,
            text: LaneMask(0),
            tree: LaneMask(0),
            nums,
            spans: SpanLanes { lanes: [&[]; 16] },
        }
    }

    /// Lanes that are texts; one that isn't in the mask is MISSING.
    #[inline(always)]
    pub fn texts(string: LaneMask, spans: SpanLanes<'b>) -> Lanes<'b>
        ensures value { (table : Table) (i : ℕ) → i < 16
            → value_at table result i ≡ under (has string.0 i)
            (text (span_at spans.entry.lanes i)) }
        ensures legal { (table : Table)
            → ((i : ℕ) → i < 16 → has string.0 i ≡ true → IsUtf8 (span_at spans.entry.lanes i))
            → AreLegal table result }
    {
        Lanes {
            null: LaneMask(0),
            yes: LaneMask(0),
            no: LaneMask(0),
            int: LaneMask(0),
            time: LaneMask(0),
            text: string,
            tree: LaneMask(0),
            nums: IntLanes { lanes: [0; 16] },
            spans,
        }
    }

    /// Lanes that are lists or structs, by their cells; one that isn't in the mask is MISSING.
    #[inline(always)]
    pub fn trees(nested: LaneMask, spans: SpanLanes<'b>) -> Lanes<'b>
        ensures value { (table : Table) (i : ℕ) → i < 16
            → value_at table result i ≡ under (has nested.0 i)
            (cell_value table (span_at spans.entry.lanes i)) }
        ensures legal { (table : Table)
            → ((i : ℕ) → i < 16 → has nested.0 i ≡ true
            → IsTree table (span_at spans.entry.lanes i))
            → AreLegal table result }
    {
        Lanes {
            null: LaneMask(0),
            yes: LaneMask(0),
            no: LaneMask(0),
            int: LaneMask(0),
            time: LaneMask(0),
            text: LaneMask(0),
            tree: nested,
            nums: IntLanes { lanes: [0; 16] },
            spans,
        }
    }

    /// What the lane, which is below 16, shows.
    #[inline(always)]
    pub fn look(&self, lane: u32) -> Look<'b>
        requires { lane < 16 }
        ensures { seen result ≡ shown self.now lane }
    {
        if self.null.has(lane) {
            return Look::Null;
        }
        if self.yes.has(lane) {
            return Look::Bool(true);
        }
        if self.no.has(lane) {
            return Look::Bool(false);
        }
        let at = lane as usize;
        if self.int.has(lane) {
            return Look::Int(self.nums.lanes[at]);
        }
        if self.time.has(lane) {
            return Look::Time(self.nums.lanes[at]);
        }
        if self.text.has(lane) {
            return Look::Text(self.spans.lanes[at]);
        }
        if self.tree.has(lane) {
            return Look::Tree(self.spans.lanes[at]);
        }
        Look::Missing
    }

    /// The lanes that aren't MISSING.
    #[inline(always)]
    pub fn present(&self) -> LaneMask
        ensures { (table : Table) (i : ℕ) → i < 16 → IsLegal table (shown self.now i)
            → has result.0 i ≡ not (is_missing (value_at table self.now i)) }
    {
        LaneMask(self.null.0 | self.solid().0)
    }

    /// The lanes that are neither MISSING nor NULL.
    #[inline(always)]
    pub fn solid(&self) -> LaneMask
        ensures { (table : Table) (i : ℕ) → i < 16 → IsLegal table (shown self.now i)
            → has result.0 i ≡ not (is_missing (value_at table self.now i)
            || is_null (value_at table self.now i)) }
    {
        LaneMask(self.yes.0 | self.no.0 | self.int.0 | self.time.0 | self.text.0 | self.tree.0)
    }
}
