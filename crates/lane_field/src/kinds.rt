ghost use Rattle.std.specs.Prelude.{◌≡◌, ◌<◌, ◌&&◌, ◌||◌, ℕ, IfSome, false, nat_eq};
ghost use Rattle.block_meaning.specs.Tables.{Table};
ghost use Rattle.ion_cells.specs.declared.kind.Kind.{Kind};
ghost use Rattle.lane_base.specs.Bits.{has};
ghost use Rattle.lane_field.specs.CellsOf.{IsCellOf};
ghost use Rattle.lane_field.specs.Kinds.{KindsAre, is_of_kind, mask_of, same_kind};

use crate::cells::CellLanes;
use crate::masks::and_lane;
use ion_cells::{Cell, Kind};
use lane_base::LaneMask;

/// The lanes whose cells are of each kind.
#[derive(Clone, Copy, Debug, PartialEq, Eq)]
pub struct KindMasks {
    pub nulls: LaneMask,
    pub bools: LaneMask,
    pub ints: LaneMask,
    pub times: LaneMask,
    pub symbols: LaneMask,
    pub texts: LaneMask,
    pub lists: LaneMask,
    pub structs: LaneMask,
}

/// No lane is of any kind.
#[inline(always)]
fn no_lanes() -> KindMasks
    ensures { (kind : Kind) (i : ℕ) → has (mask_of kind result) i ≡ false }
{
    KindMasks {
        nulls: LaneMask(0),
        bools: LaneMask(0),
        ints: LaneMask(0),
        times: LaneMask(0),
        symbols: LaneMask(0),
        texts: LaneMask(0),
        lists: LaneMask(0),
        structs: LaneMask(0),
    }
}

/// The masks with the lane in the mask of the kind, too. The lane is below 16.
#[inline(always)]
fn and_kind(masks: KindMasks, lane: u32, kind: Kind) -> KindMasks
    requires { lane < 16 }
    ensures { (other : Kind) (i : ℕ)
        → has (mask_of other result) i ≡ ((nat_eq i lane && same_kind other kind)
        || has (mask_of other masks) i) }
{
    match kind {
        Kind::Null => KindMasks {
            nulls: and_lane(masks.nulls, lane),
            ..masks
        },
        Kind::Bool => KindMasks {
            bools: and_lane(masks.bools, lane),
            ..masks
        },
        Kind::Int => KindMasks {
            ints: and_lane(masks.ints, lane),
            ..masks
        },
        Kind::Time => KindMasks {
            times: and_lane(masks.times, lane),
            ..masks
        },
        Kind::Symbol => KindMasks {
            symbols: and_lane(masks.symbols, lane),
            ..masks
        },
        Kind::Text => KindMasks {
            texts: and_lane(masks.texts, lane),
            ..masks
        },
        Kind::List => KindMasks {
            lists: and_lane(masks.lists, lane),
            ..masks
        },
        Kind::Struct => KindMasks {
            structs: and_lane(masks.structs, lane),
            ..masks
        },
    }
}

/// The masks with the lane in the mask of the cell's kind, too, if there is a cell. The lane is below 16.
#[inline(always)]
fn and_cell(masks: KindMasks, lane: u32, cell: Option<Cell<'_>>) -> KindMasks
    requires { lane < 16 }
    ensures { (table : Table) → IfSome cell.entry (IsCellOf table) → (kind : Kind) (i : ℕ)
        → has (mask_of kind result) i
        ≡ ((nat_eq i lane && is_of_kind table kind cell.entry) || has (mask_of kind masks) i) }
{
    match cell {
        Some(cell) => and_kind(masks, lane, cell.kind()),
        None => masks,
    }
}

/// The lanes of `m` whose cells are of each kind. A lane without a cell is in no mask.
pub fn kinds16(c: &CellLanes<'_>, m: LaneMask) -> KindMasks
    ensures { KindsAre m.0 c.now result }
{
    let mut masks = no_lanes();
    for i in 0..16u32 {
        masks = and_cell(masks, i, c.get_in(i, m));
    }
    masks
}
