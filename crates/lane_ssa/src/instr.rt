use snel_values::{Text, Value};
use tree_meaning::{BinOp, CastTo, Func, How, IsWhat, Part};

/// One instruction, which makes one register, a mask or a value. Masks and values are numbered apart, from 0 on, each in the
/// order of making. `mask` is the number of the mask in whose lanes the result is computed; `of`, `a` and `b` are those of
/// the values that it is computed from. In every other lane a value is MISSING, and no mask has a lane. Each is shown here
/// with its line in a listing.
#[derive(Drop)]
pub enum Instr {
    /// `m0 = all`: the live lanes.
    All,
    /// `m1 = true m0 r3`: the lanes in which the value is true.
    True {
        mask: u32,
        of: u32,
    },
    /// `m2 = minus m0 m1`: the lanes that aren't in the mask `less`.
    Minus {
        mask: u32,
        less: u32,
    },
    /// `r0 = root m0`: the row.
    Root {
        mask: u32,
    },
    /// `r1 = field m0 r0 "a"`: the value of the name in a struct.
    Field {
        mask: u32,
        of: u32,
        name: Text,
    },
    /// `r2 = at m0 r1 3`: the item of a list at the place, counted from 0.
    At {
        mask: u32,
        of: u32,
        at: u32,
    },
    /// `r3 = const m0 5`: a literal, which is no list and no struct.
    Const {
        mask: u32,
        value: Value,
    },
    /// `r4 = add m0 r1 r2`: an operator of two values.
    Bin {
        mask: u32,
        op: BinOp,
        a: u32,
        b: u32,
    },
    /// `r5 = neg m0 r4`: the number with its sign turned.
    Neg {
        mask: u32,
        of: u32,
    },
    /// `r5 = not m0 r4`: NOT of a value.
    Not {
        mask: u32,
        of: u32,
    },
    /// `r6 = is m0 null r1`: IS of a value.
    Is {
        mask: u32,
        what: IsWhat,
        of: u32,
    },
    /// `r7 = first m0 r1 r2`: `a` where it is neither NULL nor MISSING, and `b` elsewhere.
    First {
        mask: u32,
        a: u32,
        b: u32,
    },
    /// `r8 = merge m0 m1 r1 r2`: `a` in the lanes of the mask `pick`, and `b` in the others.
    Merge {
        mask: u32,
        pick: u32,
        a: u32,
        b: u32,
    },
    /// `r9 = like m0 r1 'a%'`: whether a text matches the pattern, or the text that it is matched by.
    Match {
        mask: u32,
        how: How,
        of: u32,
        pattern: Text,
    },
    /// `r10 = cast m0 integer r1`: CAST of a value.
    Cast {
        mask: u32,
        to: CastTo,
        of: u32,
    },
    /// `r11 = charlength m0 r1`: how many characters a text has. The name is CHAR_LENGTH.
    Length {
        mask: u32,
        name: Func,
        of: u32,
    },
    /// `r11 = unixepoch m0 r1`: the seconds or microseconds since 1970 of a time. The name is UNIX_EPOCH or UNIX_MICRO.
    Unix {
        mask: u32,
        name: Func,
        of: u32,
    },
    /// `r12 = trunc m0 month r1`: a time cut to the part.
    Trunc {
        mask: u32,
        part: Part,
        of: u32,
    },
    /// `r12 = extract m0 month r1`: the part of a time, a number.
    Extract {
        mask: u32,
        part: Part,
        of: u32,
    },
    /// `r13 = shift m0 day r2 r1`: a time, so many parts later. `count` is the number of the value that says how many.
    Shift {
        mask: u32,
        part: Part,
        count: u32,
        of: u32,
    },
}
