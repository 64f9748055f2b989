//! What values are, how they are ordered, and what holds of each. Nothing here runs: each function is a law of the
//! definitions.
#![tactic(auto)]

ghost use Rattle.std.specs.Prelude.{◌≡◌, ◌↔◌, ℕ, List, All};
ghost use Rattle.std.specs.Cmp.{IsTotalOrder};
ghost use Rattle.std.specs.Cmp.Lexicographic.{slice_cmp};
ghost use Rattle.std.specs.Str.{IsUtf8};
ghost use Rattle.std.specs.declared.cmp.Ordering.TheVariants.{Less};
ghost use Rattle.value_meaning.specs.Val.{Val, Vals, Fields, list, struct, vals, items, fields, pairs};
ghost use Rattle.value_meaning.specs.Order.{val_cmp, pair_cmp};
ghost use Rattle.value_meaning.specs.Pairs.{Pairs, NamesRise};
ghost use Rattle.value_meaning.specs.Sound.{IsSound};

/// The order of values is total.
pub fn order_is_total()
    ensures { IsTotalOrder val_cmp }
{}

/// Two values are one exactly where neither is below the other.
pub fn order_is_exact()
    ensures { (a b : Val) → (val_cmp a b ≡ Less → ⊥) × (val_cmp b a ≡ Less → ⊥) ↔ (a ≡ b) }
{}

/// Lists compare item by item, a prefix below the longer, as slices do.
pub fn lists_compare_by_items()
    ensures { (a b : List Val) → val_cmp (list (vals a)) (list (vals b)) ≡ slice_cmp val_cmp a b }
{}

/// Structs compare as slices of pairs, the name before the value.
pub fn structs_compare_by_pairs()
    ensures { (a b : Pairs) → val_cmp (struct (fields a)) (struct (fields b))
        ≡ slice_cmp pair_cmp a b }
{}

/// A list is sound exactly where each item is.
pub fn lists_are_sound_by_items()
    ensures { (vs : List Val) → IsSound (list (vals vs)) ↔ All IsSound vs }
{}

/// A struct is sound exactly where its names rise, each name is UTF-8, and each value is sound.
pub fn structs_are_sound_by_pairs()
    ensures { (fs : Pairs) → IsSound (struct (fields fs))
        ↔ (NamesRise fs × All (λ f. IsUtf8 f.0 × IsSound f.1) fs) }
{}

/// The chains within a value and lists are each other.
pub fn chains_are_lists()
    ensures items { (vs : List Val) → items (vals vs) ≡ vs }
    ensures vals { (vs : Vals) → vals (items vs) ≡ vs }
    ensures pairs { (fs : List (List ℕ × Val)) → pairs (fields fs) ≡ fs }
    ensures fields { (fs : Fields) → fields (pairs fs) ≡ fs }
{}
