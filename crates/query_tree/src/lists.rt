ghost use Rattle.std.specs.Prelude.{◌≡◌, [], ◌∷◌, ◌++◌, length, slice_get, OnOk, OnErr, IfSome, IfNone};
ghost use Rattle.std.specs.Option.{option_map};
ghost use Rattle.query_tree.specs.Parts.{item_view, key_view};

use crate::expr::Operand;
use snel_values::{OutOfMemory, Text};
use std::alloc::Global;
use std::marker::Model;

/// Expressions, seen as their list.
#[cycle(expr)]
#[derive(Drop)]
pub struct Exprs {
    all: Vec<Operand>,
}

impl Model for Exprs {
    ghost use Rattle.std.specs.Prelude.{List, map};
    ghost use Rattle.tree_meaning.specs.Tree.{Ex, exs_size, exs};
    ghost use Rattle.tree_meaning.specs.Code.{coded_ex};
    ghost use Rattle.std.specs.Coded.{coded_list};

    ghost Value = { List Ex };

    ghost coded = { coded_list coded_ex };

    ghost view = { λ s. s.all.items };

    ghost size = { λ xs. exs_size (exs xs) };

    ghost use Rattle.query_tree.specs.Falls.{exprs_fall};

    ghost size_decreases = { λ a h. exprs_fall a.all.items };
}

impl Exprs {
    /// No expressions.
    pub fn new(alloc: Global) -> Exprs
        ensures { result ≡ [] }
    {
        Exprs {
            all: Vec::new(alloc),
        }
    }

    /// How many expressions there are.
    pub fn len(&self) -> usize
        ensures { result ≡ length self.now }
    {
        self.all.len()
    }

    /// Adds an expression at the end.
    pub fn push(&mut self, expr: Operand) -> Result<(), OutOfMemory>
        ensures ok { OnOk result (self.new ≡ self.old ++ expr ∷ []) }
        ensures err { OnErr result (self.new ≡ self.old) }
    {
        self.all.push(expr)?;
        Ok(())
    }

    /// Takes the last expression off, if there is one; an empty list stays as it was.
    pub fn pop(&mut self) -> Option<Operand>
        ensures some { IfSome result (λ e. self.old ≡ self.new ++ e ∷ []) }
        ensures none { IfNone result (self.old ≡ []) }
        ensures stays { IfNone result (self.new ≡ self.old) }
    {
        self.all.pop()
    }

    /// The expression at a place, counted from 0.
    pub fn get(&self, at: usize) -> Option<&Operand>
        ensures { option_map (λ e. e.now) result ≡ slice_get self.now at }
    {
        self.all.get(at)
    }
}

/// An output of a query, and the name that it was given.
#[derive(Drop)]
pub struct Item {
    pub expr: Operand,
    pub name: Option<Text>,
}

/// The outputs of a query, seen as their list.
#[derive(Drop)]
pub struct OutItems {
    all: Vec<Item>,
}

impl Model for OutItems {
    ghost use Rattle.std.specs.Prelude.{List, Option, ℕ, map};
    ghost use Rattle.tree_meaning.specs.Tree.{Ex};
    ghost use Rattle.tree_meaning.specs.Code.{coded_ex};
    ghost use Rattle.std.specs.Coded.{coded_list, coded×, coded_option, coded_ℕ};

    ghost Value = { List (Ex × Option (List ℕ)) };

    ghost coded = { coded_list (coded× coded_ex (coded_option (coded_list coded_ℕ))) };

    ghost use Rattle.query_tree.specs.Parts.{item_view};

    ghost view = { λ s. map item_view s.all.items };
}

impl OutItems {
    /// No outputs.
    pub fn new(alloc: Global) -> OutItems
        ensures { result ≡ [] }
    {
        OutItems {
            all: Vec::new(alloc),
        }
    }

    /// How many outputs there are.
    pub fn len(&self) -> usize
        ensures { result ≡ length self.now }
    {
        self.all.len()
    }

    /// Adds an output at the end.
    pub fn push(&mut self, item: Item) -> Result<(), OutOfMemory>
        ensures ok { OnOk result (self.new ≡ self.old ++ item_view item ∷ []) }
        ensures err { OnErr result (self.new ≡ self.old) }
    {
        self.all.push(item)?;
        Ok(())
    }

    /// The output at a place, counted from 0.
    pub fn get(&self, at: usize) -> Option<&Item>
        ensures { option_map (λ i. item_view i.now) result ≡ slice_get self.now at }
    {
        self.all.get(at)
    }
}

/// An order key, and whether it is descending.
#[derive(Drop)]
pub struct OrderKey {
    pub expr: Operand,
    pub falling: bool,
}

/// The order keys of a query, seen as their list.
#[derive(Drop)]
pub struct OrderKeys {
    all: Vec<OrderKey>,
}

impl Model for OrderKeys {
    ghost use Rattle.std.specs.Prelude.{List, Bool, map};
    ghost use Rattle.tree_meaning.specs.Tree.{Ex};
    ghost use Rattle.tree_meaning.specs.Code.{coded_ex};
    ghost use Rattle.std.specs.Coded.{coded_list, coded×, coded_bool};

    ghost Value = { List (Ex × Bool) };

    ghost coded = { coded_list (coded× coded_ex coded_bool) };

    ghost use Rattle.query_tree.specs.Parts.{key_view};

    ghost view = { λ s. map key_view s.all.items };
}

impl OrderKeys {
    /// No order keys.
    pub fn new(alloc: Global) -> OrderKeys
        ensures { result ≡ [] }
    {
        OrderKeys {
            all: Vec::new(alloc),
        }
    }

    /// How many order keys there are.
    pub fn len(&self) -> usize
        ensures { result ≡ length self.now }
    {
        self.all.len()
    }

    /// Adds an order key at the end.
    pub fn push(&mut self, key: OrderKey) -> Result<(), OutOfMemory>
        ensures ok { OnOk result (self.new ≡ self.old ++ key_view key ∷ []) }
        ensures err { OnErr result (self.new ≡ self.old) }
    {
        self.all.push(key)?;
        Ok(())
    }

    /// The order key at a place, counted from 0.
    pub fn get(&self, at: usize) -> Option<&OrderKey>
        ensures { option_map (λ k. key_view k.now) result ≡ slice_get self.now at }
    {
        self.all.get(at)
    }
}
