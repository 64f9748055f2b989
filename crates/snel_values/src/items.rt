ghost use Rattle.std.specs.Prelude.{◌≡◌, [], ◌∷◌, ◌++◌, length, slice_get, OnOk, OnErr, IfOk};
ghost use Rattle.std.specs.Option.{option_map};
ghost use Rattle.snel_values.specs.View.{view, views};
ghost use Rattle.value_meaning.specs.Val.{vals};
ghost use Rattle.value_meaning.specs.Order.{vals_cmp};
ghost use Rattle.value_meaning.specs.Sound.{AreSound};

use crate::memory::OutOfMemory;
use crate::ordering::order;
use crate::value::Value;
use std::alloc::Global;
use std::cmp::Ordering;
use std::marker::Model;

/// The items of a list, seen as their list.
#[cycle(value)]
#[derive(Drop)]
pub struct Items {
    all: Vec<Value>,
}

impl Model for Items {
    ghost use Rattle.std.specs.Prelude.{List};
    ghost use Rattle.value_meaning.specs.Val.{Val, vals, vals_size};
    ghost use Rattle.value_meaning.specs.Code.{coded_val};
    ghost use Rattle.std.specs.Coded.{coded_list};

    ghost Value = { List Val };

    ghost coded = { coded_list coded_val };

    ghost use Rattle.snel_values.specs.View.{views};

    ghost view = { λ s. views s.all.items };

    ghost use Rattle.value_meaning.specs.Sound.{AreSound};

    ghost invariant = { λ s. AreSound (vals (views s.all.items)) };

    ghost size = { λ vs. vals_size (vals vs) };

    ghost use Rattle.snel_values.specs.Falls.{items_fall};

    ghost size_decreases = { λ a h. items_fall a.all.items };
}

impl Items {
    /// No items.
    pub fn new(alloc: Global) -> Items
        ensures { result ≡ [] }
    {
        Items {
            all: Vec::new(alloc),
        }
    }

    /// How many items there are.
    pub fn len(&self) -> usize
        ensures { result ≡ length self.now }
    {
        self.all.len()
    }

    /// Adds an item at the end.
    pub fn push(&mut self, item: Value) -> Result<(), OutOfMemory>
        ensures ok { OnOk result (self.new ≡ self.old ++ view item ∷ []) }
        ensures err { OnErr result (self.new ≡ self.old) }
    {
        item.know();
        self.all.push(item)?;
        Ok(())
    }

    /// Tells what holds of every list.
    pub fn know(&self)
        ensures { AreSound (vals self.now) }
    {
        let _ = &self.all;
    }

    /// The item at a place, counted from 0.
    pub fn get(&self, at: usize) -> Option<&Value>
        ensures { option_map (λ v. view v.now) result ≡ slice_get self.now at }
    {
        self.all.get(at)
    }

    /// The items.
    pub fn as_slice(&self) -> &[Value]
        ensures { views result.now ≡ self.now }
    {
        self.all.as_slice()
    }

    /// How self stands to other: item by item, a prefix below the longer.
    #[cycle(order)]
    pub fn order(&self, other: &Items) -> Ordering
        ensures { result ≡ vals_cmp (vals self.now) (vals other.now) }
    {
        let count = self.all.len().min(other.all.len());
        for i in 0..count {
            let first = order(&self.all[i], &other.all[i]);
            if first != Ordering::Equal {
                return first;
            }
        }
        self.all.len().cmp(&other.all.len())
    }

    /// Equal items.
    #[cycle(copy)]
    pub fn copy(&self, alloc: Global) -> Result<Items, OutOfMemory>
        ensures { IfOk result (λ vs. vs ≡ self.now) }
    {
        let mut all = Vec::new(alloc);
        for item in &self.all {
            all.push(item.copy(alloc)?)?;
        }
        Ok(Items { all })
    }
}
