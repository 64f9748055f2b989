ghost use Rattle.std.specs.Prelude.{◌≡◌, ◌↔◌, ℕ, List, [], ◌∷◌, ◌++◌, length, slice_get, OnOk, OnErr, IfOk, IfSome, IsTrue, option_copied};
ghost use Rattle.snel_values.specs.View.{view};
ghost use Rattle.std.specs.Option.{option_map};
ghost use Rattle.value_meaning.specs.Pairs.{IsBelow, IsAboveLast, last_name, value_of};
ghost use Rattle.value_meaning.specs.Sound.{HasSoundFields};
ghost use Rattle.value_meaning.specs.Val.{fields};
ghost use Rattle.value_meaning.specs.Order.{fields_cmp};

use crate::memory::OutOfMemory;
use crate::ordering::order;
use crate::text::Text;
use crate::value::Value;
use std::alloc::Global;
use std::cmp::Ordering;
use std::marker::Model;

/// A name and its value.
#[cycle(value)]
#[derive(Drop)]
struct Pair {
    name: Text,
    value: Value,
}

/// The pairs of a struct, seen as the list of names and values. The names strictly increase by bytes.
#[cycle(value)]
#[derive(Drop)]
pub struct Pairs {
    all: Vec<Pair>,
}

impl Model for Pairs {
    ghost use Rattle.std.specs.Prelude.{List, ℕ, map};
    ghost use Rattle.value_meaning.specs.Val.{Val, fields, fields_size};
    ghost use Rattle.value_meaning.specs.Code.{coded_val};
    ghost use Rattle.std.specs.Coded.{coded_list, coded×, coded_ℕ};

    ghost Value = { List (List ℕ × Val) };

    ghost coded = { coded_list (coded× (coded_list coded_ℕ) coded_val) };

    ghost use Rattle.snel_values.specs.View.{pair_view};

    ghost view = { λ s. map pair_view s.all.items };

    ghost use Rattle.value_meaning.specs.Sound.{HasSoundFields};

    ghost invariant = { λ s. HasSoundFields (fields (map pair_view s.all.items)) };

    ghost size = { λ fs. fields_size (fields fs) };

    ghost use Rattle.snel_values.specs.Falls.{pairs_fall};

    ghost size_decreases = { λ a h. pairs_fall a.all.items };
}

impl Pairs {
    /// No pairs.
    pub fn new(alloc: Global) -> Pairs
        ensures { result ≡ [] }
    {
        Pairs {
            all: Vec::new(alloc),
        }
    }

    /// Adds a pair at the end. Its name is above the last name, as `is_above_last` tests.
    pub fn push(&mut self, name: Text, value: Value) -> Result<(), OutOfMemory>
        requires { IsAboveLast name self.old }
        ensures ok { OnOk result (self.new ≡ self.old ++ (name, view value) ∷ []) }
        ensures err { OnErr result (self.new ≡ self.old) }
    {
        name.know();
        value.know();
        self.all.push(Pair { name, value })?;
        Ok(())
    }

    /// The value of the pair with that name.
    pub fn get(&self, name: &str) -> Option<&Value>
        ensures { option_map (λ v. view v.now) result ≡ value_of name.now self.now }
    {
        for pair in &self.all {
            if pair.name.as_str() == name {
                return Some(&pair.value);
            }
        }
        None
    }

    /// The last name, which is the greatest: `push` takes the names above it, and any name where there is none.
    pub fn last_name(&self) -> Option<&str>
        ensures last { option_copied result ≡ last_name self.now }
        ensures above { (name : List ℕ) → IfSome result (λ s. IsBelow s.now name)
            ↔ IsAboveLast name self.now }
    {
        match self.all.last() {
            Some(pair) => Some(pair.name.as_str()),
            None => None,
        }
    }

    /// Whether the name is above the last name, so that `push` takes it.
    pub fn is_above_last(&self, name: &str) -> bool
        ensures { IsTrue result ↔ IsAboveLast name.now self.now }
    {
        match self.last_name() {
            Some(last) => last < name,
            None => true,
        }
    }

    /// How many pairs there are.
    pub fn len(&self) -> usize
        ensures { result ≡ length self.now }
    {
        self.all.len()
    }

    /// The name at a place, counted from 0.
    pub fn name_at(&self, at: usize) -> Option<&str>
        ensures { option_copied result ≡ option_map (λ f. f.0) (slice_get self.now at) }
    {
        match self.all.get(at) {
            Some(pair) => Some(pair.name.as_str()),
            None => None,
        }
    }

    /// The value at a place, counted from 0.
    pub fn value_at(&self, at: usize) -> Option<&Value>
        ensures { option_map (λ v. view v.now) result
            ≡ option_map (λ f. f.1) (slice_get self.now at) }
    {
        match self.all.get(at) {
            Some(pair) => Some(&pair.value),
            None => None,
        }
    }

    /// Tells what holds of every struct.
    pub fn know(&self)
        ensures { HasSoundFields (fields self.now) }
    {
        let _ = &self.all;
    }

    /// How self stands to other: pair by pair, the name before the value, a prefix below the longer.
    #[cycle(order)]
    pub fn order(&self, other: &Pairs) -> Ordering
        ensures { result ≡ fields_cmp (fields self.now) (fields other.now) }
    {
        let count = self.all.len().min(other.all.len());
        for i in 0..count {
            let x = &self.all[i];
            let y = &other.all[i];
            let names = x.name.as_str().cmp(y.name.as_str());
            if names != Ordering::Equal {
                return names;
            }
            let first = order(&x.value, &y.value);
            if first != Ordering::Equal {
                return first;
            }
        }
        self.all.len().cmp(&other.all.len())
    }

    /// Equal pairs.
    #[cycle(copy)]
    pub fn copy(&self, alloc: Global) -> Result<Pairs, OutOfMemory>
        ensures { IfOk result (λ fs. fs ≡ self.now) }
    {
        let mut all = Vec::new(alloc);
        for pair in &self.all {
            let name = pair.name.copy(alloc)?;
            let value = pair.value.copy(alloc)?;
            all.push(Pair { name, value })?;
        }
        Ok(Pairs { all })
    }
}
