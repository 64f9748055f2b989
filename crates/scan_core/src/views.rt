//! The views of all seats.
ghost use Rattle.std.specs.Prelude.{◌≡◌, ◌+◌, [], ◌∷◌, ◌++◌, length, slice_get, option_copied, OnOk, OnErr, IsTrue, ◌↔◌};

use crate::memory::OutOfMemory;
use crate::view::ScanView;
use std::alloc::Global;
use std::marker::Model;

/// One view for each seat, in the order of the seats. A contract sees the list of them.
#[derive(Drop)]
pub struct ScanViews {
    pub(crate) all: Vec<ScanView>,
}

impl Model for ScanViews {
    ghost use Rattle.std.specs.Prelude.{List};
    ghost use Rattle.scan_core.specs.declared.view.ScanView.{ScanView};

    ghost Value = { List ScanView };

    ghost view = { λ v. v.all.items };
}

impl ScanViews {
    /// No views. It takes no memory.
    pub fn new(alloc: Global) -> ScanViews
        ensures { result ≡ [] }
    {
        ScanViews {
            all: Vec::new(alloc),
        }
    }

    /// How many views there are.
    pub fn len(&self) -> usize
        ensures { result ≡ length self.now }
    {
        self.all.len()
    }

    /// Whether there are no views.
    pub fn is_empty(&self) -> bool
        ensures { IsTrue result ↔ (self.now ≡ []) }
    {
        self.all.is_empty()
    }

    /// The view at a place, counted from 0.
    pub fn get(&self, at: usize) -> Option<&ScanView>
        ensures { option_copied result ≡ slice_get self.now at }
    {
        self.all.get(at)
    }

    /// One more view, behind the others. At `OutOfMemory` it is dropped.
    pub fn push(&mut self, view: ScanView) -> Result<(), OutOfMemory>
        ensures ok { OnOk result (self.new ≡ self.old ++ view ∷ []) }
        ensures err { OnErr result (self.new ≡ self.old) }
    {
        self.all.push(view)?;
        Ok(())
    }
}
