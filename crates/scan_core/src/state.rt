//! The state of a scan, and what each kind of event does to it.
ghost use Rattle.std.specs.Prelude.{◌≡◌, ◌<◌, ◌≤◌, IfOk, Some, replicate};
ghost use Rattle.scan_core.specs.Board.{Kept, scan, lesser, empty_view};

use crate::event::{ScanEvent, StepFault, Told};
use crate::memory::OutOfMemory;
use crate::view::ScanView;
use crate::views::ScanViews;
use std::alloc::Global;

const MOST_ROWS: u32 = 1_048_576;

/// The state of a scan. Its ghost field says that it is one of those that `Kept` describes.
#[derive(Drop)]
pub struct ScanState {
    /// How many blocks there are to be claimed: those numbered below this.
    pub blocks: u32,
    /// How many rows are enough, where that is known. No event reads it.
    pub enough: Option<u64>,
    /// The block that is claimed next, or `blocks` where all are claimed.
    pub next: u32,
    /// The rows that all seats reported, all together.
    pub rows: u64,
    /// The least block that a seat reported as damaged.
    pub damage: Option<u32>,
    /// One view for each seat.
    pub views: ScanViews,
    pub ghost kept: { Kept (scan blocks enough next rows damage views) },
}

impl ScanState {
    ghost use Rattle.scan_core.specs.Events.{opening};
    ghost use Rattle.scan_core.specs.Laws.{AfterAll, CoveredBelow, EndedIsAll, StaysTrue};
    ghost use Rattle.scan_core.specs.States.{shown, Steps};
    ghost use Rattle.scan_core.specs.declared.event.ScanEvent.TheVariants as event;

    /// The opening state: nothing is claimed, reported or seen.
    ///
    /// The clauses from `kept` on say what holds after every list of lawful events from there.
    pub fn new(
        alloc: Global,
        seats: u32,
        blocks: u32,
        enough: Option<u64>,
    ) -> Result<ScanState, OutOfMemory>
        requires { (0 < seats) × (seats ≤ 64) }
        ensures opens { IfOk result (λ s. shown s ≡ opening seats blocks enough) }
        ensures kept { AfterAll (opening seats blocks enough) Kept }

        // Once a damage is known, each lower block is among the claims of a seat.
        ensures covered { AfterAll (opening seats blocks enough) CoveredBelow }
        // Once a seat has ended, the claims are all blocks, each once.
        ensures ended { AfterAll (opening seats blocks enough) EndedIsAll }
        // What a seat has seen holds in every later state.
        ensures later { AfterAll (opening seats blocks enough) (λ s. AfterAll s (StaysTrue s)) }
    {
        let views = empty_views(alloc, seats)?;
        Ok(ScanState {
            blocks,
            enough,
            next: 0,
            rows: 0,
            damage: None,
            views,
        })
    }

    pub(crate) fn claim(&mut self, seat: u32) -> Result<Told, StepFault>
        ensures { Steps self.old (event.Claim seat) self.new result }
    {
        let at = seat as usize;
        if at >= self.views.len() {
            return Err(StepFault::NoSuchSeat);
        }
        let (next, blocks) = (self.next, self.blocks);
        let views = &mut self.views;
        let view = &mut views.all[at];
        if view.ended {
            return Err(StepFault::Unlawful);
        }
        if next >= blocks {
            view.ended = true;
            return Ok(Told::NoBlock);
        }
        if view.claims.push(next).is_err() {
            return Err(StepFault::OutOfMemory);
        }
        self.next = next + 1;
        Ok(Told::Block(next))
    }

    pub(crate) fn report_rows(&mut self, seat: u32, rows: u32) -> Result<Told, StepFault>
        ensures { Steps self.old (event.Rows seat rows) self.new result }
    {
        let at = seat as usize;
        if at >= self.views.len() {
            return Err(StepFault::NoSuchSeat);
        }
        let views = &mut self.views;
        let view = &mut views.all[at];
        if view.reports as usize >= view.claims.len() || rows > MOST_ROWS {
            return Err(StepFault::Unlawful);
        }
        let more = u64::from(rows);
        view.rows += more;
        view.reports += 1;
        self.rows += more;
        Ok(Told::Done)
    }

    pub(crate) fn report_damage(&mut self, seat: u32, block: u32) -> Result<Told, StepFault>
        ensures { Steps self.old (event.Damage seat block) self.new result }
    {
        let at = seat as usize;
        if at >= self.views.len() {
            return Err(StepFault::NoSuchSeat);
        }
        let views = &mut self.views;
        let view = &mut views.all[at];
        if !view.claims.has(block) {
            return Err(StepFault::Unlawful);
        }
        view.least = lesser_of(view.least, block);
        self.damage = lesser_of(self.damage, block);
        Ok(Told::Done)
    }

    pub(crate) fn look_rows(&mut self, seat: u32) -> Result<Told, StepFault>
        ensures { Steps self.old (event.LookRows seat) self.new result }
    {
        let at = seat as usize;
        if at >= self.views.len() {
            return Err(StepFault::NoSuchSeat);
        }
        let rows = self.rows;
        let views = &mut self.views;
        views.all[at].seen_rows = rows;
        Ok(Told::Rows(rows))
    }

    pub(crate) fn look_damage(&mut self, seat: u32) -> Result<Told, StepFault>
        ensures { Steps self.old (event.LookDamage seat) self.new result }
    {
        let at = seat as usize;
        if at >= self.views.len() {
            return Err(StepFault::NoSuchSeat);
        }
        let damage = self.damage;
        let views = &mut self.views;
        views.all[at].seen_damage = damage;
        Ok(Told::Damage(damage))
    }

    pub(crate) fn play(&mut self, event: ScanEvent) -> Result<Told, StepFault>
        ensures { Steps self.old event self.new result }
    {
        match event {
            ScanEvent::Claim(seat) => self.claim(seat),
            ScanEvent::Rows(seat, rows) => self.report_rows(seat, rows),
            ScanEvent::Damage(seat, block) => self.report_damage(seat, block),
            ScanEvent::LookRows(seat) => self.look_rows(seat),
            ScanEvent::LookDamage(seat) => self.look_damage(seat),
        }
    }
}

fn lesser_of(least: Option<u32>, block: u32) -> Option<u32>
    ensures { result ≡ lesser least (Some block) }
{
    match least {
        Some(other) => Some(other.min(block)),
        None => Some(block),
    }
}

fn empty_views(alloc: Global, seats: u32) -> Result<ScanViews, OutOfMemory>
    ensures { IfOk result (λ v. v ≡ replicate seats empty_view) }
{
    let mut views = ScanViews::new(alloc);
    for _ in 0..seats {
        views.push(ScanView::new(alloc))?;
    }
    Ok(views)
}
