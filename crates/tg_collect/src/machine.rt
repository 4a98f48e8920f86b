//! The heap with its roots and the collector's progress. The steps of the table are private methods, of which `collect`
//! makes one, and `cycle` all up to the end of a cycle, in loops over steps of one kind.
ghost use Rattle.std.specs.Prelude.{◌≡◌, ◌<◌, ◌≤◌, [], ◌∷◌, length, MatchOption, IfNone, IfSome, ◌+◌, get_or, false, true, cond, None, Some};
ghost use Rattle.std.specs.Bool.{OnFalse, OnTrue};
ghost use Rattle.tg_rights.specs.declared.limits.TheConstants.{MAX_SLOTS};
ghost use Rattle.tg_slots.specs.Promise.Table.{Has};
ghost use Rattle.tg_heap.specs.Promise.Graph.{IsHeap, mark_at};
ghost use Rattle.tg_collect.specs.Promise.Stored.{slot_of};
ghost use Rattle.tg_collect.specs.Promise.Runs.{Cycled};
ghost use Rattle.tg_collect.specs.Inner.Cycles.{MOST_STEPS, Went, steps_left};
ghost use Rattle.tg_collect.specs.Inner.Machine.{Whole, Steps, phase_of, ShadesFirst, NoneWhite, AreWithin, other_slots, scanning, so_far, with_shaded};
ghost use Rattle.tg_collect.specs.Inner.Stored.{stored};

use crate::note::{Note, Phase, Swept};
use crate::packed_progress::PackedProgress;
use crate::roster::Roster;
use tg_heap::Heap;
use tg_slots::Colour;

/// A vertex that must stay, by its serial and its slot.
#[derive(Clone, Copy, Drop)]
pub(crate) struct Root {
    pub serial: u64,
    pub slot: u32,
}

/// The slot under scan, and the cell that is looked at next.
#[derive(Clone, Copy, Drop)]
pub(crate) struct Scan {
    pub slot: u32,
    pub cursor: Option<u32>,
}

/// How far the collector is in its cycle.
#[derive(Clone, Copy, Drop)]
pub(crate) enum Progress {
    /// Between two cycles.
    Idle,
    /// Marking, with the slot under scan, if one is chosen.
    Marking(Option<Scan>),
    /// Sweeping, with the next slot.
    Sweeping(u32),
}

/// What must stay: each seat's target, the principals in the order in which they came, and each seat's agent.
#[derive(Drop)]
pub(crate) struct Roots {
    pub targets: Vec<Option<Root>>,
    pub principals: Roster,
    pub agents: Vec<Option<Root>>,
}

impl Roots {
    /// The root at an index of those that a cycle starts with: the principals, and then the agents.
    fn other(&self, index: usize) -> Option<Root>
        requires { index < length self.now.principals + length self.now.agents.items }
        ensures { slot_of result ≡ get_or (other_slots self.now) index None }
    {
        let principals = self.principals.len();
        if index < principals {
            Some(self.principals.at(index))
        } else {
            self.agents[index - principals]
        }
    }
}

/// The heap with its roots and the collector's progress.
#[derive(Drop)]
pub(crate) struct Machine {
    pub heap: Heap,
    pub progress: PackedProgress,
    pub roots: Roots,
}

impl Machine {
    /// Shades the target of the cell at the cursor, and returns the next cell.
    #[inline(always)]
    fn scan_cell(&mut self, slot: u32, cursor: u32) -> Option<u32>
        requires whole { Whole (so_far self.old (scanning slot (Some cursor))) }
        ensures line { Steps (so_far self.old (scanning slot (Some cursor))) (so_far self.new (scanning slot result)) 0 false }
    {
        self.heap.soundness();
        let target = self.heap.target(cursor);
        let next = self.heap.next(cursor);
        self.heap.shade(target);
        next
    }

    /// Makes the slot under scan black.
    #[inline(always)]
    fn blacken(&mut self, slot: u32)
        requires whole { Whole (so_far self.old (scanning slot None)) }
        ensures line { Steps (so_far self.old (scanning slot None)) (so_far self.new (Progress.Marking None)) 0 false }
    {
        self.heap.soundness();
        self.heap.blacken(slot);
    }

    /// Takes the first of the grey list under scan; none if there is none.
    #[inline(always)]
    fn take_grey(&mut self) -> Option<Scan>
        ensures line { IfSome result (λ scan. Steps (so_far self.old (Progress.Marking None)) (so_far self.new (Progress.Marking (Some scan))) 0 false) }
        ensures none { IfNone result ((self.old.heap.table.grey ≡ []) × (self.new ≡ self.old)) }
    {
        self.heap.soundness();
        match self.heap.pop_grey() {
            None => None,
            Some(slot) => {
                let cursor = self.heap.first(slot);
                Some(Scan { slot, cursor })
            }
        }
    }

    /// Frees a parked slot's first cell, or the slot if it has none; true if it freed the slot.
    fn reclaim(&mut self, at: u32) -> bool
        requires white { mark_at self.old.heap at ≡ Has Colour.White }
        requires inside { at < length self.old.heap.table.slots }
        ensures line { Steps (so_far self.old (Progress.Sweeping at)) (so_far self.new (Progress.Sweeping (at + cond result 1 0))) (cond result 1 0) false }
    {
        self.heap.soundness();
        if self.heap.strip_one_cell(at) {
            return false;
        }
        self.heap.free_slot(at);
        true
    }

    /// Shades the pending target of the least seat that has a white one; false if there is none.
    fn shade_pending(&mut self) -> bool
        requires none_grey { self.old.heap.table.grey ≡ [] }
        requires whole { Whole (so_far self.old (Progress.Marking None)) }
        ensures line { OnTrue result (Steps (so_far self.old (Progress.Marking None)) (so_far self.new (Progress.Marking None)) 0 false) }
        ensures none { OnFalse result (NoneWhite self.old × (self.new ≡ self.old)) }
    {
        match self.white_target() {
            None => false,
            Some(slot) => {
                self.heap.shade(slot);
                true
            }
        }
    }

    /// The pending target of the least seat that has a white one.
    fn white_target(&self) -> Option<u32>
        requires whole { Whole (so_far self.now (Progress.Marking None)) }
        ensures { MatchOption result (NoneWhite self.now) (ShadesFirst self.now) }
    {
        for seat in 0..self.roots.targets.len() {
            if let Some(root) = self.roots.targets[seat] {
                if let Some(Colour::White) = self.heap.colour(root.slot) {
                    return Some(root.slot);
                }
            }
        }
        None
    }

    /// Starts a cycle: shades all agents from the last seat's to the first's, and then all principals likewise.
    fn start(&mut self)
        requires whole { Whole (so_far self.old Progress.Idle) }
        ensures line { Steps (so_far self.old Progress.Idle) (so_far self.new (Progress.Marking None)) 0 false }
    {
        self.shade_others();
    }

    /// Shades the principals and the agents, from the last agent on.
    fn shade_others(&mut self)
        requires within { AreWithin (other_slots self.old.roots) self.old.heap.table }
        ensures step { self.new ≡ with_shaded self.old (other_slots self.old.roots) }
    {
        let mut left = self.roots.principals.len() + self.roots.agents.len();
        while left > 0 {
            left -= 1;
            self.shade_other(left);
        }
    }

    /// Shades the root at an index of these, if there is one.
    fn shade_other(&mut self, index: usize)
        requires index { index < length (other_slots self.old.roots) }
        requires within { AreWithin (other_slots self.old.roots) self.old.heap.table }
        ensures step { self.new ≡ with_shaded self.old (get_or (other_slots self.old.roots) index None ∷ []) }
    {
        match self.roots.other(index) {
            None => {}
            Some(root) => self.heap.shade(root.slot),
        }
    }

    /// One step of the collector.
    #[inline(always)]
    pub fn collect(&mut self) -> Note
        requires whole { Whole self.old }
        ensures line { Steps self.old self.new result.freed result.ended }
        ensures phase { result.phase ≡ phase_of self.new.progress }
    {
        match self.progress.get() {
            Progress::Idle => {
                self.start();
                self.come_to(Progress::Marking(None), 0)
            }
            Progress::Marking(Some(scan)) => {
                let next = self.scan(scan);
                self.come_to(Progress::Marking(next), 0)
            }
            Progress::Marking(None) => {
                let next = self.mark_next();
                self.come_to(next, 0)
            }
            Progress::Sweeping(at) => self.sweep(at),
        }
    }

    /// Stores how far a step that ended no cycle has led, and says what it did.
    #[inline(always)]
    fn come_to(&mut self, progress: Progress, freed: u64) -> Note
        ensures machine { self.new ≡ so_far self.old progress }
        ensures note { result ≡ record { freed = freed; phase = phase_of progress; ended = false } }
    {
        self.progress = PackedProgress::of(progress);
        Note {
            phase: progress.phase(),
            freed,
            ended: false,
        }
    }

    /// The step of the marking phase when a slot is under scan: returns what is then under scan.
    #[inline(always)]
    fn scan(&mut self, scan: Scan) -> Option<Scan>
        requires whole { Whole (so_far self.old (Progress.Marking (Some scan))) }
        ensures line { Steps (so_far self.old (Progress.Marking (Some scan))) (so_far self.new (Progress.Marking result)) 0 false }
    {
        match scan.cursor {
            Some(cell) => Some(Scan {
                slot: scan.slot,
                cursor: self.scan_cell(scan.slot, cell),
            }),
            None => {
                self.blacken(scan.slot);
                None
            }
        }
    }

    /// The step of the marking phase when no slot is under scan. If there is neither a grey slot nor a white target,
    /// all white slots are parked: the sweep begins.
    fn mark_next(&mut self) -> Progress
        requires whole { Whole (so_far self.old (Progress.Marking None)) }
        ensures line { Steps (so_far self.old (Progress.Marking None)) (so_far self.new result) 0 false }
    {
        match self.take_grey() {
            Some(scan) => Progress::Marking(Some(scan)),
            None if self.shade_pending() => Progress::Marking(None),
            None => Progress::Sweeping(0),
        }
    }

    /// The step of the sweep phase.
    #[inline(always)]
    fn sweep(&mut self, at: u32) -> Note
        requires at { self.old.progress ≡ Progress.Sweeping at }
        requires whole { Whole self.old }
        ensures line { Steps self.old self.new result.freed result.ended }
        ensures phase { result.phase ≡ phase_of self.new.progress }
    {
        self.heap.soundness();
        if at >= self.heap.len() {
            self.progress = PackedProgress::of(Progress::Idle);
            return Note {
                phase: Phase::Idle,
                freed: 0,
                ended: true,
            };
        }
        let (next, freed) = self.sweep_slot(at);
        self.come_to(Progress::Sweeping(next), freed)
    }

    /// Sweeps a slot: a free one is passed, a black one becomes white, and a parked one loses a cell, or is freed if it
    /// has none. Returns the slot that the sweep is then before, and how many slots it freed.
    #[inline(always)]
    fn sweep_slot(&mut self, at: u32) -> (u32, u64)
        requires inside { at < length self.old.heap.table.slots }
        requires size { length self.old.heap.table.slots ≤ MAX_SLOTS }
        requires whole { Whole (so_far self.old (Progress.Sweeping at)) }
        ensures line { Steps (so_far self.old (Progress.Sweeping at)) (so_far self.new (Progress.Sweeping result.0)) result.1 false }
    {
        match self.heap.colour(at) {
            None => (at + 1, 0),
            Some(Colour::Grey) => unreachable!(),
            Some(Colour::Black) => {
                self.heap.whiten(at);
                (at + 1, 0)
            }
            Some(Colour::White) => {
                if self.reclaim(at) {
                    (at + 1, 1)
                } else {
                    (at, 0)
                }
            }
        }
    }

    /// All steps up to and including the first that ends a cycle: how many slots they freed, and how many steps there
    /// were. They are those that `collect` makes, but how far they have led is stored only at the end.
    pub fn cycle(&mut self) -> Swept
        requires whole { Whole self.old }
        ensures cycled { Cycled (stored self.old) (stored self.new) result.freed result.steps }
        ensures whole { Whole self.new }
    {
        self.heap.soundness();
        let (at, marked) = self.mark();
        let swept = self.sweep_rest(at);
        self.progress = PackedProgress::of(Progress::Idle);
        Swept {
            freed: swept.freed,
            steps: marked + swept.steps,
        }
    }

    /// The steps that are left before the sweep: the slot that the sweep is then before, and how many steps there were.
    fn mark(&mut self) -> (u32, u64)
        requires whole { Whole self.old }
        requires few { steps_left self.old ≤ MOST_STEPS }
        ensures went { Went self.old (so_far self.new (Progress.Sweeping result.0)) 0 result.1 }
    {
        self.heap.soundness();
        match self.progress.get() {
            Progress::Idle => {
                self.start();
                self.heap.soundness();
                (0, 1 + self.mark_rest())
            }
            Progress::Marking(None) => (0, self.mark_rest()),
            Progress::Marking(Some(scan)) => {
                let scanned = self.scan_rest(scan);
                (0, scanned + self.mark_rest())
            }
            Progress::Sweeping(at) => (at, 0),
        }
    }

    /// The steps of the marking phase that are left when no slot is under scan; returns how many there were.
    fn mark_rest(&mut self) -> u64
        requires whole { Whole (so_far self.old (Progress.Marking None)) }
        requires few { steps_left (so_far self.old (Progress.Marking None)) ≤ MOST_STEPS }
        ensures went { Went (so_far self.old (Progress.Marking None)) (so_far self.new (Progress.Sweeping 0)) 0 result }
    {
        let mut steps = 0;
        while let Some(more) = self.mark_more() {
            steps += more;
        }
        self.heap.soundness();
        steps + 1
    }

    /// Scans the first slot of the grey list whole, or, if there is none, shades a pending target; returns how many
    /// steps that took. None if there is neither, so that the next step begins the sweep.
    #[inline(always)]
    fn mark_more(&mut self) -> Option<u64>
        requires whole { Whole (so_far self.old (Progress.Marking None)) }
        requires few { steps_left (so_far self.old (Progress.Marking None)) ≤ MOST_STEPS }
        ensures went { IfSome result (λ steps. (1 ≤ steps) × Went (so_far self.old (Progress.Marking None)) (so_far self.new (Progress.Marking None)) 0 steps) }
        ensures line { IfNone result (Steps (so_far self.old (Progress.Marking None)) (so_far self.new (Progress.Sweeping 0)) 0 false) }
        ensures heap { IsHeap self.old.heap }
    {
        self.heap.soundness();
        match self.take_grey() {
            Some(scan) => {
                self.heap.soundness();
                Some(1 + self.scan_rest(scan))
            }
            None => {
                if self.shade_pending() {
                    self.heap.soundness();
                    Some(1)
                } else {
                    None
                }
            }
        }
    }

    /// Scans what is left of a list, and makes its slot black; returns how many steps there were.
    #[inline(always)]
    fn scan_rest(&mut self, scan: Scan) -> u64
        requires whole { Whole (so_far self.old (Progress.Marking (Some scan))) }
        requires few { steps_left (so_far self.old (Progress.Marking (Some scan))) ≤ MOST_STEPS }
        ensures went { Went (so_far self.old (Progress.Marking (Some scan))) (so_far self.new (Progress.Marking None)) 0 result }
    {
        let mut cursor = scan.cursor;
        let mut steps = 0;
        self.heap.soundness();
        while let Some(cell) = cursor {
            cursor = self.scan_cell(scan.slot, cell);
            steps += 1;
            self.heap.soundness();
        }
        self.blacken(scan.slot);
        self.heap.soundness();
        steps + 1
    }

    /// Sweeps the slots from this one on, and ends the cycle.
    fn sweep_rest(&mut self, from: u32) -> Swept
        requires whole { Whole (so_far self.old (Progress.Sweeping from)) }
        requires few { steps_left (so_far self.old (Progress.Sweeping from)) ≤ MOST_STEPS }
        ensures cycled { Cycled (stored (so_far self.old (Progress.Sweeping from))) (stored (so_far self.new Progress.Idle)) result.freed result.steps }
        ensures few { result.steps ≤ steps_left (so_far self.old (Progress.Sweeping from)) }
        ensures whole { Whole (so_far self.new Progress.Idle) }
    {
        let mut at = from;
        let mut freed = 0;
        let mut steps = 0;
        self.heap.soundness();
        while at < self.heap.len() {
            let (next, gone) = self.sweep_slot(at);
            at = next;
            freed += gone;
            steps += 1;
            self.heap.soundness();
        }
        Swept {
            freed,
            steps: steps + 1,
        }
    }
}

impl Progress {
    /// The phase that others see.
    pub fn phase(self) -> Phase
        ensures { result ≡ phase_of self }
    {
        match self {
            Progress::Idle => Phase::Idle,
            Progress::Marking(_) => Phase::Mark,
            Progress::Sweeping(_) => Phase::Sweep,
        }
    }
}
