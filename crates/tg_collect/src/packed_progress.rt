//! The collector's progress as it lies in memory.
ghost use Rattle.std.specs.Prelude.{◌≡◌};

use crate::machine::{Progress, Scan};
use std::marker::Model;

// One tag and two words, which a step reads and writes whole.
#[derive(Clone, Copy, Drop)]
enum Flat {
    Idle,
    Choosing,
    Scanning { slot: u32, cell: u32 },
    Ending { slot: u32 },
    Sweeping { at: u32 },
}

/// The collector's progress, packed. Contracts see it as a `Progress`.
#[derive(Drop)]
pub(crate) struct PackedProgress {
    flat: Flat,
}

impl Model for PackedProgress {
    ghost use Rattle.tg_collect.specs.declared.machine.Progress.{Progress};
    ghost use Rattle.tg_collect.specs.Inner.PackedProgress.{unpacked};

    ghost Value = { Progress };

    ghost view = { unpacked };
}

impl PackedProgress {
    /// What represents a progress.
    pub fn of(progress: Progress) -> PackedProgress
        ensures { result ≡ progress }
    {
        let flat = match progress {
            Progress::Idle => Flat::Idle,
            Progress::Marking(None) => Flat::Choosing,
            Progress::Marking(Some(scan)) => match scan.cursor {
                Some(cell) => Flat::Scanning {
                    slot: scan.slot,
                    cell,
                },
                None => Flat::Ending { slot: scan.slot },
            },
            Progress::Sweeping(at) => Flat::Sweeping { at },
        };
        PackedProgress { flat }
    }

    /// The progress that it represents.
    pub fn get(&self) -> Progress
        ensures { result ≡ self.now }
    {
        match self.flat {
            Flat::Idle => Progress::Idle,
            Flat::Choosing => Progress::Marking(None),
            Flat::Scanning { slot, cell } => Progress::Marking(Some(Scan {
                slot,
                cursor: Some(cell),
            })),
            Flat::Ending { slot } => Progress::Marking(Some(Scan { slot, cursor: None })),
            Flat::Sweeping { at } => Progress::Sweeping(at),
        }
    }
}
