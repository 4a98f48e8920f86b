//! How much room a vault has left.
ghost use Rattle.tg_vault.specs.Promise.Room.{IsRoom};

use crate::vault::Vault;

/// The slots and the cells of a vault, and how many of them are free.
#[derive(Clone, Copy, PartialEq, Eq, Debug)]
pub struct Room {
    pub slots: u64,
    pub free_slots: u64,
    pub cells: u64,
    pub free_cells: u64,
}

impl Vault {
    /// How much room the vault has left. What nobody can reach takes up room until the collector frees it. Allocates
    /// nothing.
    pub fn room(&self) -> Room
        ensures { IsRoom self.now result }
    {
        Room {
            slots: self.slots,
            free_slots: u64::from(self.state.store.free_slots()),
            cells: self.cells,
            free_cells: u64::from(self.state.store.free_cells()),
        }
    }
}
