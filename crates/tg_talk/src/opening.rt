//! The vault that a configuration line opens.
ghost use Rattle.std.specs.Prelude.{◌≡◌, IfOk, IfErr};
ghost use Rattle.tg_talk.specs.Promise.Opening.{OpensVault, RefusesOpening};

use std::alloc::Global;
use tg_vault::{Key, Vault};
use tg_wire::{error_line, open_fault_line, read_config};

/// The vault that a configuration line opens, in which edges are found under the key, or the line of its refusal: that
/// of the line's own fault, of the first fault of the configuration, or `out of memory`.
pub fn open_vault(alloc: Global, key: Key, line: &[u8]) -> Result<Vault, &'static [u8]>
    ensures ok { IfOk result (OpensVault line.now) }
    ensures key { IfOk result (λ vault. vault.store.key ≡ key) }
    ensures err { IfErr result (λ text. RefusesOpening line.now text.now) }
{
    match read_config(alloc, line) {
        Err(fault) => Err(error_line(fault)),
        Ok(config) => match Vault::with_key(alloc, key, config) {
            Err(fault) => Err(open_fault_line(fault)),
            Ok(vault) => {
                vault.soundness();
                Ok(vault)
            }
        },
    }
}
