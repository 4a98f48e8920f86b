//! The active principals.
ghost use Rattle.std.specs.Prelude.{◌≡◌};
ghost use Rattle.tg_graph.specs.Promise.Protection.{has_name, has_serial, serial_of};

use tg_rights::Name;

/// An active principal: its name, and the serial of its vertex.
#[derive(Debug, Drop)]
pub struct Member {
    pub name: Name,
    pub serial: u64,
}

/// The serial of the first of the principals that has the name; `None` if nobody has it. Allocates nothing.
pub fn serial_of(members: &[Member], name: &str) -> Option<u64>
    ensures { result ≡ serial_of members.now name.now }
{
    for member in members {
        if member.name.get() == name {
            return Some(member.serial);
        }
    }
    None
}

/// Whether one of the principals has the name.
pub(crate) fn has_name(members: &[Member], name: &Name) -> bool
    ensures { result ≡ has_name members.now name.now }
{
    members.iter().any(|member| member.name == *name)
}

/// Whether one of the principals has the serial.
pub(crate) fn has_serial(members: &[Member], serial: u64) -> bool
    ensures { result ≡ has_serial members.now serial }
{
    members.iter().any(|member| member.serial == serial)
}
