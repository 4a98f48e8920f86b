//! How a connection begins, by which one of another protocol is recognised.
ghost use Rattle.std.specs.Prelude.{◌≡◌, ◌≤◌, ◌++◌, nat_eq, take};
ghost use Rattle.std.specs.List.{list_any, starts_with};
ghost use Rattle.tg_serve.specs.Inner.Beginning.{begins_otherwise};

use std::marker::Model;

/// What other protocols begin with that a web page can make a browser speak to this port: a request of HTTP, a
/// handshake of TLS, and a request of STUN or TURN.
const OTHER_PROTOCOLS: [&[u8]; 13] = [
    b"GET ",
    b"POST ",
    b"PUT ",
    b"HEAD ",
    b"OPTIONS ",
    b"DELETE ",
    b"PATCH ",
    b"CONNECT ",
    b"TRACE ",
    b"PRI ",
    b"\x16\x03",
    b"\x00\x01",
    b"\x00\x03",
];

/// The length of the longest of them.
const LONGEST: usize = 8;

/// Whether these bytes begin as another protocol does.
fn begins_otherwise(bytes: &[u8]) -> bool
    ensures { result ≡ begins_otherwise bytes.now }
{
    begins_with_one(bytes, &OTHER_PROTOCOLS)
}

/// Whether these bytes begin with one of the starts.
fn begins_with_one(bytes: &[u8], starts: &[&[u8]]) -> bool
    ensures { result ≡ list_any (λ start. starts_with nat_eq bytes.now start.now) starts.now }
{
    starts.iter().any(|start| bytes.starts_with(start))
}

/// Puts bytes behind so many, as far as there is room; returns how many there are then.
fn put_behind(bytes: &mut [u8; LONGEST], count: usize, more: &[u8]) -> usize
    requires { count ≤ 8 }
    ensures within { result ≤ 8 }
    ensures filled { take result bytes.new ≡ take 8 (take count bytes.old ++ more.now) }
{
    let taken = more.len().min(LONGEST - count);
    let end = count + taken;
    bytes[count..end].copy_from_slice(&more[..taken]);
    end
}

/// The first bytes of a connection, up to eight.
#[derive(Drop)]
pub(crate) struct Beginning {
    bytes: [u8; LONGEST],
    count: usize,
    /// Whether they begin as another protocol does.
    is_other: bool,
}

impl Model for Beginning {
    ghost use Rattle.std.specs.Prelude.{◌≡◌, ◌≤◌, ℕ, List, take};
    ghost use Rattle.tg_serve.specs.Inner.Beginning.{begins_otherwise};

    ghost Value = { List ℕ };

    ghost view = { λ b. take b.count b.bytes };

    ghost invariant = { λ b. (b.count ≤ 8) × (b.is_other ≡ begins_otherwise (take b.count b.bytes)) };
}

impl Beginning {
    ghost use Rattle.std.specs.Prelude.{◌≡◌, [], ◌++◌, take};
    ghost use Rattle.tg_serve.specs.Inner.Beginning.{begins_otherwise};

    /// No bytes yet.
    pub(crate) fn new() -> Beginning
        ensures { result ≡ [] }
    {
        Beginning {
            bytes: [0; LONGEST],
            count: 0,
            is_other: false,
        }
    }

    /// Takes note of bytes behind those that came before; returns whether all of them begin as another protocol does.
    pub(crate) fn note(&mut self, more: &[u8]) -> bool
        ensures first { self.new ≡ take 8 (self.old ++ more.now) }
        ensures told { result ≡ begins_otherwise (self.old ++ more.now) }
    {
        if self.count < LONGEST {
            self.count = put_behind(&mut self.bytes, self.count, more);
            self.is_other = begins_otherwise(&self.bytes[..self.count]);
        }
        self.is_other
    }
}
