//! The command line if memory runs out: the error says so, and the words that are read again ask for what they do; and
//! a picture, which is drawn again. tests/faults/growths.py makes each allocation of a test fail in turn.

use super::CONFIG;
use super::modes::{NONE, SERVER, numbers_in};
use crate::{Mode, mode};
use clap::Error;
use clap::error::ErrorKind;
use std::alloc::{AllocError, Global};
use std::io::Print;
use tg_draw::draw;
use tg_talk::open_vault;
use tg_vault::{Key, Vault};

/// What the words of a server ask for.
fn asked(alloc: Global) -> Result<Mode, Error> {
    mode(alloc, SERVER)
}

/// Whether that is the server, with four workers, one connection and one round.
fn is_the_server(found: &Result<Mode, Error>) -> bool {
    numbers_in(found, "127.0.0.1:0") == Some((4, 1, 1, NONE))
}

/// Whether the words are refused for lack of memory.
fn is_in_want(found: &Result<Mode, Error>) -> bool {
    match found {
        Ok(_) => false,
        Err(error) => error.kind() == ErrorKind::OutOfMemory,
    }
}

#[test]
fn growth_refused_in_mode(rt: HostRuntime) {
    let found = asked(rt.alloc());
    if is_in_want(&found) {
        let _ = rt.println("no memory");
        assert!(rt; is_the_server(&asked(rt.alloc())));
    } else {
        assert!(rt; is_the_server(&found));
    }
}

/// The picture of alice alone.
const ALICE: &[u8] =
    b"digraph { graph [labelloc=t,labeljust=l,label=\"hi\\lphase idle, free slots 1023, free cells 16384\\l\"]; node [shape=circle,width=1]; 1 [label=\"1 alice\\nwhite\",class=\"subject white\",style=filled,fillcolor=skyblue,penwidth=1]; }\n";

/// The picture of a vault, drawn again if memory runs out.
fn drawn_again(rt: &impl Print, alloc: Global, vault: &Vault) -> Result<Vec<u8>, AllocError> {
    match draw(alloc, vault, b"hi\n") {
        Ok(picture) => Ok(picture),
        Err(_) => {
            let _ = rt.println("no memory");
            draw(alloc, vault, b"hi\n")
        }
    }
}

#[test]
fn growth_refused_in_a_picture(rt: HostRuntime) -> Result<(), AllocError> {
    let Ok(vault) = open_vault(rt.alloc(), Key::FIXED, CONFIG) else {
        return Err(AllocError);
    };
    let picture = drawn_again(&rt, rt.alloc(), &vault)?;
    assert!(rt; picture.as_slice() == ALICE);
    Ok(())
}
