//! Words of the command line, and the modes that they ask for.

use crate::reading::bytes_in;
use crate::{End, Mode, Operating, Pair, Question, Request, VertexName, mode};
use clap::Error;
use std::alloc::Global;
use tg_rights::Rights;

/// Words that ask for a server, without a number of workers.
pub(crate) const SERVER: &[&str] = &[
    "tgdoc",
    "serve",
    "--listen",
    "127.0.0.1:0",
    "--connections",
    "1",
];

/// Workers, connections, those of a round, and the bounds.
pub(crate) type Numbers = (u64, u64, u64, Operating);

/// No bounds.
pub(crate) const NONE: Operating = Operating {
    patience: None,
    memory: None,
    is_endless: false,
    is_attended: false,
    notifies: false,
    keeps_history: false,
};

/// The numbers that are asked for; none if no server on this address is.
pub(crate) fn numbers_in(found: &Result<Mode, Error>, address: &str) -> Option<Numbers> {
    match found {
        Ok(
            Mode::Serve {
                listen,
                workers,
                connections,
                round,
                operation,
            },
        ) if listen.as_str() == address => {
            Some((*workers, *connections, *round, operation.operating))
        }
        Ok(_) => None,
        Err(_) => None,
    }
}

/// The numbers that words ask for; none if they ask for no server on this address.
fn numbers_of(alloc: Global, words: &[&str], address: &str) -> Option<Numbers> {
    numbers_in(&mode(alloc, words), address)
}

/// The numbers if these words follow `tgdoc serve --listen 127.0.0.1:0`.
fn served(alloc: Global, further: [&str; 4]) -> Option<Numbers> {
    let [first, second, third, fourth] = further;
    let address = "127.0.0.1:0";
    numbers_of(
        alloc,
        &[
            "tgdoc", "serve", "--listen", address, first, second, third, fourth,
        ],
        address,
    )
}

#[test]
fn the_words_run_and_audit_are_modes(rt: HostRuntime) {
    assert!(rt; matches!(&mode(rt.alloc(), &["tgdoc", "run"]), Ok(Mode::Run)));
    assert!(rt; matches!(&mode(rt.alloc(), &["tgdoc", "audit"]), Ok(Mode::Audit)));
    assert!(rt; matches!(&mode(rt.alloc(), &["tgdoc", "steal"]), Err(_)));
}

/// Whether these words ask for pictures: after each line, or only after the last one.
fn draws(alloc: Global, words: &[&str]) -> Option<bool> {
    match mode(alloc, words) {
        Ok(Mode::Draw { each }) => Some(each),
        _ => None,
    }
}

#[test]
fn the_last_vault_is_drawn_or_each(rt: HostRuntime) {
    assert!(rt; draws(rt.alloc(), &["tgdoc", "draw"]) == Some(false));
    assert!(rt; draws(rt.alloc(), &["tgdoc", "draw", "--each"]) == Some(true));
    assert!(rt; draws(rt.alloc(), &["tgdoc", "draw", "--all"]).is_none());
    assert!(rt; draws(rt.alloc(), &["tgdoc", "run", "--each"]).is_none());
}

/// Whether the word names bob.
fn is_bob(name: &VertexName) -> bool {
    match name {
        VertexName::Principal(name) => name.get() == "bob",
        VertexName::Serial(_) => false,
    }
}

/// Whether the word names vertex 3.
fn is_third(name: &VertexName) -> bool {
    match name {
        VertexName::Principal(_) => false,
        VertexName::Serial(serial) => *serial == 3,
    }
}

/// Whether bob is asked about, and vertex 3, and both reading and writing.
fn is_bobs(pair: &Pair) -> bool {
    let are_named = is_bob(&pair.from) && is_third(&pair.to);
    are_named && pair.rights == Rights::read().union(Rights::write())
}

/// Whether these words ask that question: for the steps alone, or for all.
fn asks(alloc: Global, words: &[&str]) -> Option<bool> {
    match &mode(alloc, words) {
        Ok(
            Mode::Share {
                question: Question::Pair(pair),
            },
        ) if is_bobs(pair) => Some(pair.steps),
        Ok(_) => None,
        Err(_) => None,
    }
}

#[test]
fn a_question_has_its_words(rt: HostRuntime) {
    let words = &[
        "tgdoc", "share", "--to", "3", "--from", "bob", "--rights", "wr", "--steps",
    ];
    assert!(rt; asks(rt.alloc(), words) == Some(true));
    assert!(rt; asks(rt.alloc(), &words[..8]) == Some(false));
    assert!(rt; asks(rt.alloc(), &words[..6]).is_none());
}

/// Which end a lookup of reading has that these words ask for, whether bob is named there, and how much may be tried.
fn looks_up(alloc: Global, words: &[&str]) -> Option<(End, bool, usize)> {
    match &mode(alloc, words) {
        Ok(
            Mode::Share {
                question: Question::Lookup(lookup),
            },
        ) if lookup.rights == Rights::read() => {
            Some((lookup.end, is_bob(&lookup.vertex), lookup.most))
        }
        Ok(_) => None,
        Err(_) => None,
    }
}

#[test]
fn a_lookup_has_its_words(rt: HostRuntime) {
    let who = &[
        "tgdoc", "share", "--rights", "r", "--to", "3", "--most", "7",
    ];
    assert!(rt; looks_up(rt.alloc(), who) == Some((End::To, false, 7)));
    assert!(rt; looks_up(rt.alloc(), &who[..6]) == Some((End::To, false, 10_000)));
    let serial = &["tgdoc", "share", "--rights", "r", "--to", "+3"];
    assert!(rt; looks_up(rt.alloc(), serial).is_none());
    let most = &[
        "tgdoc", "share", "--rights", "r", "--to", "3", "--most", "+7",
    ];
    assert!(rt; looks_up(rt.alloc(), most).is_none());
    let what = &[
        "tgdoc", "share", "--rights", "r", "--from", "bob", "--steps",
    ];
    assert!(rt; looks_up(rt.alloc(), &what[..6]) == Some((End::From, true, 1_000_000)));
    assert!(rt; looks_up(rt.alloc(), what).is_none());
}

#[test]
fn four_workers_serve_where_no_number_is_given(rt: HostRuntime) {
    assert_eq!(rt;
        numbers_of(rt.alloc(), SERVER, "127.0.0.1:0"),
        Some((4, 1, 1, NONE))
    );
}

/// What follows `tgdoc serve --listen 127.0.0.1:0`, and the numbers that it asks for.
const NUMBERS: &[([&str; 4], Option<Numbers>)] = &[
    (
        ["--workers", "1", "--connections", "1"],
        Some((1, 1, 1, NONE)),
    ),
    (
        ["--connections", "1000000", "--workers", "63"],
        Some((63, 1_000_000, 1_000_000, NONE)),
    ),
    (
        ["--connections", "5", "--round", "1"],
        Some((4, 5, 1, NONE)),
    ),
    (
        ["--round", "1000000", "--connections", "5"],
        Some((4, 5, 1_000_000, NONE)),
    ),
    (
        ["--patience", "1", "--connections", "1"],
        Some((
            4,
            1,
            1,
            Operating {
                patience: Some(1),
                ..NONE
            },
        )),
    ),
    (
        ["--connections", "1", "--patience", "86400"],
        Some((
            4,
            1,
            1,
            Operating {
                patience: Some(86_400),
                ..NONE
            },
        )),
    ),
    (
        ["--connections", "1", "--memory", "64k"],
        Some((
            4,
            1,
            1,
            Operating {
                memory: Some(65_536),
                ..NONE
            },
        )),
    ),
    (
        ["--control", "/run/tgdoc", "--round", "7"],
        Some((
            4,
            1_000_000,
            7,
            Operating {
                is_endless: true,
                is_attended: true,
                ..NONE
            },
        )),
    ),
    (
        ["--connections", "5", "--history", "steps"],
        Some((
            4,
            5,
            5,
            Operating {
                keeps_history: true,
                ..NONE
            },
        )),
    ),
    (["--round", "7", "--history", "steps"], None),
    (["--connections", "1", "--memory", "0"], None),
    (["--connections", "1", "--memory", "1025g"], None),
    (["--connections", "1", "--memory", "1.5g"], None),
    (["--connections", "1", "--round", "0"], None),
    (["--connections", "1", "--round", "1000001"], None),
    (["--connections", "1", "--patience", "0"], None),
    (["--connections", "1", "--patience", "86401"], None),
    (["--workers", "0", "--connections", "1"], None),
    (["--workers", "64", "--connections", "1"], None),
    (["--workers", "1", "--connections", "0"], None),
    (["--workers", "1", "--connections", "1000001"], None),
    (["--workers", "+1", "--connections", "1"], None),
    (["--workers", "1", "--connections", "+1"], None),
    (["--connections", "1", "--round", "+1"], None),
    (["--connections", "1", "--patience", "+5"], None),
    (["--connections", "1", "--memory", "+5m"], None),
];

#[test]
fn a_server_has_its_numbers_in_their_ranges(rt: HostRuntime) {
    for (further, numbers) in NUMBERS {
        assert_eq!(rt; served(rt.alloc(), *further), *numbers);
    }
}

/// Numbers of bytes as they are written, and what they are.
const BYTES: &[(&str, Option<u64>)] = &[
    ("1", Some(1)),
    ("4096", Some(4_096)),
    ("1k", Some(1_024)),
    ("3m", Some(3_145_728)),
    ("1024g", Some(1_099_511_627_776)),
    ("18446744073709551615", Some(18_446_744_073_709_551_615)),
    ("18446744073709551616", None),
    ("18446744073709551615k", None),
    ("", None),
    ("k", None),
    ("1kk", None),
    ("1K", None),
    ("-1", None),
    ("+1", None),
    ("+1m", None),
    ("1 k", None),
];

#[test]
fn bytes_are_counted_in_units(rt: HostRuntime) {
    for (text, bytes) in BYTES {
        assert_eq!(rt; bytes_in(*text), *bytes);
    }
}

/// What these words ask of a server at a socket that is called so.
fn asked(alloc: Global, words: &[&str], socket: &str) -> Option<Request> {
    match &mode(alloc, words) {
        Ok(Mode::Control { path, request }) if path.as_str() == socket => Some(*request),
        Ok(_) => None,
        Err(_) => None,
    }
}

/// What follows `tgdoc control s`, and what it asks.
const ASKED: &[(&[&str], Option<Request>)] = &[
    (
        &["tgdoc", "control", "s", "status"],
        Some(Request::Status { watch: None }),
    ),
    (
        &["tgdoc", "control", "s", "status", "--watch", "2"],
        Some(Request::Status { watch: Some(2) }),
    ),
    (
        &["tgdoc", "control", "s", "stop"],
        Some(Request::Stop { within: 10 }),
    ),
    (
        &["tgdoc", "control", "--within", "0", "s", "end-round"],
        Some(Request::EndRound { within: 0 }),
    ),
    (&["tgdoc", "control", "s", "stop", "--watch", "2"], None),
    (&["tgdoc", "control", "s", "status", "--within", "2"], None),
    (&["tgdoc", "control", "s", "stop", "--within", "+2"], None),
    (&["tgdoc", "control", "s", "status", "--watch", "+2"], None),
    (&["tgdoc", "control", "s", "shutdown"], None),
    (&["tgdoc", "control", "s"], None),
];

#[test]
fn a_server_is_asked_at_its_socket(rt: HostRuntime) {
    for (words, request) in ASKED {
        assert!(rt; asked(rt.alloc(), words, "s") == *request);
    }
}
