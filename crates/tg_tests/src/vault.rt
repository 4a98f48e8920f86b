//! What no clause says: that calls succeed when there is memory, and the results of worked cases, with every sum of the
//! collector's steps as it was worked out by hand.
use crate::cases::{
    Ask, Asked, Opening, TAKING, TWO, Want, command, config, is_cause, is_reply, rights_of, rule_of,
};
use crate::vault_cases::CASES;
use std::alloc::{AllocError, Global};
use std::process::Abort;
use tg_collect::{Note, Phase};
use tg_graph::OpenFault;
use tg_rights::{Command, Outcome, Reply, Rule, Text};
use tg_vault::{AskFault, Key, SeatFault, Swept, Vault};

/// One step of a case, with its answer.
#[derive(Clone, Copy)]
pub enum Line {
    Hello(u64, &'static str, Result<u64, SeatFault>),
    Bye(u64, Result<(), SeatFault>),
    /// The seat has finished its target of this serial.
    Shaded(u64, u64),
    Shade(u64, Result<Option<u64>, SeatFault>),
    Ask(u64, Ask, Want),
    /// The seat creates a document with these rights, which gets this serial, and has finished it.
    Make(u64, &'static str, u64),
    /// A command that is not entered.
    Refused(u64, Ask, AskFault),
    /// A cycle that frees this many slots in this many steps.
    Cycle(u64, u64),
    /// Collector steps, each with its note: m and s are the phase after it, f a step of the sweep that freed a slot, e
    /// the end of a cycle.
    Collect(&'static str),
}

/// Lines over the vault of a configuration.
#[derive(Clone, Copy)]
pub struct Case {
    pub opening: Opening,
    pub lines: &'static [Line],
}

pub const ALICE: Line = Line::Hello(0, "alice", Ok(1));

pub const BOB: Line = Line::Hello(1, "bob", Ok(2));

/// Whether the seat's command gets this reply.
fn asks(alloc: Global, vault: &mut Vault, seat: u64, asked: Asked) -> Result<bool, AllocError> {
    let (ask, want) = asked;
    match vault.command(seat, command(alloc, ask)?) {
        Ok(entered) => Ok(is_reply(&entered.1, rule_of(ask), want)),
        Err(AskFault::OutOfMemory) => Err(AllocError),
        Err(_) => Ok(false),
    }
}

/// Whether the seat creates a document with these rights, which gets this serial, and shades it.
fn makes(
    alloc: Global,
    vault: &mut Vault,
    seat: u64,
    letters: &'static str,
    serial: u64,
) -> Result<bool, AllocError> {
    let asked = (Ask::Document(letters), Want::Created(serial));
    Ok(asks(alloc, vault, seat, asked)? && vault.shade(seat) == Ok(Some(serial)))
}

/// Whether the seat's command is not entered for this fault.
fn is_not_entered(
    alloc: Global,
    vault: &mut Vault,
    seat: u64,
    ask: Ask,
    fault: AskFault,
) -> Result<bool, AllocError> {
    Ok(vault.command(seat, command(alloc, ask)?).err() == Some(fault))
}

/// The note of a letter.
fn note_of(letter: u8) -> Note {
    let (phase, freed, ended) = match letter {
        b'm' => (Phase::Mark, 0, false),
        b's' => (Phase::Sweep, 0, false),
        b'f' => (Phase::Sweep, 1, false),
        _ => (Phase::Idle, 0, true),
    };
    Note {
        phase,
        freed,
        ended,
    }
}

/// Whether collector steps have these notes.
fn collects(vault: &mut Vault, wanted: &str) -> bool {
    for letter in wanted.as_bytes() {
        if vault.collect() != note_of(*letter) {
            return false;
        }
    }
    true
}

/// Whether the line has this answer.
pub fn answers(alloc: Global, vault: &mut Vault, line: Line) -> Result<bool, AllocError> {
    Ok(match line {
        Line::Hello(seat, name, wanted) => vault.hello(seat, name) == wanted,
        Line::Bye(seat, wanted) => vault.bye(seat) == wanted,
        Line::Shaded(seat, serial) => vault.shade(seat) == Ok(Some(serial)),
        Line::Shade(seat, wanted) => vault.shade(seat) == wanted,
        Line::Ask(seat, ask, want) => asks(alloc, vault, seat, (ask, want))?,
        Line::Make(seat, letters, serial) => makes(alloc, vault, seat, letters, serial)?,
        Line::Refused(seat, ask, fault) => is_not_entered(alloc, vault, seat, ask, fault)?,
        Line::Cycle(freed, steps) => vault.cycle() == Swept { freed, steps },
        Line::Collect(wanted) => collects(vault, wanted),
    })
}

/// The failed allocation that this fault stands for; any other fault stops the test.
pub fn only_out_of_memory(rt: &impl Abort, fault: OpenFault) -> AllocError {
    assert!(rt; fault == OpenFault::OutOfMemory);
    AllocError
}

/// The vault of this configuration.
pub fn opened(rt: &impl Abort, alloc: Global, opening: &Opening) -> Result<Vault, AllocError> {
    let config = config(alloc, opening)?;
    Vault::new(alloc, config).map_err(|fault| only_out_of_memory(rt, fault))
}

/// The lines have these answers, one after another.
pub fn lines_are_answered(
    rt: &impl Abort,
    alloc: Global,
    vault: &mut Vault,
    lines: &[Line],
) -> Result<(), AllocError> {
    for line in lines {
        assert!(rt; answers(alloc, vault, *line)?);
    }
    Ok(())
}

/// The vault with which a case ends: its lines have the answers that it says.
pub fn played(rt: &impl Abort, alloc: Global, case: &Case) -> Result<Vault, AllocError> {
    let mut vault = opened(rt, alloc, &case.opening)?;
    lines_are_answered(rt, alloc, &mut vault, case.lines)?;
    Ok(vault)
}

/// The case's lines have the answers that it says.
pub fn plays(rt: &impl Abort, alloc: Global, case: &Case) -> Result<(), AllocError> {
    let mut vault = opened(rt, alloc, &case.opening)?;
    lines_are_answered(rt, alloc, &mut vault, case.lines)
}

#[test]
fn each_case_is_answered_as_worked_out(rt: HostRuntime) -> Result<(), AllocError> {
    for case in CASES {
        plays(&rt, rt.alloc(), case)?;
    }
    Ok(())
}

/// Under this key all edges to one serial lie in one bucket of the index.
const ONE_BUCKET: Key = Key {
    owner: 0,
    serial: 0,
};

/// The case's lines have the answers that it says, under this key too.
fn plays_under(rt: &impl Abort, alloc: Global, key: Key, case: &Case) -> Result<(), AllocError> {
    let config = config(alloc, &case.opening)?;
    let mut vault = Vault::with_key(alloc, key, config).map_err(|fault| only_out_of_memory(
        rt, fault,
    ))?;
    lines_are_answered(rt, alloc, &mut vault, case.lines)
}

#[test]
fn each_case_is_answered_alike_under_another_key(rt: HostRuntime) -> Result<(), AllocError> {
    for case in CASES {
        plays_under(&rt, rt.alloc(), ONE_BUCKET, case)?;
    }
    Ok(())
}

/// Three times alice makes two documents, links one to the other and drops both, and two cycles free them. Then she
/// makes one more.
const ROUNDS: Case = Case {
    opening: Opening {
        slots: 4,
        cells: 3,
        ..TWO
    },
    lines: &[
        ALICE,
        Line::Make(0, "rg", 3),
        Line::Make(0, "rg", 4),
        Line::Ask(0, Ask::Grant("r", 4, 3), Want::Done),
        Line::Shaded(0, 4),
        Line::Ask(0, Ask::Remove("rg", 3), Want::Done),
        Line::Ask(0, Ask::Remove("rg", 4), Want::Done),
        Line::Cycle(0, 16),
        Line::Cycle(2, 12),
        Line::Make(0, "rg", 5),
        Line::Make(0, "rg", 6),
        Line::Ask(0, Ask::Grant("r", 6, 5), Want::Done),
        Line::Shaded(0, 6),
        Line::Ask(0, Ask::Remove("rg", 5), Want::Done),
        Line::Ask(0, Ask::Remove("rg", 6), Want::Done),
        Line::Cycle(0, 16),
        Line::Cycle(2, 12),
        Line::Make(0, "rg", 7),
        Line::Make(0, "rg", 8),
        Line::Ask(0, Ask::Grant("r", 8, 7), Want::Done),
        Line::Shaded(0, 8),
        Line::Ask(0, Ask::Remove("rg", 7), Want::Done),
        Line::Ask(0, Ask::Remove("rg", 8), Want::Done),
        Line::Cycle(0, 16),
        Line::Cycle(2, 12),
        Line::Ask(0, Ask::Document("r"), Want::Created(9)),
    ],
};

/// After three rounds the graph that is never collected has three edges, as many as there are cells; all cells are
/// free.
#[test]
fn cells_are_free_though_the_history_has_as_many_edges(rt: HostRuntime) -> Result<(), AllocError> {
    plays(&rt, rt.alloc(), &ROUNDS)
}

/// Configurations with two faults, and the fault that is returned.
const REFUSED: &[(Opening, OpenFault)] = &[
    (
        Opening {
            slots: 1,
            edges: &[(1, "t", 1)],
            ..TWO
        },
        OpenFault::SelfEdge,
    ),
    (Opening { slots: 1, ..TWO }, OpenFault::FewSlots),
    (
        Opening {
            edges: &[(1, "", 2), (1, "t", 3)],
            ..TWO
        },
        OpenFault::EdgeEnd,
    ),
];

/// Whether no vault has this configuration, for this fault.
fn is_refused(alloc: Global, opening: &Opening, fault: OpenFault) -> Result<bool, AllocError> {
    let config = config(alloc, opening)?;
    Ok(Vault::new(alloc, config).err() == Some(fault))
}

#[test]
fn the_first_of_two_faults_is_answered(rt: HostRuntime) -> Result<(), AllocError> {
    for (opening, fault) in REFUSED {
        assert!(rt; is_refused(rt.alloc(), opening, *fault)?);
    }
    Ok(())
}

/// Alice's read of bob is denied.
const DENIED: Case = Case {
    opening: TAKING,
    lines: &[ALICE, Line::Ask(0, Ask::Read(2), Want::Lacks(1, 2, "r"))],
};

/// Whether the vault's first entry is alice's denied read.
fn has_the_denial(vault: &Vault) -> bool {
    match vault.entry(0) {
        Some(entry) => {
            (entry.seat(), entry.actor()) == (0, 1)
                && matches!(entry.outcome(), Outcome::Denied(Rule::Read, cause)
                    if is_cause(cause, Want::Lacks(1, 2, "r")))
        }
        None => false,
    }
}

/// Whether that is the vault's one entry, and the vault returns the graph with which it began.
fn has_its_history(vault: &Vault) -> bool {
    vault.count() == 1
        && has_the_denial(vault)
        && vault.entry(1).is_none()
        && vault.opening().rights(1, 2) == rights_of("t")
}

#[test]
fn the_history_has_each_command(rt: HostRuntime) -> Result<(), AllocError> {
    assert!(rt; has_its_history(&played(&rt, rt.alloc(), &DENIED)?));
    Ok(())
}

/// Alice has made a document, which she may read and write.
const DOCUMENT: Case = Case {
    opening: TWO,
    lines: &[ALICE, Line::Make(0, "rw", 3)],
};

/// Two principals and the document take slots, and the edge a cell.
#[test]
fn a_vault_tells_how_much_room_is_left(rt: HostRuntime) -> Result<(), AllocError> {
    let room = played(&rt, rt.alloc(), &DOCUMENT)?.room();
    assert_eq!(rt; (room.slots, room.free_slots), (8, 5));
    assert_eq!(rt; (room.cells, room.free_cells), (8, 7));
    Ok(())
}

/// Whether the longest text is written into the document, as the second entry.
fn longest_is_written(
    rt: &impl Abort,
    alloc: Global,
    vault: &mut Vault,
) -> Result<bool, AllocError> {
    let Ok(text) = Text::new("a".repeat(alloc, 4096)?) else {
        panic!(rt; "refused");
    };
    let written = vault.command(0, Command::write(3, text));
    Ok(matches!(&written, Ok((1, Reply::Done))))
}

/// Whether it is the longest text.
fn is_longest(content: &str) -> bool {
    content.len() == 4096 && content.as_bytes().iter().all(|byte| *byte == b'a')
}

/// Whether the longest text is read, as the third entry.
fn longest_is_read(vault: &mut Vault) -> bool {
    match vault.command(0, Command::read(3)) {
        Ok((2, Reply::Text(found))) => is_longest(found.get()),
        _ => false,
    }
}

/// Whether the longest text is written into the document, and read again.
fn longest_is_kept(rt: &impl Abort, alloc: Global, vault: &mut Vault) -> Result<bool, AllocError> {
    Ok(longest_is_written(rt, alloc, vault)? && longest_is_read(vault))
}

/// Whether that is so in a new vault.
fn new_vault_keeps_longest(rt: &impl Abort, alloc: Global) -> Result<bool, AllocError> {
    let mut vault = played(rt, alloc, &DOCUMENT)?;
    longest_is_kept(rt, alloc, &mut vault)
}

#[test]
fn a_longest_text_is_written_and_read(rt: HostRuntime) -> Result<(), AllocError> {
    assert!(rt; new_vault_keeps_longest(&rt, rt.alloc())?);
    Ok(())
}
