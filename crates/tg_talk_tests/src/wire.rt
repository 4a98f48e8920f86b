//! That each call succeeds with ample memory, on lines written by hand from the protocol.
mod growths;
mod refusals;
mod writing;

use tg_rights::{Command, Kind, Rights, Rule};
use tg_vault::Event;
use tg_wire::{Line, read_config, read_goal, read_line, read_step};

/// An event line, and what it asks for: the op, or the name of a hello or an enrol, and the seat.
struct EventCase {
    line: &'static [u8],
    word: &'static str,
    seat: u64,
}

const EVENTS: &[EventCase] = &[
    EventCase {
        line: b"{\"op\":\"hello\",\"name\":\"alice\"}",
        word: "alice",
        seat: 0,
    },
    EventCase {
        line: b" { \"op\" : \"hello\" ,\t\"name\" : \"alice\", \"seat\":\r7 } ",
        word: "alice",
        seat: 7,
    },
    EventCase {
        line: b"{\"op\":\"hello\",\"name\":\"al\\u0069ce\"}",
        word: "alice",
        seat: 0,
    },
    EventCase {
        line: b"{\"op\":\"hello\",\"name\":\"\\u00e9\\u20AC\\n\"}",
        word: "\u{e9}\u{20ac}\n",
        seat: 0,
    },
    EventCase {
        line: b"{\"op\":\"hello\",\"name\":\"\\ud834\\udd1e\"}",
        word: "\u{1d11e}",
        seat: 0,
    },
    EventCase {
        line: b"{\"op\":\"bye\",\"seat\":63}",
        word: "bye",
        seat: 63,
    },
    EventCase {
        line: b"{\"op\":\"shade\",\"seat\":1}",
        word: "shade",
        seat: 1,
    },
    EventCase {
        line: b"{\"op\":\"look\",\"at\":1,\"seat\":2}",
        word: "look",
        seat: 2,
    },
    EventCase {
        line: b"{\"name\":\"carol\",\"op\":\"enrol\",\"rights\":\"t\",\"seat\":3}",
        word: "carol",
        seat: 3,
    },
    EventCase {
        line: b"{\"op\":\"retire\",\"seat\":4}",
        word: "retire",
        seat: 4,
    },
    EventCase {
        line: b"{\"agent\":3,\"op\":\"assume\",\"seat\":5}",
        word: "assume",
        seat: 5,
    },
    EventCase {
        line: b"{\"op\":\"leave\",\"seat\":6}",
        word: "leave",
        seat: 6,
    },
    EventCase {
        line: b"{\"op\":\"collect\"}",
        word: "collect",
        seat: 0,
    },
    EventCase {
        line: b"{\"op\":\"cycle\",\"seat\":99}",
        word: "cycle",
        seat: 0,
    },
];

fn word_of(command: &Command) -> &str {
    match command {
        Command::Look { at: 1 } => "look",
        Command::Enrol { name, rights } => {
            if *rights == Rights::take() {
                name.get()
            } else {
                ""
            }
        }
        Command::Retire => "retire",
        Command::Assume { agent: 3 } => "assume",
        Command::Leave => "leave",
        _ => "",
    }
}

fn asks(line: &Line, case: &EventCase) -> bool {
    match line {
        Line::Act(Event::Hello { seat, name }) => { name.get() == case.word && *seat == case.seat }
        Line::Act(Event::Bye { seat }) => case.word == "bye" && *seat == case.seat,
        Line::Act(Event::Shade { seat }) => case.word == "shade" && *seat == case.seat,
        Line::Act(Event::Ask { seat, command }) => {
            word_of(command) == case.word && *seat == case.seat
        }
        Line::Act(Event::Collect) => case.word == "collect",
        Line::Cycle => case.word == "cycle",
    }
}

#[test]
fn each_kind_of_event_line_is_read(rt: HostRuntime) {
    for case in EVENTS {
        match read_line(rt.alloc(), case.line) {
            Ok(line) => assert!(rt; asks(&line, case)),
            Err(_) => panic!(rt; "refused"),
        }
    }
}

/// A step line of actor 1, and its command: the rule, the bits of the rights, and the vertices in the order in which
/// the command has them.
struct StepCase {
    line: &'static [u8],
    rule: Rule,
    bits: u8,
    first: u64,
    second: u64,
}

const STEPS: &[StepCase] = &[
    StepCase {
        line: b"{\"actor\":1,\"from\":4,\"op\":\"take\",\"over\":3,\"rights\":\"tr\"}",
        rule: Rule::Take,
        bits: 5,
        first: 3,
        second: 4,
    },
    StepCase {
        line: b"{\"actor\":1,\"op\":\"grant\",\"over\":3,\"rights\":\"wg\",\"to\":4}",
        rule: Rule::Grant,
        bits: 10,
        first: 3,
        second: 4,
    },
    StepCase {
        line: b"{\"actor\":1,\"kind\":\"document\",\"op\":\"create\",\"rights\":\"rwtg\"}",
        rule: Rule::Create,
        bits: 15,
        first: 0,
        second: 0,
    },
    StepCase {
        line: b"{\"actor\":1,\"op\":\"remove\",\"over\":3,\"rights\":\"\"}",
        rule: Rule::Remove,
        bits: 0,
        first: 3,
        second: 0,
    },
    StepCase {
        line: b"{\"op\":\"read\",\"over\":3,\"actor\":1}",
        rule: Rule::Read,
        bits: 0,
        first: 3,
        second: 0,
    },
    StepCase {
        line: b"{\"actor\":1,\"op\":\"write\",\"over\":3,\"text\":\"hi\"}",
        rule: Rule::Write,
        bits: 0,
        first: 3,
        second: 0,
    },
    StepCase {
        line: b"{\"actor\":1,\"at\":3,\"op\":\"look\"}",
        rule: Rule::Look,
        bits: 0,
        first: 3,
        second: 0,
    },
];

fn is_command(command: &Command, case: &StepCase) -> bool {
    let (bits, first, second) = match command {
        Command::Take { rights, over, from } => (rights.bits(), *over, *from),
        Command::Grant { rights, over, to } => (rights.bits(), *over, *to),
        Command::Create { kind, rights } => {
            (
                if *kind == Kind::Document {
                    rights.bits()
                } else {
                    16
                },
                0,
                0,
            )
        }
        Command::Remove { rights, over } => (rights.bits(), *over, 0),
        Command::Read { over } => (0, *over, 0),
        Command::Write { over, text } => (if text.get() == "hi" { 0 } else { 16 }, *over, 0),
        Command::Look { at } => (0, *at, 0),
        // No step is one of these.
        Command::Enrol { .. } | Command::Retire | Command::Assume { .. } | Command::Leave => {
            (16, 0, 0)
        }
    };
    command.rule() == case.rule && (bits, first, second) == (case.bits, case.first, case.second)
}

#[test]
fn a_step_of_each_rule_is_read(rt: HostRuntime) {
    for case in STEPS {
        match read_step(rt.alloc(), case.line) {
            Ok(step) => assert!(rt; step.actor == 1 && is_command(&step.command, case)),
            Err(_) => panic!(rt; "refused"),
        }
    }
}

#[test]
fn a_goal_and_a_configuration_are_read(rt: HostRuntime) {
    match read_goal(rt.alloc(), b"{\"from\":1,\"rights\":\"tr\",\"to\":2}") {
        Ok(goal) => {
            assert!(rt; (goal.from, goal.to, goal.rights.bits()) == (1, 2, 5));
        }
        Err(_) => panic!(rt; "refused"),
    }
    match read_config(
        rt.alloc(),
        b"{\"principals\":[\"a\",\"b\"],\"edges\":[[1,\"t\",2]],\"slots\":8}",
    ) {
        Ok(config) => {
            assert!(rt; (config.next, config.slots, config.cells) == (3, 8, 16_384));
            assert!(rt; config.principals.len() == 2);
            assert!(rt; config.edges.as_slice() == [(1, Rights::take(), 2)].as_slice());
        }
        Err(_) => panic!(rt; "refused"),
    }
}
