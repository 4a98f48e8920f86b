//! From the words of the command line to a load.

use crate::load::Load;
use clap::builder::ValueParser;
use clap::{Arg, ArgAction, ArgMatches, Command, Error};
use std::alloc::{AllocError, Global};
use tg_rights::MAX_SLOTS;

/// An option with a number.
struct Numbered {
    name: &'static str,
    least: u64,
    most: u64,
    usual: &'static str,
    about: &'static str,
}

impl Numbered {
    fn arg<'a>(&self, alloc: Global) -> Arg<'a> {
        Arg::new(alloc, self.name)
            .long(self.name)
            .value_name("N")
            .value_parser(ValueParser::unsigned(self.least, self.most))
            .default_value(self.usual)
            .help(self.about)
    }
}

/// The options with numbers.
const NUMBERED: &[Numbered] = &[
    Numbered {
        name: "sessions",
        least: 1,
        most: 63,
        usual: "63",
        about: "Sessions at once",
    },
    Numbered {
        name: "commands",
        least: 0,
        most: 100_000_000,
        usual: "2000",
        about: "Commands of each session",
    },
    // One more than there are principals at the start.
    Numbered {
        name: "slots",
        least: 11,
        most: MAX_SLOTS as u64,
        usual: "48",
        about: "Slots of the vault",
    },
    Numbered {
        name: "held",
        least: 0,
        most: MAX_SLOTS as u64,
        usual: "0",
        about: "Documents that are made before, and held",
    },
    Numbered {
        name: "runs",
        least: 1,
        most: 1_000_000,
        usual: "1",
        about: "Runs, one after the other",
    },
    Numbered {
        name: "seed",
        least: 0,
        most: u64::MAX,
        usual: "0",
        about: "What the first run is drawn from",
    },
];

/// An option without one.
fn flag<'a>(alloc: Global, name: &'a str, about: &'a str) -> Arg<'a> {
    Arg::new(alloc, name)
        .long(name)
        .action(ArgAction::SetTrue)
        .help(about)
}

fn command<'a>(alloc: Global) -> Result<Command<'a>, AllocError> {
    let mut command = Command::new(alloc, "tg_load").about("Many sessions at once over one vault");
    for numbered in NUMBERED {
        command = command.arg(numbered.arg(alloc))?;
    }
    command
        .arg(flag(
            alloc,
            "no-collector",
            "Run no collector beside the sessions",
        ))?
        .arg(flag(
            alloc,
            "reuse",
            "Wait for the collector half-way; fail where no freed slot is used again",
        ))?
        .arg(flag(
            alloc,
            "figures",
            "Print what was measured on standard error",
        ))
}

/// The number of an option, which has one by default.
fn number_of(matches: &ArgMatches<'_>, name: &str) -> u64 {
    matches.get_one::<u64>(name).unwrap_or(0)
}

/// What the words ask for; the first is the program's own name. The error has the text that the user is to see.
pub fn load(alloc: Global, words: &[String]) -> Result<Load, Error> {
    let mut command = command(alloc)?;
    let matches = command.try_get_matches_from_mut(words)?;
    Ok(Load {
        sessions: number_of(&matches, "sessions"),
        commands: number_of(&matches, "commands"),
        slots: number_of(&matches, "slots"),
        held: number_of(&matches, "held"),
        runs: number_of(&matches, "runs"),
        seed: number_of(&matches, "seed"),
        has_collector: !matches.get_flag("no-collector"),
        wants_reuse: matches.get_flag("reuse"),
        has_figures: matches.get_flag("figures"),
    })
}
