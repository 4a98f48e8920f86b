//! What the command line may have, for its parser: the modes, and the options of each.

ghost use Rattle.std.specs.Prelude.{codes, ◌≡◌, [], false, IfOk};
ghost use Rattle.clap.specs.Words.{app_of, new_app, rule_of, with_subcommand};
ghost use Rattle.clap.specs.declared.builder.command.Command.TheViews.{out-Command};
ghost use Rattle.tgdoc.specs.Inner.Modes.{addressed_read, alone_read, asked_read, asking_read, bounded_read, clients_read, command_read, connections_read, control_read, draw_read, each_read, from_read, history_read, listen_read, log_read, memory_read, most_read, option_read, path_read, patience_read, request_read, rights_read, round_read, serve_read, share_read, steps_read, to_read, watch_read, within_read, workers_read};

use crate::modes::{
    AUDIT_ABOUT, AUDIT_EXAMPLE, CONTROL_ABOUT, CONTROL_EXAMPLE, DRAW_ABOUT, DRAW_EXAMPLE, EXAMPLE,
    MOST_CONNECTIONS, MOST_PATIENCE, MOST_SECONDS, MOST_TRIED, MOST_WORKERS, RUN_ABOUT,
    RUN_EXAMPLE, SERVE_ABOUT, SERVE_EXAMPLE, SHARE_ABOUT, SHARE_EXAMPLE, USUAL_WORKERS, VERSION,
};
use clap::builder::ValueParser;
use clap::{Arg, ArgAction, Command};
use std::alloc::{AllocError, Global};

/// The whole command.
pub(crate) fn command<'a>(alloc: Global) -> Result<Command<'a>, AllocError>
    ensures { IfOk result (λ command. app_of command ≡ command_read) }
{
    let control = control_command(alloc)?;
    let command = served_command(alloc)?;
    command.subcommand(control)
}

/// The command with all modes but control.
fn served_command<'a>(alloc: Global) -> Result<Command<'a>, AllocError>
    ensures { IfOk result (λ command. app_of command ≡ with_subcommand (with_subcommand (with_subcommand alone_read draw_read) share_read) serve_read) }
{
    let serve = serve_command(alloc)?;
    let command = unserved_command(alloc)?;
    command.subcommand(serve)
}

/// The subcommand of serve.
fn serve_command<'a>(alloc: Global) -> Result<Command<'a>, AllocError>
    ensures app { IfOk result (λ command. app_of command ≡ record { top = serve_read; subs = [] }) }
    ensures local { IfOk result (λ command. (out-Command command).has_globals ≡ false) }
{
    let command = bounded_command(alloc)?;
    let controlled = command.arg(control_option(alloc))?;
    let logging = controlled.arg(log_option(alloc))?;
    logging.arg(history_option(alloc))
}

/// The subcommand of serve, without those who attend to a server.
fn bounded_command<'a>(alloc: Global) -> Result<Command<'a>, AllocError>
    ensures app { IfOk result (λ command. app_of command ≡ record { top = bounded_read; subs = [] }) }
    ensures local { IfOk result (λ command. (out-Command command).has_globals ≡ false) }
{
    let command = clients_command(alloc)?;
    let settling = command.arg(round_option(alloc))?;
    let waiting = settling.arg(patience_option(alloc))?;
    waiting.arg(memory_option(alloc))
}

/// The subcommand of serve, as far as it says where clients are served, and how many.
fn clients_command<'a>(alloc: Global) -> Result<Command<'a>, AllocError>
    ensures app { IfOk result (λ command. app_of command ≡ record { top = clients_read; subs = [] }) }
    ensures local { IfOk result (λ command. (out-Command command).has_globals ≡ false) }
{
    let command = Command::new(alloc, "serve")
        .about(SERVE_ABOUT)
        .after_help(SERVE_EXAMPLE);
    let listening = command.arg(listen_option(alloc))?;
    let working = listening.arg(workers_option(alloc))?;
    working.arg(connections_option(alloc))
}

/// The subcommand of draw.
fn draw_command<'a>(alloc: Global) -> Result<Command<'a>, AllocError>
    ensures app { IfOk result (λ command. app_of command ≡ record { top = draw_read; subs = [] }) }
    ensures local { IfOk result (λ command. (out-Command command).has_globals ≡ false) }
{
    let command = Command::new(alloc, "draw")
        .about(DRAW_ABOUT)
        .after_help(DRAW_EXAMPLE);
    command.arg(each_option(alloc))
}

/// The subcommand of share.
fn share_command<'a>(alloc: Global) -> Result<Command<'a>, AllocError>
    ensures app { IfOk result (λ command. app_of command ≡ record { top = share_read; subs = [] }) }
    ensures local { IfOk result (λ command. (out-Command command).has_globals ≡ false) }
{
    let command = asking_command(alloc)?;
    let bounded = command.arg(most_option(alloc))?;
    bounded.arg(steps_option(alloc))
}

/// The subcommand of share, as far as it says what is asked.
fn asking_command<'a>(alloc: Global) -> Result<Command<'a>, AllocError>
    ensures app { IfOk result (λ command. app_of command ≡ record { top = asking_read; subs = [] }) }
    ensures local { IfOk result (λ command. (out-Command command).has_globals ≡ false) }
{
    let command = Command::new(alloc, "share")
        .about(SHARE_ABOUT)
        .after_help(SHARE_EXAMPLE);
    let coming = command.arg(from_option(alloc))?;
    let going = coming.arg(to_option(alloc))?;
    going.arg(rights_option(alloc))
}

fn from_option<'a>(alloc: Global) -> Arg<'a>
    ensures rule { rule_of result ≡ from_read }
    ensures local { result.global ≡ false }
{
    option(alloc, "from", "VERTEX").help(
        "Who is to have the rights: a serial, or the name of a principal; without it, all who could are listed",
    )
}

fn to_option<'a>(alloc: Global) -> Arg<'a>
    ensures rule { rule_of result ≡ to_read }
    ensures local { result.global ≡ false }
{
    option(alloc, "to", "VERTEX").help(
        "Over what: a serial, or the name of a principal; without it, all over which it could are listed",
    )
}

fn rights_option<'a>(alloc: Global) -> Arg<'a>
    ensures rule { rule_of result ≡ rights_read }
    ensures local { result.global ≡ false }
{
    option(alloc, "rights", "LETTERS")
        .required(true)
        .help("Letters of r, w, t and g")
}

fn most_option<'a>(alloc: Global) -> Arg<'a>
    ensures rule { rule_of result ≡ most_read }
    ensures local { result.global ≡ false }
{
    option(alloc, "most", "N")
        .value_parser(ValueParser::unsigned(1, MOST_TRIED))
        .help(
            "How many vertices may be asked without --from (10000), how many steps taken without --to (1000000)",
        )
}

fn steps_option<'a>(alloc: Global) -> Arg<'a>
    ensures rule { rule_of result ≡ steps_read }
    ensures local { result.global ≡ false }
{
    Arg::new(alloc, "steps")
        .long("steps")
        .action(ArgAction::SetTrue)
        .help("Writes the steps that are found, without the lines that lead to the graph")
}

fn each_option<'a>(alloc: Global) -> Arg<'a>
    ensures rule { rule_of result ≡ each_read }
    ensures local { result.global ≡ false }
{
    Arg::new(alloc, "each")
        .long("each")
        .action(ArgAction::SetTrue)
        .help("Draws the graph after each line, with the line and its answer")
}

fn listen_option<'a>(alloc: Global) -> Arg<'a>
    ensures rule { rule_of result ≡ listen_read }
    ensures local { result.global ≡ false }
{
    option(alloc, "listen", "ADDRESS").required(true).help(
        "Loopback address and port, as 127.0.0.1:7000; port 0 takes any that is free",
    )
}

fn workers_option<'a>(alloc: Global) -> Arg<'a>
    ensures rule { rule_of result ≡ workers_read }
    ensures local { result.global ≡ false }
{
    option(alloc, "workers", "N")
        .value_parser(ValueParser::unsigned(1, MOST_WORKERS))
        .default_value(USUAL_WORKERS)
        .help("Connections served at once, 1 to 63")
}

fn connections_option<'a>(alloc: Global) -> Arg<'a>
    ensures rule { rule_of result ≡ connections_read }
    ensures local { result.global ≡ false }
{
    option(alloc, "connections", "M")
        .value_parser(ValueParser::unsigned(1, MOST_CONNECTIONS))
        .help(
            "Connections served in all, 1 to 1000000; without it, until the server is told to stop at --control",
        )
}

fn round_option<'a>(alloc: Global) -> Arg<'a>
    ensures rule { rule_of result ≡ round_read }
    ensures local { result.global ≡ false }
{
    option(alloc, "round", "R")
        .value_parser(ValueParser::unsigned(1, MOST_CONNECTIONS))
        .help(
            "Connections served before the history is dropped; without it, all, or 1000000 without --connections",
        )
}

fn patience_option<'a>(alloc: Global) -> Arg<'a>
    ensures rule { rule_of result ≡ patience_read }
    ensures local { result.global ≡ false }
{
    option(alloc, "patience", "SECONDS")
        .value_parser(ValueParser::unsigned(1, MOST_PATIENCE))
        .help(
            "Seconds for which a client may keep the server waiting for a line, or until it takes its answers, 1 to 86400; without it, for ever",
        )
}

fn memory_option<'a>(alloc: Global) -> Arg<'a>
    ensures rule { rule_of result ≡ memory_read }
    ensures local { result.global ≡ false }
{
    option(alloc, "memory", "BYTES").help(
        "Bytes that a round's history and logs may take before it ends, 1 to 1024g (k, m and g count too); without it, half of the memory that is available",
    )
}

fn control_option<'a>(alloc: Global) -> Arg<'a>
    ensures rule { rule_of result ≡ control_read }
    ensures local { result.global ≡ false }
{
    option(alloc, "control", "PATH").help(
        "Makes a socket at PATH, at which `tgdoc control` asks this server, for this user alone",
    )
}

fn log_option<'a>(alloc: Global) -> Arg<'a>
    ensures rule { rule_of result ≡ log_read }
    ensures local { result.global ≡ false }
{
    Arg::new(alloc, "log")
        .long("log")
        .action(ArgAction::SetTrue)
        .help(
            "Writes a line of JSON on standard error for each connection that ends, and each round",
        )
}

fn history_option<'a>(alloc: Global) -> Arg<'a>
    ensures rule { rule_of result ≡ history_read }
    ensures local { result.global ≡ false }
{
    option(alloc, "history", "FILE").help(
        "Appends the steps of each round that is settled to FILE, as `tgdoc audit` reads them",
    )
}

/// The subcommand of control.
fn control_command<'a>(alloc: Global) -> Result<Command<'a>, AllocError>
    ensures app { IfOk result (λ command. app_of command ≡ record { top = asked_read; subs = [] }) }
    ensures local { IfOk result (λ command. (out-Command command).has_globals ≡ false) }
{
    let command = addressed_command(alloc)?;
    let waiting = command.arg(within_option(alloc))?;
    waiting.arg(watch_option(alloc))
}

/// The subcommand of control, as far as it says who is asked for what.
fn addressed_command<'a>(alloc: Global) -> Result<Command<'a>, AllocError>
    ensures app { IfOk result (λ command. app_of command ≡ record { top = addressed_read; subs = [] }) }
    ensures local { IfOk result (λ command. (out-Command command).has_globals ≡ false) }
{
    let command = Command::new(alloc, "control")
        .about(CONTROL_ABOUT)
        .after_help(CONTROL_EXAMPLE);
    let addressed = command.arg(path_argument(alloc))?;
    addressed.arg(request_argument(alloc))
}

fn path_argument<'a>(alloc: Global) -> Arg<'a>
    ensures rule { rule_of result ≡ path_read }
    ensures local { result.global ≡ false }
{
    Arg::new(alloc, "PATH")
        .required(true)
        .help("The socket that the server was given with --control")
}

fn request_argument<'a>(alloc: Global) -> Arg<'a>
    ensures rule { rule_of result ≡ request_read }
    ensures local { result.global ≡ false }
{
    Arg::new(alloc, "REQUEST")
        .required(true)
        .help("status, stop or end-round")
}

fn within_option<'a>(alloc: Global) -> Arg<'a>
    ensures rule { rule_of result ≡ within_read }
    ensures local { result.global ≡ false }
{
    option(alloc, "within", "SECONDS")
        .value_parser(ValueParser::unsigned(0, MOST_SECONDS))
        .help("Seconds for which clients are waited for, 0 to 86400; 10 without it")
}

fn watch_option<'a>(alloc: Global) -> Arg<'a>
    ensures rule { rule_of result ≡ watch_read }
    ensures local { result.global ≡ false }
{
    option(alloc, "watch", "SECONDS")
        .value_parser(ValueParser::unsigned(1, MOST_SECONDS))
        .help("Shows the status as a table, again after so many seconds each, 1 to 86400")
}

/// An option with a value.
fn option<'a>(alloc: Global, name: &'a str, value: &'a str) -> Arg<'a>
    ensures rule { rule_of result ≡ option_read name.now }
    ensures local { result.global ≡ false }
{
    Arg::new(alloc, name).long(name).value_name(value)
}

/// The subcommand of a mode that takes no further words.
fn mode_command<'a>(alloc: Global, word: &'a str, about: &'a str, example: &'a str) -> Command<'a>
    ensures app { app_of result ≡ new_app word.now }
    ensures local { (out-Command result).has_globals ≡ false }
{
    Command::new(alloc, word).about(about).after_help(example)
}

/// The command with all modes but control and serve.
fn unserved_command<'a>(alloc: Global) -> Result<Command<'a>, AllocError>
    ensures { IfOk result (λ command. app_of command ≡ with_subcommand (with_subcommand alone_read draw_read) share_read) }
{
    let share = share_command(alloc)?;
    let command = drawing_command(alloc)?;
    command.subcommand(share)
}

/// The command with the modes for lines of standard input that ask no question.
fn drawing_command<'a>(alloc: Global) -> Result<Command<'a>, AllocError>
    ensures { IfOk result (λ command. app_of command ≡ with_subcommand alone_read draw_read) }
{
    let draw = draw_command(alloc)?;
    let command = alone_command(alloc)?;
    command.subcommand(draw)
}

/// The command with the modes that take no further words.
fn alone_command<'a>(alloc: Global) -> Result<Command<'a>, AllocError>
    ensures { IfOk result (λ command. app_of command ≡ alone_read) }
{
    let run = mode_command(alloc, "run", RUN_ABOUT, RUN_EXAMPLE);
    let audit = mode_command(alloc, "audit", AUDIT_ABOUT, AUDIT_EXAMPLE);
    Command::new(alloc, "tgdoc")
        .version(VERSION)
        .about("Shared documents whose access rights are a take-grant protection graph")
        .after_help(EXAMPLE)
        .subcommand_required(true)
        .subcommand(run)?
        .subcommand(audit)
}
