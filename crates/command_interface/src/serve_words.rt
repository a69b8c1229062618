//! The words of `relayd serve`.
ghost use Rattle.std.specs.Prelude.{◌≡◌, None, IfSome};
ghost use Rattle.clap.specs.Words.{found_of, rows_of};
ghost use Rattle.command_interface.specs.Asked.{AskFor, AskForNothing, HasNumber, LacksNumber};

use clap::builder::ValueParser;
use clap::{Arg, ArgAction, ArgMatches, Command};
use std::alloc::{AllocError, Global};

const SERVE_HELP: &str =
    "Prints `listening on ADDRESS` once it accepts requests. Standard error reports when it started, each endpoint that a 410
disabled, each event that was given up, and why the relay ended. A store is created if the file is missing or empty,
and one of version 1 is converted to version 2, which older relays refuse.
Status 3 means that the relay halted, couldn't listen at ADDRESS, or that another relay has the file open.";

/// What `relayd serve` is asked for.
#[derive(Clone, Copy, PartialEq, Eq, Debug)]
pub struct ServeWords<'a> {
    /// The file's path.
    pub file: &'a str,
    /// The address to listen on, as it was written.
    pub address: &'a str,
    /// How it serves.
    pub settings: Settings,
}

/// How a relay serves.
#[derive(Clone, Copy, PartialEq, Eq, Debug)]
pub struct Settings {
    /// How many threads post, 1 to 64.
    pub workers: u64,
    /// How many threads take requests, each one connection at a time, 1 to 64.
    pub intake: u64,
    /// How many seconds a subscriber has for the head of its answer, 1 to 60.
    pub timeout: u64,
    /// After so many answered requests the relay ends; 0 for never.
    pub requests: u64,
}

/// What the words ask for. All of them are there once the parser took them.
pub fn read_serve<'a>(words: &ArgMatches<'a>) -> Option<ServeWords<'a>>
    ensures asked { IfSome result (AskFor (rows_of (found_of words.now))) }
    ensures none { result ≡ None → AskForNothing (rows_of (found_of words.now)) }
{
    let file = words.get_str("file")?;
    let address = words.get_str("address")?;
    let workers = number_in(words, "workers")?;
    let intake = number_in(words, "intake")?;
    let timeout = number_in(words, "timeout")?;
    let requests = number_in(words, "requests")?;
    Some(ServeWords {
        file,
        address,
        settings: Settings {
            workers,
            intake,
            timeout,
            requests,
        },
    })
}

// The number under this name.
fn number_in(words: &ArgMatches<'_>, name: &str) -> Option<u64>
    ensures found { IfSome result (HasNumber (rows_of (found_of words.now)) name.now) }
    ensures missing { result ≡ None → LacksNumber (rows_of (found_of words.now)) name.now }
{
    words.get_one(name)
}

/// The words that `serve` takes, and its help.
pub fn serve_syntax<'a>(alloc: Global) -> Result<Command<'a>, AllocError> {
    let command = Command::new(alloc, "serve")
        .about("Accepts events over HTTP, stores them in the file, and posts each to its endpoint")
        .after_help(SERVE_HELP)
        .arg(word(alloc, "file").help("The file's path"))?
        .arg(word(alloc, "address").help("The address to listen on, such as 127.0.0.1:8080"))?;
    add_options(alloc, command)
}

fn add_options<'a>(alloc: Global, command: Command<'a>) -> Result<Command<'a>, AllocError> {
    command
        .arg(
            number(alloc, "workers", 1, 64)
                .default_value("8")
                .help("How many threads post, 1 to 64"),
        )?
        .arg(
            number(alloc, "intake", 1, 64)
                .default_value("8")
                .help("How many threads take requests, 1 to 64"),
        )?
        .arg(
            number(alloc, "timeout", 1, 60)
                .default_value("15")
                .help("How many seconds a subscriber has to answer, 1 to 60"),
        )?
        .arg(
            number(alloc, "requests", 0, u64::MAX)
                .default_value("0")
                .help("Ends after this many answered requests; 0 means never"),
        )
}

fn word<'a>(alloc: Global, name: &'a str) -> Arg<'a> {
    Arg::new(alloc, name).required(true).action(ArgAction::Set)
}

// An option whose value is a number within these bounds.
fn number<'a>(alloc: Global, name: &'a str, least: u64, most: u64) -> Arg<'a> {
    Arg::new(alloc, name)
        .long(name)
        .action(ArgAction::Set)
        .value_parser(ValueParser::unsigned(least, most))
}
