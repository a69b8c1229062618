//! The command line: which words name which command, and what help says.
ghost use Rattle.std.specs.Prelude.{◌≡◌, ◌≤◌, ℕ, IfErr, IfSome};
ghost use Rattle.std.specs.Io.KnownBytes.{Keeps};
ghost use Rattle.text_lines.specs.declared.fault.StreamFault.TheVariants as command;
ghost use Rattle.clap.specs.Words.{kind_of};
ghost use Rattle.relay_commands.specs.declared.command_line.Outcome.TheVariants.{Exit};
ghost use Rattle.command_interface.specs.declared.exit_status.CommandFault.TheVariants.{Ended};
ghost use Rattle.relay_commands.specs.CommandLine.{IsServeFor, IsForNoServe, IsShownAs};

use crate::replay_command::replay;
use clap::error::{Error, ErrorKind};
use clap::{Arg, ArgAction, ArgMatches, Command};
use command_interface::{CommandFault, ServeWords, USAGE, end, read_serve, serve_syntax};
use sqlite::Unknown;
use std::alloc::{AllocError, Global};
use std::convert::AsStr;
use std::io::{Read, Write};
use text_lines::StreamFault;
use tool_commands::{check_file, sign, vegas};

/// What `--version` prints after the program's name.
pub const VERSION: &str = "0.1.0";

const EXIT_HELP: &str = "Exit status:
  0  done
  1  wrong usage: no such command or option, or an invalid argument
  2  a bad line, or too much input
  3  any other error
  4  the file isn't a relay's store, is from a later version, or is damaged
Errors are reported on standard error.";

const REPLAY_HELP: &str =
    "Each line is one of these, with one space between words. NOW is in seconds since the Unix epoch.
  put NAME URL MAX SECRETS    a new endpoint; 1 to 4 secrets with commas between, the newest first
  secrets NAME SECRETS        other secrets of an endpoint
  enable NAME, disable NAME   whether its events are posted
  subscribe TOPIC NAME        the topic's events go to this endpoint; unsubscribe TOPIC NAME: no longer
  submit NOW NAME ID BODY     a new event; BODY in hexadecimal or -
  publish NOW TOPIC ID BODY   a new event for each endpoint that is subscribed to the topic
  purge BEFORE                removes each event that ended before this moment; its id is free again
  told SEQ                    whether the record with this number is settled
  seal                        makes a batch of the records that wait
  commit                      writes the batch into the store
  settle                      acknowledges the records that were written
  unseal                      takes the batch back: its records wait again
  halt                        gives up the batch; nothing is accepted from then on
  claim NOW                   starts the next attempt that is due, if the limit allows one
  spend DELIVERY NOW RESULT   ends an attempt: STATUS RTT, timeout RTT, unreached or unsent
  show NAME                   an endpoint, by the settled records
  show NAME ID                an event: pending, delivered or exhausted
  limits NAME                 how many attempts at an endpoint may be under way, and how many are
  stop                        a crash: what isn't committed is lost, and the store is reopened
A bad line ends the script with status 2. The replies before it are printed.";

const CHECK_HELP: &str =
    "Creates a store if the file is missing or empty. Converts a store of version 1 to version 2, which older
relays refuse; there is no way back. Any other file is only read.
Prints `ok records N endpoints E pending P`.
Status 4 with NotOurs, NewerVersion or Damaged: the relay doesn't accept the file. Status 3 with Busy:
another program has it open; with CannotOpen, Corrupt, Full or Lost: the file or the disk failed.";

const SIGN_HELP: &str =
    "Anyone who can list this machine's processes sees the secrets. A body has at most 65536 bytes:
status 2 means that it is longer, status 1 that an argument is invalid.";

const VEGAS_HELP: &str = "Lines: RTT INFLIGHT ok, or RTT INFLIGHT drop
  RTT       the round trip of a post in microseconds
  INFLIGHT  how many posts were in flight, 1 to 1000
With --explain each line also has: from LIMIT NOLOAD PROBES by COUNT
  the last COUNT samples, at most 64, led from that state to this limit
A bad line ends the input with status 2. The limits before it are printed.";

/// What the words ask for, as far as it is done here.
#[derive(Clone, Copy, PartialEq, Eq, Debug)]
pub enum Outcome<'a> {
    /// The command is done, with this exit status.
    Exit(u8),
    /// A relay that serves is asked for, and nothing is done yet.
    Serve(ServeWords<'a>),
}

/// Runs the command that the words name, the first of which is the program's own: 0 done, 1 usage,
/// 2 what was read, 4 a file that the relay doesn't take, 3 every other fault. Help and the version
/// go to the output. Of `serve` it reads the words alone.
pub fn run<'a, S: AsStr, R: Read, O: Write, E: Write>(
    rt: &HostRuntime,
    words: &'a [S],
    input: &mut R,
    output: &mut O,
    errors: &mut E,
) -> Outcome<'a>
    ensures done { result ≡ Exit 0 → Keeps (E.contents errors.old) (E.contents errors.new) }
    ensures usage { result ≡ Exit 1 → Keeps (O.contents output.old) (O.contents output.new) }
    ensures most { (status : ℕ) → result ≡ Exit status → status ≤ 4 }
{
    let matches = match parse(rt.alloc(), words) {
        Ok(matches) => matches,
        Err(error) => return Outcome::Exit(show(&error, output, errors)),
    };
    match serve_asked(&matches) {
        Some(asked) => Outcome::Serve(asked),
        None => Outcome::Exit(run_command(rt, &matches, input, output, errors)),
    }
}

// What a relay that serves is told, where the words ask for one.
fn serve_asked<'a>(matches: &ArgMatches<'a>) -> Option<ServeWords<'a>>
    ensures asked { IfSome result (IsServeFor matches.now) }
    ensures none { result ≡ None → IsForNoServe matches.now }
{
    match matches.subcommand() {
        Some(("serve", words)) => read_serve(words),
        _ => None,
    }
}

// Runs a command that ends by itself.
fn run_command<R: Read, O: Write, E: Write>(
    rt: &HostRuntime,
    matches: &ArgMatches<'_>,
    input: &mut R,
    output: &mut O,
    errors: &mut E,
) -> u8
    ensures done { result ≡ 0 → Keeps (E.contents errors.old) (E.contents errors.new) }
    ensures usage { result ≡ 1 → Keeps (O.contents output.old) (O.contents output.new) }
    ensures most { result ≤ 4 }
{
    let alloc = rt.alloc();
    match matches.subcommand() {
        Some(("check", words)) => match words.get_str("file") {
            Some(path) => check_file(rt, path, Unknown, output, errors).1,
            None => USAGE,
        },
        Some(("replay", _)) => replay(alloc, input, output, errors),
        Some(("sign", words)) => sign_words(alloc, words, input, output, errors),
        Some(("vegas", words)) => match words.get_str("max") {
            Some(max) => vegas(alloc, max, words.get_flag("explain"), input, output, errors),
            None => USAGE,
        },
        _ => USAGE,
    }
}

// The command that the words name, and its arguments.
fn parse<'a, S: AsStr>(alloc: Global, words: &'a [S]) -> Result<ArgMatches<'a>, Error> {
    relayd(alloc)?.try_get_matches_from(words)
}

// Shows what the parser answers in place of a command: help, or what is wrong with the words.
fn show<O: Write, E: Write>(error: &Error, output: &mut O, errors: &mut E) -> u8
    ensures done { result ≡ 0 → Keeps (E.contents errors.old) (E.contents errors.new) }
    ensures usage { result ≡ 1 → Keeps (O.contents output.old) (O.contents output.new) }
    ensures shown { IsShownAs (kind_of error.now) result }
    ensures most { result ≤ 4 }
{
    match error.kind() {
        ErrorKind::OutOfMemory => end(errors, Err(CommandFault::from(AllocError))),
        ErrorKind::DisplayHelp | ErrorKind::DisplayVersion => end(errors, print(error, output)),
        _ => {
            let _ = write!(errors, "{error}");
            USAGE
        }
    }
}

// Prints help or the version.
fn print<O: Write>(shown: &Error, output: &mut O) -> Result<(), CommandFault>
    ensures fault { IfErr result (λ fault. fault ≡ Ended command.Write) }
{
    match write!(output, "{shown}") {
        Ok(()) => Ok(()),
        Err(_) => Err(CommandFault::Ended(StreamFault::Write)),
    }
}

// Signs the body on the reader as the words ask.
fn sign_words<R: Read, O: Write, E: Write>(
    alloc: Global,
    words: &ArgMatches<'_>,
    input: &mut R,
    output: &mut O,
    errors: &mut E,
) -> u8
    ensures done { result ≡ 0 → Keeps (E.contents errors.old) (E.contents errors.new) }
    ensures usage { result ≡ 1 → Keeps (O.contents output.old) (O.contents output.new) }
    ensures most { result ≤ 3 }
{
    let (id, at) = (words.get_str("id"), words.get_str("at"));
    let (Some(id), Some(at), Some(secrets)) = (id, at, words.get_strs("secret")) else {
        return USAGE;
    };
    sign(alloc, id, at, secrets, input, output, errors)
}

// The commands and their arguments.
fn relayd<'a>(alloc: Global) -> Result<Command<'a>, AllocError> {
    Command::new(alloc, "relayd")
        .version(VERSION)
        .about("A webhook relay: accepts events over HTTP and posts them, signed, to subscribers")
        .after_help(EXIT_HELP)
        .subcommand_required(true)
        .subcommand(check_syntax(alloc)?)?
        .subcommand(replay_syntax(alloc))?
        .subcommand(serve_syntax(alloc)?)?
        .subcommand(sign_syntax(alloc)?)?
        .subcommand(vegas_syntax(alloc)?)
}

fn check_syntax<'a>(alloc: Global) -> Result<Command<'a>, AllocError> {
    Command::new(alloc, "check")
        .about(
            "Prints how many records, endpoints and pending events a store has; creates it if it is missing",
        )
        .after_help(CHECK_HELP)
        .arg(text(alloc, "file").help("The file's path"))
}

fn replay_syntax<'a>(alloc: Global) -> Command<'a> {
    Command::new(alloc, "replay")
        .about("Runs the script on standard input over a store in memory and prints each reply")
        .after_help(REPLAY_HELP)
}

fn sign_syntax<'a>(alloc: Global) -> Result<Command<'a>, AllocError> {
    Command::new(alloc, "sign")
        .about("Prints the webhook-signature header of the body on standard input")
        .after_help(SIGN_HELP)
        .arg(text(alloc, "id").help("The event's id"))?
        .arg(text(alloc, "at").help("The moment, in seconds since the Unix epoch"))?
        .arg(
            text(alloc, "secret")
                .action(ArgAction::Append)
                .num_args(1..)
                .help("The endpoint's secrets, 1 to 4, the newest first"),
        )
}

fn vegas_syntax<'a>(alloc: Global) -> Result<Command<'a>, AllocError> {
    Command::new(alloc, "vegas")
        .about("Prints the limit and the no-load time after each sample on standard input")
        .after_help(VEGAS_HELP)
        .arg(text(alloc, "max").help("The maximum limit, 1 to 1000"))?
        .arg(
            Arg::new(alloc, "explain")
                .long("explain")
                .action(ArgAction::SetTrue)
                .help("Also prints the state from which the last samples led to each limit"),
        )
}

// A required argument of one word.
fn text<'a>(alloc: Global, name: &'a str) -> Arg<'a> {
    Arg::new(alloc, name).required(true).action(ArgAction::Set)
}
