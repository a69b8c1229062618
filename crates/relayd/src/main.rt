//! The relay's program.
#![tactic(auto)]

use command_interface::{CommandFault, end};
use relay_commands::{Outcome, run};
use relay_serve::{end_serving, serve};
use std::alloc::{AllocError, Global};
use std::io;
use std::io::ErrorKind;
use std::process::ExitCode;

fn main(rt: HostRuntime) -> io::Result<ExitCode> {
    let status = match words_of(&rt) {
        Ok(words) => {
            let outcome = run(
                &rt,
                words.as_slice(),
                &mut rt.stdin(),
                &mut rt.stdout(),
                &mut rt.stderr(),
            );
            match outcome {
                Outcome::Exit(status) => status,
                Outcome::Serve(asked) => end_serving(&mut rt.stderr(), serve(&rt, &rt, &asked)),
            }
        }
        Err(error) if error.kind() == ErrorKind::OutOfMemory => end(
            &mut rt.stderr(),
            Err(CommandFault::from(AllocError)),
        ),
        Err(error) => return Err(error),
    };
    Ok(ExitCode::from(status))
}

// The words of the command line, of which the first is the program's name.
fn words_of(rt: &HostRuntime) -> io::Result<Vec<String>> {
    Ok(std::env::args(rt)?.collect(rt.alloc())?)
}
