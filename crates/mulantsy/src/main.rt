// Puts whole turns back into a field of numbers that were seen without them, from a text to a text.
#![tactic(auto)]

mod ask;
mod command;
mod said;

use ask::Ask;
use clap::ArgMatches;
use command::command;
use report::answer_to_text;
use report::unanswered::Unanswered;
use said::{place_line, refusal_json};
use std::io::{ErrorKind, Read, Write};
use std::process::ExitCode;
use std::{env, fs, io};

// Not understood, or not to be had.
const NOT_HAD: u8 = 2;

// The bytes of a file, or of standard input where none is named.
fn bytes_of(rt: &HostRuntime, file: Option<&str>) -> io::Result<Vec<u8>> {
    match file {
        Some(path) => fs::read(rt, path),
        None => {
            let mut bytes = Vec::new(rt.alloc());
            rt.stdin().read_to_end(&mut bytes)?;
            Ok(bytes)
        }
    }
}

// Says why something named isn't to be had.
fn not_had(rt: &HostRuntime, name: &str, error: io::Error) -> io::Result<ExitCode> {
    eprintln!(rt; "mulantsy: {name}: {error}")?;
    Ok(ExitCode::from(NOT_HAD))
}

fn name_commands(rt: &HostRuntime) -> io::Result<()> {
    eprintln!(rt; "mulantsy: commands are: unwrap")
}

// A mistyped command is taken for a file.
fn no_file(rt: &HostRuntime, name: &str, error: io::Error) -> io::Result<ExitCode> {
    let missing = error.kind() == ErrorKind::NotFound;
    let status = not_had(rt, name, error)?;
    if missing {
        name_commands(rt)?;
    }
    Ok(status)
}

// Writes a text to where it is asked for.
fn write_text(rt: &HostRuntime, output: Option<&str>, text: &str) -> io::Result<()> {
    match output {
        Some(path) => fs::write(rt, path, text),
        None => rt.stdout().write_all(text.as_bytes()),
    }
}

fn deliver(rt: &HostRuntime, ask: Ask<'_>, text: &str, status: u8) -> io::Result<ExitCode> {
    match write_text(rt, ask.output, text) {
        Ok(()) => Ok(ExitCode::from(status)),
        Err(error) => not_had(rt, ask.output.unwrap_or("standard output"), error),
    }
}

// Says why there is no answer.
fn turn_away(rt: &HostRuntime, ask: Ask<'_>, text: &[u8], why: Unanswered) -> io::Result<ExitCode> {
    let name = ask.file.unwrap_or("-");
    let Some(refusal) = why.refusal() else {
        return not_had(rt, name, io::Error::from(ErrorKind::OutOfMemory));
    };
    if ask.is_json() {
        let said = refusal_json(rt.alloc(), text, refusal, why)?;
        return deliver(rt, ask, said.as_str(), 1);
    }
    eprintln!(rt; "{refusal}")?;
    if let Some(place) = place_line(rt.alloc(), name, text, why)? {
        eprintln!(rt; "{place}")?;
    }
    Ok(ExitCode::from(1))
}

// Does what is asked for.
fn show(rt: &HostRuntime, ask: Ask<'_>) -> io::Result<ExitCode> {
    let bytes = match bytes_of(rt, ask.file) {
        Ok(bytes) => bytes,
        Err(error) => return no_file(rt, ask.file.unwrap_or("-"), error),
    };
    match answer_to_text(rt.alloc(), bytes.as_slice(), ask.view) {
        Ok(text) => deliver(rt, ask, text.as_str(), 0),
        Err(why) => turn_away(rt, ask, bytes.as_slice(), why),
    }
}

fn asked<'a>(matches: &ArgMatches<'a>) -> Ask<'a> {
    match matches.subcommand() {
        Some((_unwrap, options)) => Ask::of(options),
        None => Ask::of(matches),
    }
}

// Says why a command line isn't understood, or what help was asked for. A word too many is taken for a command.
fn not_understood(rt: &HostRuntime, error: &clap::Error) -> io::Result<ExitCode> {
    error.print(rt)?;
    let said = format!(in rt.alloc(); "{error}")?;
    if said.as_str().starts_with("error: the subcommand") {
        name_commands(rt)?;
    }
    Ok(ExitCode::from(error.exit_code() as u8))
}

// Does what the command line asks for.
fn run(rt: &HostRuntime) -> io::Result<ExitCode> {
    let alloc = rt.alloc();
    let words: Vec<String> = env::args(rt)?.collect(alloc)?;
    match command(alloc)?.try_get_matches_from(words.as_slice()) {
        Ok(matches) => show(rt, asked(&matches)),
        Err(error) => not_understood(rt, &error),
    }
}

fn main(rt: HostRuntime) -> io::Result<ExitCode> {
    run(&rt).or_else(|error| {
        eprintln!(rt; "mulantsy: {error}")?;
        Ok(ExitCode::from(NOT_HAD))
    })
}
