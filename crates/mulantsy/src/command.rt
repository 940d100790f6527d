// The command line.
use clap::{Arg, ArgAction, Command};
use std::alloc::{AllocError, Global};

// With the line of the toolchain that it is proved with.
const VERSION: &str = "0.2.0, proved with rattle-kit-13f logic dac8208d650f15bf";

const ABOUT: &str =
    "Puts whole turns back into a field of numbers seen without them, at the least cost";

const EXAMPLE: &str = "Example:
  printf 'turn 10\\n0 3 6\\n8 9 7\\nprice 1\\n' | mulantsy unwrap -f json -

`mulantsy --help` says what a text is, and what the statuses are.";

const FORMAT: &str =
    "Options go after the command. A file that is named as a command is, `unwrap` or
`help`, is written ./unwrap or ./help.

The text: lines in any order, ended by LF, CR LF or CR; blanks part words:
  turn 10      how many units a turn has, 2 to 65,536
  0 3 6        a row of what was seen, 0 up to but not a turn: 1 to 64 rows of
               1 to 64 numbers
  price 1      one price for every step, 0 to 1,000; or, without this line, rows
               of prices below what was seen: as many as it is high for the steps
               to the right, then as many for the steps down, as wide as it is
  squares      asks for the signs of the squares: + or - where one is off, else .
  # ..         a comment

Two texts are taken otherwise than they may be meant: where a line `price` is
forgotten and the rows are a multiple of three, the lower two thirds are taken
for prices; and where rows of prices stand beside a line `price`, they are taken
for rows of what was seen.

Numbers of places and of lines in a refusal, as in `refused 2 at 3: ..`, count
from 0, row by row from the upper left, prices down after those to the right. The
line below it, FILE:LINE:COLUMN: WORD, counts from 1, the column in bytes.

Status:
  0  done
  1  refused: the text, or the field in it, is none that can be worked on
  2  not understood or not to be had: the command line, a file, memory
  3  an answer that is no; no command of this version gives one

Example:
  printf 'turn 10\\n0 3 6\\n8 9 7\\nprice 1\\n' | mulantsy";

fn file<'a>(alloc: Global) -> Arg<'a> {
    Arg::new(alloc, "FILE")
        .help("The text; - or none is standard input, and ./unwrap a file of that name")
        .action(ArgAction::Set)
}

fn format<'a>(alloc: Global) -> Arg<'a> {
    Arg::new(alloc, "format")
        .short('f')
        .long("format")
        .value_name("FORMAT")
        .help("rows: heights and cost; json: the same as an object; csv: the heights")
        .value_parser(["rows", "json", "csv"].as_slice())
        .action(ArgAction::Set)
}

fn output<'a>(alloc: Global) -> Arg<'a> {
    Arg::new(alloc, "output")
        .short('o')
        .long("output")
        .value_name("FILE")
        .help("Writes to FILE and not to standard output")
        .action(ArgAction::Set)
}

// A plain PGM picture in place of text: of this and the other the last holds.
fn picture<'a>(
    alloc: Global,
    name: &'a str,
    other: &'a str,
    help: &'a str,
) -> Result<Arg<'a>, AllocError> {
    Arg::new(alloc, name)
        .long(name)
        .help(help)
        .action(ArgAction::SetTrue)
        .overrides_with(other)?
        .conflicts_with("format")
}

// What the command `unwrap` takes, and the program where no command is named.
fn with_options<'a>(alloc: Global, command: Command<'a>) -> Result<Command<'a>, AllocError> {
    command
        .args_override_self(true)
        .arg(format(alloc))?
        .arg(output(alloc))?
        .arg(picture(
            alloc,
            "picture",
            "rings",
            "Prints the heights as a plain PGM picture",
        )?)?
        .arg(picture(
            alloc,
            "rings",
            "picture",
            "Prints what was seen as a plain PGM picture",
        )?)?
        .arg(file(alloc))
}

/// The command line of the program.
pub fn command<'a>(alloc: Global) -> Result<Command<'a>, AllocError> {
    let unwrap = Command::new(alloc, "unwrap")
        .about("Prints the heights and what they cost; so it does without a command")
        .after_help(EXAMPLE);
    let program = Command::new(alloc, "mulantsy")
        .bin_name("mulantsy")?
        .version(VERSION)
        .about(ABOUT)
        .after_help(FORMAT)
        .args_conflicts_with_subcommands(true);
    with_options(alloc, program)?.subcommand(with_options(alloc, unwrap)?)
}
