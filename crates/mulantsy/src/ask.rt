// What is asked for.
ghost use Rattle.std.specs.Prelude.{◌≡◌};
ghost use Rattle.mulantsy.specs.Ask.{view_of};

use clap::ArgMatches;
use report::{Form, View};

/// What is shown of which file, and where it goes; None for standard input and output.
#[derive(Clone, Copy)]
pub struct Ask<'a> {
    pub view: View,
    pub file: Option<&'a str>,
    pub output: Option<&'a str>,
}

// What is shown by these options.
fn view_of(rings: bool, picture: bool, format: &str) -> View
    ensures { result ≡ view_of rings picture format.now }
{
    if rings {
        return View::Rings;
    }
    if picture {
        return View::Heights(Form::Picture);
    }
    match format {
        "json" => View::Heights(Form::Json),
        "csv" => View::Heights(Form::Csv),
        _ => View::Heights(Form::Rows),
    }
}

// A file's name, of which `-` stands for standard input or output.
fn named<'a>(name: Option<&'a str>) -> Option<&'a str> {
    match name {
        Some("-") => None,
        _ => name,
    }
}

impl<'a> Ask<'a> {
    /// Whether what is said is to be JSON.
    pub fn is_json(&self) -> bool {
        self.view == View::Heights(Form::Json)
    }

    /// What a command line that was understood asks for.
    pub fn of(matches: &ArgMatches<'a>) -> Ask<'a> {
        Ask {
            view: view_of(
                matches.get_flag("rings"),
                matches.get_flag("picture"),
                matches.get_str("format").unwrap_or("rows"),
            ),
            file: named(matches.get_str("FILE")),
            output: named(matches.get_str("output")),
        }
    }
}
