// What people do with figures, a subcommand for each; `pinarewhemi --help` lists them.
#![tactic(auto)]

mod chosen;
mod elements;
mod fracturing;
mod help;
mod lines;
mod offsets;
mod options;
mod packing;
mod pictures;
mod salvages;
mod sources;
mod texts;

use elements::element_words;
use fracturing::fracture_words;
use help::{complain_of_words, complain_unknown, print_help, print_version};
use offsets::offset_words;
use packing::{list_words, pack_words};
use pictures::picture_words;
use salvages::salvage_words;
use terminal::arguments::is_argument;
use terminal::host::Host;
use terminal::status::Status;
use texts::text_words;
use walking::walk_within;

// The subcommands.
#[derive(Clone, Copy, PartialEq, Eq)]
pub enum Subcommand {
    Fracture,
    Picture,
    Walk,
    Pack,
    List,
    Cif,
    Gdsii,
    Index,
    Salvage,
    Help,
    Version,
}

impl Subcommand {
    // The subcommand of a word; none where there is none of that name.
    fn named(word: &[u8]) -> Option<Subcommand> {
        match word {
            b"fracture" => Some(Subcommand::Fracture),
            b"picture" => Some(Subcommand::Picture),
            b"walk" => Some(Subcommand::Walk),
            b"pack" => Some(Subcommand::Pack),
            b"list" => Some(Subcommand::List),
            b"cif" => Some(Subcommand::Cif),
            b"gdsii" => Some(Subcommand::Gdsii),
            b"index" => Some(Subcommand::Index),
            b"salvage" => Some(Subcommand::Salvage),
            b"--help" | b"-h" | b"help" => Some(Subcommand::Help),
            b"--version" => Some(Subcommand::Version),
            _ => None,
        }
    }

    // Whether it takes so many words, its own name and the program's among them.
    fn takes(self, words: usize) -> bool {
        match self {
            Subcommand::Fracture => 3 <= words,
            Subcommand::Picture => 4 <= words,
            Subcommand::Cif => words == 4,
            Subcommand::Pack | Subcommand::List | Subcommand::Gdsii | Subcommand::Index => {
                words == 3
            }
            Subcommand::Salvage => words <= 3,
            Subcommand::Walk | Subcommand::Help | Subcommand::Version => true,
        }
    }

    // Its run: the status, or that of what stopped it, which was told.
    fn run<H: Host>(self, host: &H, words: usize) -> Result<Status, Status> {
        match self {
            Subcommand::Fracture => fracture_words(host, words),
            Subcommand::Picture => picture_words(host, words),
            Subcommand::Walk => Ok(walk_within(host)),
            Subcommand::Pack => pack_words(host),
            Subcommand::List => list_words(host),
            Subcommand::Cif => text_words(host),
            Subcommand::Gdsii => element_words(host),
            Subcommand::Index => offset_words(host),
            Subcommand::Salvage => salvage_words(host, words),
            Subcommand::Version => Ok(print_version(host.console())),
            Subcommand::Help => Ok(print_help(host.console(), self)),
        }
    }
}

// The subcommand that word 1 names.
fn named<H: Host>(host: &H) -> Option<Subcommand> {
    let mut word = [0u8; 16];
    let length = host.word(1, &mut word)?;
    Subcommand::named(&word[..length])
}

// The whole run, with its status.
pub fn pw_pinarewhemi<H: Host>(host: &H) -> Status {
    let console = host.console();
    let words = host.word_count();
    if words < 2 {
        return print_help(console, Subcommand::Help);
    }
    let Some(which) = named(host) else {
        return complain_unknown(console.err);
    };
    if is_argument(host, 2, b"--help") {
        return print_help(console, which);
    }
    if !which.takes(words) {
        return complain_of_words(console.err);
    }
    match which.run(host, words) {
        Ok(status) | Err(status) => status,
    }
}
