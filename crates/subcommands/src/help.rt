// What the words of the program mean.
use crate::Subcommand;
use crate::lines::ended;
use std::rt::Stderr;
use terminal::console::Console;
use terminal::errors::complain;
use terminal::output::{nothing_yet, print};
use terminal::status::Status;

// Some words on standard output, and the status.
fn printed(console: Console, words: &[u8]) -> Status {
    ended(print(nothing_yet(console), words), false)
}

// The version, as the file VERSION has it.
pub fn print_version(console: Console) -> Status {
    printed(console, b"pinarewhemi 0.1.0\n")
}

// What there is.
fn help_of_all(console: Console) -> Status {
    printed(
        console,
        b"pinarewhemi: right-angled figures into rectangular shots for a mask writer\n\
\n\
\x20\x20pinarewhemi fracture FILE [--largest M] [--pinwheels]   the shots of every figure\n\
\x20\x20pinarewhemi picture FILE K [--pinwheels] > SVG          figure K and its shots, drawn\n\
\x20\x20pinarewhemi walk [JOB K EDGE]                           one edge of figure K, and the shots that it ends up on\n\
\x20\x20pinarewhemi pack DRAWING > JOB                          a text drawing into a job\n\
\x20\x20pinarewhemi list JOB > DRAWING                          a job as a text drawing\n\
\x20\x20pinarewhemi cif FILE K > TEXT                           the shots of figure K for a viewer\n\
\x20\x20pinarewhemi gdsii ELEMENT                               the shots of one boundary element of a GDSII stream\n\
\x20\x20pinarewhemi index FILE                                  where each outline of a job starts\n\
\x20\x20pinarewhemi salvage [JOB] > SOUND                       what is left of a broken job\n\
\x20\x20pinarewhemi SUBCOMMAND --help                           more of one of them\n\
\x20\x20pinarewhemi --version\n\
\n\
FILE is a job or a text drawing, JOB a job alone; - is standard input. Figures and edges are numbered from 0.\n\
Status: 0 done; 1 something was refused, and standard error says why; 2 reading or writing failed, or the words\n\
ask for nothing that there is.\n",
    )
}

fn help_of_fracture(console: Console) -> Status {
    printed(
        console,
        b"pinarewhemi fracture FILE [--largest M] [--pinwheels]\n\
\n\
Fractures every figure of a job or of a text drawing by its rule, and prints for each\n\
\x20\x20outline K shots N cost C sliver S\n\
and N lines of four numbers in nm: x low, y low, x high, y high. A refused figure is `outline K refused N`, and\n\
standard error says why.\n\
\x20\x20--largest M    each shot is divided so that no side is longer than M nm: 200 or twice the threshold, to 65535\n\
\x20\x20--pinwheels    a piece may also fall into four arms around an inner piece; no figure costs more so\n",
    )
}

fn help_of_picture(console: Console) -> Status {
    printed(
        console,
        b"pinarewhemi picture FILE K [--pinwheels] > SVG\n\
\n\
Draws figure K of a job or of a text drawing: the figure, its shots with their numbers, the cuts in their order,\n\
the charged sides of slivers in red, a scale, and shots, cost and sliver.\n",
    )
}

fn help_of_walk(console: Console) -> Status {
    printed(
        console,
        b"pinarewhemi walk JOB K EDGE\n\
\n\
The way of one edge of figure K of a job, from the bytes of the job to the shots that it ends up on, step by step.\n\
JOB is a job, as pinarewhemi pack makes one of a text drawing; - is standard input.\n\
pinarewhemi walk alone prints the walk over drawing B in numbers. docs/WALK.md tells what it shows.\n",
    )
}

fn help_of_pack(console: Console) -> Status {
    printed(
        console,
        b"pinarewhemi pack DRAWING > JOB\n\
\n\
Packs a text drawing into a job. A drawing is a line `rule THRESHOLD WEIGHT`; then for each figure a line `figure`,\n\
for each ring of it a line `ring`, and for each corner a line `X Y` in nm. # begins a comment. A bad line is told by\n\
its number.\n\
\x20\x20rule 25 40\n\
\x20\x20figure\n\
\x20\x20ring\n\
\x20\x200 0\n\
\x20\x2060 0\n\
\x20\x2060 80\n\
\x20\x200 80\n",
    )
}

fn help_of_list(console: Console) -> Status {
    printed(
        console,
        b"pinarewhemi list JOB > DRAWING\n\
\n\
Prints a job as a text drawing; packing that gives the job's bytes again.\n",
    )
}

fn help_of_cif(console: Console) -> Status {
    printed(
        console,
        b"pinarewhemi cif FILE K > TEXT\n\
\n\
Writes the shots of figure K of a job or of a text drawing as a CIF text, which layout viewers read.\n",
    )
}

fn help_of_gdsii(console: Console) -> Status {
    printed(
        console,
        b"pinarewhemi gdsii ELEMENT\n\
\n\
Fractures one boundary element of a GDSII stream, BOUNDARY to ENDEL, by preset 0 (25 nm, 40), and prints\n\
\x20\x20element shift X Y shots N cost C sliver S\n\
and N shots; the shift plus a shot is where it lies in the stream.\n",
    )
}

fn help_of_index(console: Console) -> Status {
    printed(
        console,
        b"pinarewhemi index FILE\n\
\n\
Prints the byte at which each outline of a job starts; of a text drawing, in the job that pack makes of it.\n",
    )
}

fn help_of_salvage(console: Console) -> Status {
    printed(
        console,
        b"pinarewhemi salvage [JOB] > SOUND\n\
\n\
Keeps the outlines of a broken job before its first fault, as a sound job; standard error says how many outlines were\n\
kept and lost, and how many bytes dropped. Status 0 where nothing was lost, 1 where something was.\n",
    )
}

// The help of a subcommand, or of all.
pub fn print_help(console: Console, which: Subcommand) -> Status {
    match which {
        Subcommand::Fracture => help_of_fracture(console),
        Subcommand::Picture => help_of_picture(console),
        Subcommand::Walk => help_of_walk(console),
        Subcommand::Pack => help_of_pack(console),
        Subcommand::List => help_of_list(console),
        Subcommand::Cif => help_of_cif(console),
        Subcommand::Gdsii => help_of_gdsii(console),
        Subcommand::Index => help_of_index(console),
        Subcommand::Salvage => help_of_salvage(console),
        Subcommand::Help | Subcommand::Version => help_of_all(console),
    }
}

// One line on standard error where there is no such subcommand.
pub fn complain_unknown(err: Stderr) -> Status {
    complain(
        err,
        b"pinarewhemi: there is no such subcommand; pinarewhemi --help lists them\n",
    )
}

// The same for a subcommand that has too few words or too many.
pub fn complain_of_words(err: Stderr) -> Status {
    complain(
        err,
        b"pinarewhemi: words are missing, or there are too many; pinarewhemi SUBCOMMAND --help says which are wanted\n",
    )
}
