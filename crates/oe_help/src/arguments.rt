//! The arguments of each command, in the order in which its help tells them.

use clap::{Arg, ArgAction, value_parser};
use std::alloc::Global;

/// What a word of an argument is.
#[derive(Clone, Copy)]
enum Takes {
    /// There is none: the option is there or not.
    Nothing,
    /// Any word.
    Word,
    /// A number from the first to the second.
    Number(i64, i64),
}

/// Where an argument stands.
#[derive(Clone, Copy)]
enum Place {
    /// Behind this word with `--` before it.
    Behind(&'static str),
    /// In its place, where it has to be.
    Required,
    /// In its place among numbers that have to be there; a minus sign begins one, and no option.
    AmongNumbers,
    /// In its place, where it is there.
    Free,
}

/// An argument: its name in the help, where it stands, what it is, and what the help says of it.
#[derive(Clone, Copy)]
pub(crate) struct Argument {
    name: &'static str,
    place: Place,
    takes: Takes,
    help: &'static str,
}

impl Argument {
    /// Makes the argument of a command's grammar.
    pub(crate) fn made<'a>(&self, alloc: Global) -> Arg<'a> {
        let arg = Arg::new(alloc, self.name).help(self.help);
        let placed = match self.place {
            Place::Behind(long) => arg.long(long),
            Place::Required => arg.required(true),
            Place::AmongNumbers => arg.required(true).allow_negative_numbers(true),
            Place::Free => arg,
        };
        match self.takes {
            Takes::Nothing => placed.action(ArgAction::SetTrue),
            Takes::Word => placed,
            Takes::Number(low, high) => placed.value_parser(value_parser!(u32).range(low..=high)),
        }
    }
}

// An option without a word.
fn flag(name: &'static str, help: &'static str) -> Argument {
    Argument {
        name,
        place: Place::Behind(name),
        takes: Takes::Nothing,
        help,
    }
}

// An option with a word.
fn option(name: &'static str, long: &'static str, takes: Takes, help: &'static str) -> Argument {
    Argument {
        name,
        place: Place::Behind(long),
        takes,
        help,
    }
}

// A number that has to be there.
fn number(name: &'static str, low: i64, high: i64, help: &'static str) -> Argument {
    Argument {
        name,
        place: Place::AmongNumbers,
        takes: Takes::Number(low, high),
        help,
    }
}

// The tables that a command begins on.
fn from(help: &'static str) -> Argument {
    option("DIR", "from", Takes::Word, help)
}

/// Lists the arguments of `script`.
pub(crate) fn of_script() -> [Argument; 5] {
    [
        flag(
            "explain",
            "Says on standard error why lines are answered BadLine",
        ),
        from("Begins with the population in the nine files of a directory"),
        option(
            "E",
            "extents",
            Takes::Number(2, 4_096),
            "Undo extents after --from, 2 to 4096",
        ),
        option(
            "L",
            "layout",
            Takes::Number(1, 2),
            "Layout of undo records after --from, 1 or 2",
        ),
        Argument {
            name: "FILE",
            place: Place::Free,
            takes: Takes::Word,
            help: "The script; without it standard input",
        },
    ]
}

/// Lists the arguments of `serial`.
pub(crate) fn of_serial() -> [Argument; 4] {
    [
        Argument {
            name: "FILE",
            place: Place::Free,
            takes: Takes::Word,
            help: "An opening, and a line for each reply",
        },
        from("Begins with the population in the nine files of a directory"),
        option(
            "DIR2",
            "tables",
            Takes::Word,
            "Compares the tables with the nine files of a directory",
        ),
        flag("csv", "Reads comma-separated values"),
    ]
}

/// Lists the numbers of a population.
pub(crate) fn of_scale() -> [Argument; 3] {
    [
        number("W", 1, 16, "Warehouses, 1 to 16"),
        number("C", 1, 3_000, "Customers in each district, 1 to 3000"),
        number("I", 1, 100_000, "Items, 1 to 100000"),
    ]
}

/// Lists the other numbers of a drive or a load, with at most `most` requests of a terminal.
pub(crate) fn of_turns(most: i64, requests: &'static str) -> [Argument; 4] {
    [
        number("E", 2, 4_096, "Undo extents, 2 to 4096"),
        number("T", 1, 63, "Terminals, 1 to 63"),
        number("N", 1, most, requests),
        number(
            "SEED",
            0,
            4_294_967_295,
            "Makes all requests, 0 to 4294967295",
        ),
    ]
}

/// Lists the options of `drive`.
pub(crate) fn of_drive() -> [Argument; 2] {
    [
        option(
            "FILE",
            "commits",
            Takes::Word,
            "Writes the commits in their order, for serial FILE",
        ),
        flag("busy", "Shows on standard error which locks were busy"),
    ]
}

/// Names the tables that a load begins on, in place of a scale.
pub(crate) fn of_following() -> [Argument; 1] {
    [from("Begins on the tables in the nine files of a directory, for W C I")]
}

/// Lists the options of `load`.
pub(crate) fn of_load() -> [Argument; 5] {
    [
        option(
            "KIND",
            "kinds",
            Takes::Word,
            "Draws these kinds alone: neworder,payment,status,delivery,level",
        ),
        flag(
            "mix",
            "Has 1 in 100 orders ask for an item that is not valid",
        ),
        option(
            "R",
            "first",
            Takes::Number(1, 1_000_000_000),
            "Begins with each terminal's R-th request, 1 to 1000000000",
        ),
        flag("flat", "Prints one request a line, for another engine"),
        flag("busy", "Prints how terminals met in the script"),
    ]
}

/// Lists the arguments of `audit`.
pub(crate) fn of_audit() -> [Argument; 6] {
    [
        Argument {
            name: "SOURCE",
            place: Place::Required,
            takes: Takes::Word,
            help: "The directory of the nine files, or one file, or - for standard input",
        },
        option(
            "DIR2",
            "before",
            Takes::Word,
            "Compares with the nine files of a directory, as they were before",
        ),
        flag("csv", "Reads files of comma-separated values"),
        option(
            "N",
            "first",
            Takes::Number(1, 4_294_967_295),
            "Shows the first N rows of each list",
        ),
        option(
            "ORDERS",
            "initial",
            Takes::Number(0, 4_294_967_295),
            "Each district had as many orders at first",
        ),
        flag("json", "Writes the report as JSON"),
    ]
}
