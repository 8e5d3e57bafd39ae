//! Reads blobs of arrays and expressions from files and writes them again, and makes tables.
#![tactic(auto)]

use std::alloc::Global;
use std::process::ExitCode;
use std::{env, io};
use vx_types::{Name, TypeError};
use vxcat_core::run;
use vxcat_store::{DirStore, Output};

// The status for an allocation that failed while the words are read.
const OUT_OF_MEMORY: u8 = 1;

// The status for words that are no command, or that are not UTF-8.
const NO_COMMAND: u8 = 2;

// The status for a text that could not be printed.
const WRITE_FAULT: u8 = 5;

const HELP: &str =
    "vxcat reads the blob of an array, or an expression, from a file and writes it again, or makes a table.

vxcat recode TYPE BLOB LEN IDS OUT OUTIDS [--pad OFFSET] [--rows N] [--allow FILE] [--unknown] [--deep] [--rev2]
    TYPE      a file with the logical type, as a table message
    BLOB      a file with the blob
    LEN       the number of rows
    IDS       a file with the identifiers of the blob's encodings, one a line
    OUT       the file for the new blob
    OUTIDS    the file for its identifiers
    --pad     write pads, as at this position
    --rows    list so many rows, at most 1000, in the place of 10
    --allow   write with the identifiers of this file alone, one a line
    --unknown allow unknown encodings and unknown extensions
    --deep    allow 126 levels of nodes, in the place of 62
    --rev2    read and write primitives under two identifiers
vxcat expr FILE
    FILE      a file with an expression, as a tagged message
vxcat make SEED ROWS TYPE OUT IDS
    SEED      the number that the table is drawn from, below 2^64
    ROWS      the number of rows, at most 1000000
    TYPE      the file for the table's type, as a table message
    OUT       the file for its blob
    IDS       the file for the identifiers of the blob's encodings, one a line
vxcat --help
vxcat --version
";

const VERSION: &str = "vxcat 0.1.0\n";

// The text for a word that asks for no command: `--help` or `--version`.
fn answer(word: &str) -> Option<&'static str> {
    match word {
        "--help" => Some(HELP),
        "--version" => Some(VERSION),
        _ => None,
    }
}

fn print(rt: &impl Print, text: &str) -> ExitCode {
    match rt.print(text) {
        Ok(()) => ExitCode::SUCCESS,
        Err(_) => ExitCode::from(WRITE_FAULT),
    }
}

// The words after the program's name.
fn words(alloc: Global, args: env::Args) -> Result<Vec<Name>, TypeError> {
    let mut words = Vec::new(alloc);
    for word in args.skip(1) {
        words.push(Name::new(alloc, word.as_str())?)?;
    }
    Ok(words)
}

fn main(rt: HostRuntime) -> ExitCode {
    let alloc = rt.alloc();
    let args = match env::args(&rt) {
        Ok(args) => args,
        Err(error) if error.kind() == io::ErrorKind::OutOfMemory => {
            return ExitCode::from(OUT_OF_MEMORY);
        }
        Err(_) => return ExitCode::from(NO_COMMAND),
    };
    let Ok(words) = words(alloc, args) else {
        return ExitCode::from(OUT_OF_MEMORY);
    };
    if let [word] = words.as_slice()
        && let Some(text) = answer(word.as_str())
    {
        return print(&rt, text);
    }
    let mut store = DirStore::new(alloc, &rt);
    let mut out = Output::new(io::writer(&rt));
    ExitCode::from(run(alloc, words.as_slice(), &mut store, &mut out))
}
