//! What the programs share. No contract says what is read from a file or printed.

#![tactic(auto)]

use boards::{Board, Drawing};
use gatefiles::read_file;
use refusals::Failure;
use std::fs;
use std::io::ErrorKind;

/// The bytes of a file; one that is missing reads as empty.
pub fn read_or_empty(rt: &HostRuntime, name: &str) -> anyhow::Result<Vec<u8>> {
    match fs::read(rt, name) {
        Err(error) if error.kind() == ErrorKind::NotFound => Ok(Vec::new(rt.alloc())),
        bytes => Ok(bytes?),
    }
}

/// The board of a gate file.
pub fn read_board(rt: &HostRuntime, file: &[u8]) -> anyhow::Result<Board> {
    let drawing = Drawing::new(rt.alloc())?;
    tell_refusal(rt, read_file(drawing, file).map_err(Failure::from))
}

/// The outcome; a refusal is told by its number, and the error says it in words.
pub fn tell_refusal<T: Drop>(rt: &HostRuntime, outcome: Result<T, Failure>) -> anyhow::Result<T> {
    if let Err(Failure::Refused(refusal)) = &outcome {
        println!(rt; "refused {}", refusal.number())?;
    }
    Ok(outcome?)
}
