ghost use Rattle.std.specs.Prelude.{◌≡◌, ℕ, ◌≢◌, [], MatchOption, MatchResult};
ghost use Rattle.boards.specs.Sheets.{drawn, sheet, sheet_of};
ghost use Rattle.gatefiles.specs.Files.{ending as ending_of, file_of, Misread, Read, Reread};

use crate::write::ENDING;
use boards::{Board, Drawing, Unclosed};
use gates::records::take_record;
use refusals::Refusal;

/// What stands behind the records of a gate file.
#[derive(Clone, Copy)]
struct Ending {
    property: u8,
    depth: u8,
}

fn read_ending(bytes: &[u8]) -> Option<Ending>
    ensures { MatchOption result ((p d : ℕ) → bytes.now ≢ ending_of p d) (λ e. bytes.now ≡ ending_of e.property e.depth) }
{
    match bytes {
        [ENDING, property, depth] => Some(Ending {
            property: *property,
            depth: *depth,
        }),
        _ => None,
    }
}

/// Draws the wires of a gate file in place of those drawn so far.
fn draw_file(drawing: &mut Drawing, file: &[u8]) -> Result<Ending, Refusal>
    ensures { MatchResult result
        (λ e. file.now ≡ file_of (sheet_of (drawn drawing.new) e.property e.depth))
        (λ e. Misread file.now e) }
{
    drawing.clear();
    let mut rest = file;
    // Once there is no room, there is none for a later record: the last answer tells.
    let mut room = Ok(());
    'records: while let Some((gate, next)) = take_record(rest) {
        room = drawing.add_gate(gate);
        rest = next;
    }
    // The form is judged before the number of records.
    let ending = read_ending(rest).ok_or(Refusal::Record)?;
    room?;
    Ok(ending)
}

/// Draws a gate file in place of the wires drawn so far and closes it, or hands the drawing back with what was drawn.
fn close_file(mut drawing: Drawing, file: &[u8]) -> Result<Board, Unclosed>
    ensures { MatchResult result (λ b. file.now ≡ file_of (sheet b)) (λ u. Misread file.now u.refusal) }
{
    match draw_file(&mut drawing, file) {
        Ok(ending) => drawing.close(ending.property, ending.depth),
        Err(refusal) => Err(Unclosed { drawing, refusal }),
    }
}

/// The refused drawing without its wires.
fn cleared(mut unclosed: Unclosed) -> Unclosed
    ensures wires { drawn result.drawing ≡ [] }
    ensures refusal { result.refusal ≡ unclosed.refusal }
{
    unclosed.drawing.clear();
    unclosed
}

/// Reads a whole gate file into a drawing that has no wires yet, and closes it; or hands the drawing back.
pub fn read_file(drawing: Drawing, file: &[u8]) -> Result<Board, Unclosed>
    ensures read { Read (drawn drawing) file.now result }
    ensures again { Reread (drawn drawing) file.now result }
{
    if drawing.wires() > 0 {
        return Err(Unclosed {
            drawing,
            refusal: Refusal::Stage,
        });
    }
    close_file(drawing, file).map_err(cleared)
}
