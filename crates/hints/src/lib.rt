//! The line check: whether a line of literals follows from numbered clauses by its hints.

#![tactic(auto)]

ghost use Rattle.std.specs.Prelude.{◌≡◌, ◌-◌, true, length, replicate, if◌then◌else◌, Some, Ok, Err, nat_le};
ghost use Rattle.std.specs.Option.{option_map};
ghost use Rattle.refusals.specs.declared.Refusal.TheVariants.{Buffer};
ghost use Rattle.clauses.specs.Clauses.{clause_literal, variable as variable_of};
ghost use Rattle.hints.specs.Bytes.{mark_of, marks_of, signed, cleared};
ghost use Rattle.hints.specs.Hints.{falsified, names as names_of, fits as fits_of, all_fit as all_fit_of, weighed, joined, reading as reading_of, by_hints, screened};
ghost use Rattle.hints.specs.declared.Reading.TheVariants.{Conflict as ReadingConflict};

use clauses::ClauseSource;
use refusals::Refusal;

/// What a clause says under the marks.
// Three outcomes, none of which is a refusal by itself.
#[derive(Clone, Copy, PartialEq, Eq, Debug)]
pub enum Reading {
    /// All its literals are false.
    Conflict,
    /// One literal, perhaps repeated, is unset, and the others are false.
    Forced(i32),
    /// Neither.
    Slack,
}

impl Reading {
    /// The reading with one more literal of the clause, which has a value or none.
    fn with(self, literal: i32, value: Option<bool>) -> Reading
        ensures { result ≡ weighed self literal value }
    {
        match (self, value) {
            (_, Some(false)) => self,
            (Reading::Conflict, None) => Reading::Forced(literal),
            (Reading::Forced(other), None) if other == literal => self,
            _ => Reading::Slack,
        }
    }
}

// A mark is lent as a byte: one of these two, or another where the variable is unset.
const TRUE: u8 = 1;

const FALSE: u8 = 2;

/// Lent marks, one for each variable, that are cleared on every way out.
// What works on marks takes the bytes: a method would have to say each time that the struct keeps its reference and its length.
struct Marks<'a> {
    bytes: &'a mut [u8],
}

impl Drop for Marks<'_> {
    fn drop(self)
        ensures { self.exit.0.now ≡ replicate (length self.entry.bytes.now) 0 }
    {
        self.bytes.fill(0);
        let Marks { bytes: _ } = self;
    }
}

/// Is the literal one of so many variables, or its negative?
fn names(variables: usize, literal: i32) -> bool
    ensures { result ≡ names_of variables literal }
{
    let variable = literal.unsigned_abs() as usize;
    (1..=variables).contains(&variable)
}

/// Where the mark of a literal's variable stands.
fn place(literal: i32) -> usize
    ensures { result ≡ variable_of literal - 1 }
{
    literal.unsigned_abs().saturating_sub(1) as usize
}

/// The value of a literal under the mark of its variable, if it has one.
fn value(mark: u8, literal: i32) -> Option<bool>
    ensures { result ≡ option_map (signed literal) (mark_of mark) }
{
    match mark {
        TRUE => Some(literal >= 0),
        FALSE => Some(literal < 0),
        _ => None,
    }
}

/// The mark of a literal's variable under which the literal is true or false.
fn mark(literal: i32, to: bool) -> u8
    ensures { mark_of result ≡ Some (signed literal to) }
{
    if to == (literal < 0) { FALSE } else { TRUE }
}

/// Reads one more literal of a clause, if there is one.
// Source and marks apart, and `steady` in each clause: it relates a source before and after, which no type can hold.
fn read_literal<C: ClauseSource>(
    source: &mut C,
    marks: &[u8],
    number: u32,
    at: usize,
    so_far: Reading,
) -> Option<Reading>
    ensures answer { result ≡ option_map (joined (length marks.now) (marks_of marks.now) so_far) (clause_literal (C.clauses source.old number) at) }
    ensures steady { C.steady source.old source.new }
{
    let literal = source.literal(number, at)?;
    if !names(marks.len(), literal) {
        return Some(Reading::Slack);
    }
    Some(so_far.with(literal, value(marks[place(literal)], literal)))
}

/// What the clause of a number says under the marks, if there is one. A slack clause is not read to its end.
fn read_clause<C: ClauseSource>(source: &mut C, marks: &[u8], number: u32) -> Option<Reading>
    ensures answer { result ≡ option_map (reading_of (length marks.now) (marks_of marks.now) ReadingConflict) (C.clauses source.old number) }
    ensures steady { C.steady source.old source.new }
{
    let length = source.length(number)?;
    let mut reading = Reading::Conflict;
    // By place: a source is asked for one literal at a time.
    for at in 0..length {
        reading = read_literal(source, marks, number, at, reading)?;
        if reading == Reading::Slack {
            break;
        }
    }
    Some(reading)
}

/// Takes the hints in order, and marks what each one forces.
fn take_hints<C: ClauseSource>(
    source: &mut C,
    marks: &mut [u8],
    hints: &[u32],
) -> Result<(), Refusal>
    ensures answer { result ≡ by_hints (length marks.old) (C.clauses source.old) (marks_of marks.old) hints.now }
    ensures steady { C.steady source.old source.new }
{
    for &number in hints {
        match read_clause(source, marks, number).ok_or(Refusal::Absent)? {
            Reading::Conflict => return Ok(()),
            Reading::Forced(literal) => marks[place(literal)] = mark(literal, true),
            Reading::Slack => return Err(Refusal::Slack),
        }
    }
    Err(Refusal::Loose)
}

/// May a line over so many variables have the literal?
fn fits(variables: usize, literal: i32) -> bool
    ensures { result ≡ fits_of variables literal }
{
    // The lowest number has no negative.
    names(variables, literal) && literal != i32::MIN
}

fn all_fit(variables: usize, literals: &[i32]) -> bool
    ensures { result ≡ all_fit_of variables literals.now }
{
    literals.iter().all(|literal| fits(variables, *literal))
}

/// Makes each literal false, if that can be done: not where two are opposite.
// No `Result`: two opposite literals are no refusal, the line follows then.
fn falsify(marks: &mut [u8], literals: &[i32]) -> Option<()>
    requires { all_fit_of (length marks.old) literals.now ≡ true }
    ensures { falsified (marks_of marks.old) literals.now ≡ option_map (λ _. marks_of marks.new) result }
{
    for &literal in literals {
        let at = place(literal);
        if value(marks[at], literal) == Some(true) {
            return None;
        }
        marks[at] = mark(literal, false);
    }
    Some(())
}

/// Checks a line with one mark for each variable.
fn judge<C: ClauseSource>(
    source: &mut C,
    marks: &mut [u8],
    literals: &[i32],
    hints: &[u32],
) -> Result<(), Refusal>
    ensures answer { result ≡ screened (length marks.old) (C.clauses source.old) literals.now hints.now }
    ensures marks { marks.new ≡ replicate (length marks.old) 0 }
    ensures steady { C.steady source.old source.new }
{
    marks.fill(0);
    let guard = Marks { bytes: marks };
    if !all_fit(guard.bytes.len(), literals) {
        return Err(Refusal::Literal);
    }
    match falsify(guard.bytes, literals) {
        None => Ok(()),
        Some(()) => take_hints(source, guard.bytes, hints),
    }
}

/// Does the line follow, by its hints in order, from the clauses of the source?
///
/// The marks are lent, one byte for each variable, whatever they hold. Where there are enough, the first `variables` of them are
/// 0 afterwards, whatever the answer; where there are fewer, they are left as they are.
pub fn check_line<C: ClauseSource>(
    source: &mut C,
    marks: &mut [u8],
    variables: usize,
    literals: &[i32],
    hints: &[u32],
) -> Result<(), Refusal>
    ensures answer { result ≡ (if nat_le variables (length marks.old) then screened variables (C.clauses source.old) literals.now hints.now else Err Buffer) }
    ensures marks { marks.new ≡ cleared variables marks.old }
    ensures steady { C.steady source.old source.new }
{
    if marks.len() < variables {
        return Err(Refusal::Buffer);
    }
    // By range: of a part lent by `get_mut` it is not known what the marks hold afterwards.
    judge(source, &mut marks[..variables], literals, hints)
}

/// Clears the marks of the variables, if there are enough.
pub fn clear(marks: &mut [u8], variables: usize) -> Result<(), Refusal>
    ensures answer { result ≡ (if nat_le variables (length marks.old) then Ok tt else Err Buffer) }
    ensures marks { marks.new ≡ cleared variables marks.old }
{
    if variables > marks.len() {
        return Err(Refusal::Buffer);
    }
    // By range: of a part lent by `get_mut` it is not known what the marks hold afterwards.
    marks[..variables].fill(0);
    Ok(())
}
