ghost use Rattle.std.specs.Prelude.{◌≡◌};
ghost use Rattle.std.specs.Option.{option_map};
ghost use Rattle.gates.specs.Records.{first_record, gate_in, Recorded};

use crate::gate::Gate;

/// The record that the bytes begin with, and the bytes after it.
// By the numbers of the format: a file has them, and no code beside what reads and writes files.
pub fn take_record(bytes: &[u8]) -> Option<(Gate, &[u8])>
    ensures { option_map (λ x. (x.0, x.1.now)) result ≡ first_record bytes.now }
{
    match bytes {
        [0, rest @ ..] => Some((Gate::Input, rest)),
        [1, rest @ ..] => Some((Gate::Zero, rest)),
        [2, rest @ ..] => Some((Gate::One, rest)),
        [3, y, rest @ ..] => Some((Gate::Copy(*y), rest)),
        [4, y, rest @ ..] => Some((Gate::Not(*y), rest)),
        [5, y, z, rest @ ..] => Some((Gate::And(*y, *z), rest)),
        [6, y, z, rest @ ..] => Some((Gate::Or(*y, *z), rest)),
        [7, y, z, rest @ ..] => Some((Gate::Implies(*y, *z), rest)),
        [8, y, z, rest @ ..] => Some((Gate::Xor(*y, *z), rest)),
        [9, y, rest @ ..] => Some((Gate::Register(*y), rest)),
        _ => None,
    }
}

/// The gate of bytes that are exactly one record.
// An `Option` and no `TryFrom`: the one way to fail needs no error type, and the refusals are of a crate that this one lacks.
pub fn read_record(bytes: &[u8]) -> Option<Gate>
    ensures value { result ≡ gate_in bytes.now }
    ensures law { Recorded bytes.now result }
{
    match take_record(bytes)? {
        (gate, []) => Some(gate),
        _ => None,
    }
}
