ghost use Rattle.std.specs.Prelude.{length, MatchOption};
ghost use Rattle.values.specs.Single.{single};
ghost use Rattle.solutions.specs.Solutions.{reads};
ghost use Rattle.runs.specs.Faults.{Fault, Faultless};

use values::Value;

/// What is wrong with a frame: its lowest undefined wire, or the property wire where that is not 1.
pub fn find_fault(frame: &[Value], property: usize) -> Option<usize>
    ensures { MatchOption result
        (Faultless (length frame.now) property (reads single frame.now))
        (λ w. Fault (length frame.now) property (reads single frame.now) w) }
{
    let undefined = frame.iter().position(|value| *value == Value::Undefined);
    if let Some(wire) = undefined {
        return Some(wire);
    }
    match frame.get(property) {
        Some(Value::One) => None,
        _ => Some(property),
    }
}
