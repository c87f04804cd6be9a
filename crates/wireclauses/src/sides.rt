ghost use Rattle.std.specs.Prelude.{◌≡◌, ℕ, ◌+◌, ◌*◌, ◌≤◌, Bool, ◌∷◌, length};
ghost use Rattle.values.specs.Sides.{Rail as SpecRail};
ghost use Rattle.formulas.specs.Kinds.{starts};
ghost use Rattle.formulas.specs.Drives.{register, drive as spec_drive};
ghost use Rattle.formulas.specs.Formulas.{equation, apart, driven};
ghost use Rattle.wireclauses.specs.Sides.{right_of, drive_of};
ghost use Rattle.wireclauses.specs.Sizes.{right_size, plain_size, register_size, one_if};

use formulas::FormulaKind;
use gates::Gate;

/// A rail of a wire: rail 0 is up where the wire is 0, rail 1 where it is 1.
#[derive(Clone, Copy)]
pub enum Rail {
    Rail0(u8),
    Rail1(u8),
}

/// The right side of a rail's equation.
#[derive(Clone, Copy)]
pub enum Right {
    Fixed(bool),
    Same(Rail),
    Either(Rail, Rail),
    Both(Rail, Rail),
    TwoBoths(Rail, Rail, Rail, Rail),
}

/// What drives a wire: a row of inputs, a source in the frame before, or the right sides of its two rails.
#[derive(Clone, Copy)]
pub enum Drive {
    Input,
    Register(u8),
    Settled(Right, Right),
}

/// What drives a wire with this gate.
pub(crate) fn gate_drive(gate: Gate) -> Drive
    ensures { drive_of result ≡ spec_drive gate }
{
    match gate {
        Gate::Input => Drive::Input,
        Gate::Zero => Drive::Settled(Right::Fixed(true), Right::Fixed(false)),
        Gate::One => Drive::Settled(Right::Fixed(false), Right::Fixed(true)),
        Gate::Copy(y) => Drive::Settled(Right::Same(Rail::Rail0(y)), Right::Same(Rail::Rail1(y))),
        Gate::Not(y) => Drive::Settled(Right::Same(Rail::Rail1(y)), Right::Same(Rail::Rail0(y))),
        Gate::And(y, z) => Drive::Settled(
            Right::Either(Rail::Rail0(y), Rail::Rail0(z)),
            Right::Both(Rail::Rail1(y), Rail::Rail1(z)),
        ),
        Gate::Or(y, z) => Drive::Settled(
            Right::Both(Rail::Rail0(y), Rail::Rail0(z)),
            Right::Either(Rail::Rail1(y), Rail::Rail1(z)),
        ),
        Gate::Implies(y, z) => Drive::Settled(
            Right::Both(Rail::Rail1(y), Rail::Rail0(z)),
            Right::Either(Rail::Rail0(y), Rail::Rail1(z)),
        ),
        Gate::Xor(y, z) => Drive::Settled(
            Right::TwoBoths(
                Rail::Rail0(y),
                Rail::Rail0(z),
                Rail::Rail1(y),
                Rail::Rail1(z),
            ),
            Right::TwoBoths(
                Rail::Rail0(y),
                Rail::Rail1(z),
                Rail::Rail1(y),
                Rail::Rail0(z),
            ),
        ),
        Gate::Register(y) => Drive::Register(y),
    }
}

/// How many clauses the equation of a rail with this right side has.
pub(crate) fn right_size(right: Right) -> usize
    ensures is { result ≡ right_size (right_of right) }
    ensures small { result ≤ 6 }
    ensures counts { (x : SpecRail ℕ → ℕ) (a : ℕ) → result ≡ length (equation x a (right_of right)) }
{
    match right {
        Right::Fixed(_) => 1,
        Right::Same(_) => 2,
        Right::Either(_, _) | Right::Both(_, _) => 3,
        Right::TwoBoths(_, _, _, _) => 6,
    }
}

/// How many clauses a wire has in a frame; 0 for a register, whose clauses differ from frame to frame.
pub fn plain_size(gate: Gate) -> u16
    ensures is { result ≡ plain_size (spec_drive gate) }
    ensures small { result ≤ 13 }
    ensures counts { (starts : Bool) (n i w : ℕ) → length (apart n i w ∷ driven starts n i w (spec_drive gate)) ≡ result + register_size starts i * one_if (spec_drive gate) }
{
    match gate_drive(gate) {
        Drive::Input => 2,
        Drive::Register(_) => 0,
        Drive::Settled(r, s) => (1 + right_size(r) + right_size(s)) as u16,
    }
}

/// How many clauses a register has in a frame with so many before it.
pub fn register_size(kind: FormulaKind, before: usize) -> usize
    ensures is { result ≡ register_size (starts kind) before }
    ensures small { result ≤ 4 }
    ensures counts { (n w y : ℕ) → result ≡ length (apart n before w ∷ driven (starts kind) n before w (register y)) }
{
    if before > 0 {
        return 4;
    }
    match kind {
        FormulaKind::Base => 3,
        FormulaKind::Step => 2,
    }
}
