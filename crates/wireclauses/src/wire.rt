ghost use Rattle.std.specs.Prelude.{◌≡◌, ◌+◌, ◌*◌, ◌≤◌, ◌∷◌, ◌++◌};
ghost use Rattle.std.specs.Option.{option_map};
ghost use Rattle.std.specs.List.{slice_get};
ghost use Rattle.values.specs.Sides.{rail0 as rail_a, rail1 as rail_b};
ghost use Rattle.formulas.specs.Kinds.{starts};
ghost use Rattle.formulas.specs.Drives.{drive as spec_drive};
ghost use Rattle.formulas.specs.Formulas.{rail_var, equation as equation_of, held as held_of, apart, defined, driven as driven_of};
ghost use Rattle.wireclauses.specs.Literals.{few_of};
ghost use Rattle.wireclauses.specs.Sides.{rail_of, right_of, drive_of, fixed_clauses, same_clauses, either_clauses, both_clauses, two_boths_clauses};

use crate::frame::Frame;
use crate::literals::{Few, Literal};
use crate::sides::{Drive, Rail, Right, gate_drive, right_size};
use formulas::FormulaKind;
use gates::Gate;

impl Frame {
    /// The variable of a wire's rail 0; that of its rail 1 is the next.
    pub fn rail0(self, wire: u8) -> u16
        ensures is { result ≡ rail_var self.wires self.before (rail_a wire) }
        ensures small { result ≤ 5000 }
    {
        (2 * (self.wires * self.before) + 2 * wire as usize) as u16
    }

    /// The variable of a rail.
    pub fn rail(self, rail: Rail) -> u16
        ensures { result ≡ rail_var self.wires self.before (rail_of rail) }
    {
        match rail {
            Rail::Rail0(wire) => self.rail0(wire),
            Rail::Rail1(wire) => self.rail0(wire) + 1,
        }
    }

    /// The clause that not both rails of a wire are up.
    pub fn apart(self, wire: u8) -> Few
        ensures { few_of result ≡ apart self.wires self.before wire }
    {
        // As `defined`, with the signs turned.
        let a = self.rail0(wire);
        Few::Two(Literal::Minus(a), Literal::Minus(a + 1))
    }

    /// The clause that a wire is defined: that some rail of it is up.
    pub fn defined(self, wire: u8) -> Few
        ensures { few_of result ≡ defined self.wires self.before wire }
    {
        let a = self.rail0(wire);
        Few::Two(Literal::Plus(a), Literal::Plus(a + 1))
    }
}

// The clause at place j of a = t; of a = b; of a = b or c; of a = b and c; of a = (b and c) or (e and f). Only the one that is
// asked for is made. `either` and `both` differ in their signs alone; each is written out, so that a clause can be read as it stands.

// t is the value that the variable a has.
fn fixed(a: u16, t: bool, j: usize) -> Option<Few>
    ensures { option_map few_of result ≡ slice_get (fixed_clauses a t) j }
{
    match j {
        0 => Some(Few::One(if t {
            Literal::Plus(a)
        } else {
            Literal::Minus(a)
        })),
        _ => None,
    }
}

fn same(a: u16, b: u16, j: usize) -> Option<Few>
    ensures { option_map few_of result ≡ slice_get (same_clauses a b) j }
{
    match j {
        0 => Some(Few::Two(Literal::Minus(a), Literal::Plus(b))),
        1 => Some(Few::Two(Literal::Plus(a), Literal::Minus(b))),
        _ => None,
    }
}

fn either(a: u16, b: u16, c: u16, j: usize) -> Option<Few>
    ensures { option_map few_of result ≡ slice_get (either_clauses a b c) j }
{
    match j {
        0 => Some(Few::Three(Literal::Minus(a), Literal::Plus(b), Literal::Plus(c))),
        1 => Some(Few::Two(Literal::Plus(a), Literal::Minus(b))),
        2 => Some(Few::Two(Literal::Plus(a), Literal::Minus(c))),
        _ => None,
    }
}

fn both(a: u16, b: u16, c: u16, j: usize) -> Option<Few>
    ensures { option_map few_of result ≡ slice_get (both_clauses a b c) j }
{
    match j {
        0 => Some(Few::Three(Literal::Plus(a), Literal::Minus(b), Literal::Minus(c))),
        1 => Some(Few::Two(Literal::Minus(a), Literal::Plus(b))),
        2 => Some(Few::Two(Literal::Minus(a), Literal::Plus(c))),
        _ => None,
    }
}

fn two_boths(a: u16, b: u16, c: u16, e: u16, f: u16, j: usize) -> Option<Few>
    ensures { option_map few_of result ≡ slice_get (two_boths_clauses a b c e f) j }
{
    match j {
        0 => Some(Few::Three(Literal::Minus(a), Literal::Plus(b), Literal::Plus(e))),
        1 => Some(Few::Three(Literal::Minus(a), Literal::Plus(b), Literal::Plus(f))),
        2 => Some(Few::Three(Literal::Minus(a), Literal::Plus(c), Literal::Plus(e))),
        3 => Some(Few::Three(Literal::Minus(a), Literal::Plus(c), Literal::Plus(f))),
        4 => Some(Few::Three(Literal::Plus(a), Literal::Minus(b), Literal::Minus(c))),
        5 => Some(Few::Three(Literal::Plus(a), Literal::Minus(e), Literal::Minus(f))),
        _ => None,
    }
}

impl Frame {
    /// The clause at place j of the equation of the variable a with a right side.
    fn equation(self, a: u16, right: Right, j: usize) -> Option<Few>
        ensures { option_map few_of result ≡ slice_get (equation_of (rail_var self.wires self.before) a (right_of right)) j }
    {
        match right {
            Right::Fixed(t) => fixed(a, t, j),
            Right::Same(b) => same(a, self.rail(b), j),
            Right::Either(b, c) => either(a, self.rail(b), self.rail(c), j),
            Right::Both(b, c) => both(a, self.rail(b), self.rail(c), j),
            Right::TwoBoths(b, c, e, f) => {
                two_boths(a, self.rail(b), self.rail(c), self.rail(e), self.rail(f), j)
            }
        }
    }

    /// The clause at place j of what a register starts with, or takes over from its source y in the frame before.
    fn held(self, w: u8, y: u8, j: usize) -> Option<Few>
        ensures { option_map few_of result ≡ slice_get (held_of (starts self.kind) self.wires self.before w y) j }
    {
        let a = self.rail0(w);
        if self.before > 0 {
            let earlier = Frame {
                kind: self.kind,
                wires: self.wires,
                before: self.before - 1,
            };
            return same(a, earlier.rail0(y), j);
        }
        match self.kind {
            FormulaKind::Base => fixed(a, true, j),
            FormulaKind::Step => None,
        }
    }

    /// The clause at place j of the equations of the two rails of wire w.
    fn settled(self, w: u8, r: Right, s: Right, j: usize) -> Option<Few>
        ensures { let x = rail_var self.wires self.before in
            option_map few_of result ≡ slice_get (equation_of x (x (rail_a w)) (right_of r) ++ equation_of x (x (rail_b w)) (right_of s)) j }
    {
        let a = self.rail0(w);
        let size = right_size(r);
        if j < size {
            self.equation(a, r, j)
        } else {
            self.equation(a + 1, s, j - size)
        }
    }

    /// The clause at place j of what drives wire w.
    fn driven(self, w: u8, by: Drive, j: usize) -> Option<Few>
        ensures { option_map few_of result ≡ slice_get (driven_of (starts self.kind) self.wires self.before w (drive_of by)) j }
    {
        match by {
            Drive::Settled(r, s) => self.settled(w, r, s, j),
            Drive::Input if j > 0 => None,
            Drive::Register(y) if j > 0 => self.held(w, y, j - 1),
            Drive::Input | Drive::Register(_) => Some(self.defined(w)),
        }
    }
}

/// The clause at place j of the clauses of wire w in a frame, if there is one.
pub fn wire_clause(frame: Frame, w: u8, gate: Gate, j: usize) -> Option<Few>
    ensures { option_map few_of result ≡ slice_get (apart frame.wires frame.before w ∷ driven_of (starts frame.kind) frame.wires frame.before w (spec_drive gate)) j }
{
    if j > 0 {
        frame.driven(w, gate_drive(gate), j - 1)
    } else {
        Some(frame.apart(w))
    }
}
