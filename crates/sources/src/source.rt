ghost use Rattle.std.specs.Prelude.{◌≡◌, ◌≤◌, length};
ghost use Rattle.boards.specs.Sheets.{sheet};
ghost use Rattle.clauses.specs.Clauses.{numbered, length_of, clause_literal};
ghost use Rattle.sources.specs.Meaning.{tail_of, clauses_of, variables_of};
ghost use Rattle.std.proofs.Common.{◌∙◌, ap, refl};

use crate::formula::Formula;
use crate::pairs::pairs_before;
use crate::rows::row;
use boards::Board;
use clauses::ClauseSource;
use formulas::FormulaKind;

impl Formula {
    /// The formula of a kind of a board.
    pub fn new(board: Board, kind: FormulaKind) -> Formula
        ensures board { sheet result.board ≡ sheet board }
        ensures kind { result.kind ≡ kind }
    {
        let before = row(board.gates());
        Formula {
            board,
            kind,
            before,
        }
    }

    /// The board, handed back.
    pub fn into_board(self) -> Board
        ensures { sheet result ≡ sheet self.board }
    {
        self.board
    }

    /// Which of the two formulas this is.
    pub fn kind(&self) -> FormulaKind
        ensures { result ≡ self.now.kind }
    {
        self.kind
    }

    /// How many variables there are.
    pub fn variables(&self) -> usize
        ensures is { result ≡ variables_of self.now }
        ensures small { result ≤ 65535 }
    {
        let outline = self.outline();
        let n = outline.wires;
        let d = outline.depth;
        match self.kind {
            FormulaKind::Base => 2 * n * d + n * d,
            FormulaKind::Step => 2 * n * (d + 1) + n + self.register_count() * pairs_before(d + 1),
        }
    }

    /// How many clauses there are.
    pub fn clauses(&self) -> usize
        ensures is { result ≡ length (clauses_of self.now) }
        ensures small { result ≤ 5000000 }
    {
        self.frames_size() + self.tail_size()
    }

    /// How many literals the clause of a number has, if there is one.
    pub fn clause_length(&self, number: u32) -> Option<usize>
        ensures { result ≡ length_of (numbered (clauses_of self.now) number) }
    {
        let shape = self.numbered(number)?;
        Some(shape.length())
    }

    /// The literal at a place of the clause of a number, if there is one. Places count from 0.
    pub fn clause_literal(&self, number: u32, at: usize) -> Option<i32>
        ensures { result ≡ clause_literal (numbered (clauses_of self.now) number) at }
    {
        let shape = self.numbered(number)?;
        let literal = shape.literal(self.outline(), at)?;
        Some(i32::from(literal))
    }

    /// How many clauses there are behind the frames.
    fn tail_size(&self) -> usize
        ensures is { result ≡ length (tail_of self.now.kind (sheet self.now.board)) }
        ensures small { result ≤ 1000000 }
    {
        let outline = self.outline();
        let n = outline.wires;
        let d = outline.depth;
        match self.kind {
            FormulaKind::Base => 2 * (n * d) + 1,
            FormulaKind::Step => {
                let pairs = pairs_before(d + 1);
                d * (n + 1) + (2 * n + 1) + pairs * (2 * self.register_count() + 1)
            }
        }
    }
}

impl ClauseSource for Formula {
    ghost clauses = { λ f. numbered (clauses_of f) };

    // Nothing is kept of a question.
    ghost steady = { λ x y. y ≡ x };

    ghost stays = { λ x. refl };

    ghost goes_on = { λ x y z p q. q ∙ p };

    ghost same = { λ x y p. ap (λ f. numbered (clauses_of f)) p };

    fn length(&mut self, number: u32) -> Option<usize> {
        self.clause_length(number)
    }

    fn literal(&mut self, number: u32, at: usize) -> Option<i32> {
        self.clause_literal(number, at)
    }
}
