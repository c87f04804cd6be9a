//! The stages of a case: how far the judging of a board has come, and which event leads where.

#![tactic(auto)]

ghost use Rattle.std.specs.Prelude.{◌≡◌, is_some, if◌then◌else◌, Some, Ok, Err};
ghost use Rattle.std.specs.Option.{unwrap_or};
ghost use Rattle.refusals.specs.declared.Refusal.TheVariants.{Stage as StageRefused};
ghost use Rattle.stages.specs.Stages.{after, stage_name};

use refusals::Refusal;
use std::fmt;

/// How far the judging of a board has come.
#[derive(Clone, Copy, PartialEq, Eq, Debug)]
pub enum Stage {
    /// The board is being drawn.
    Draw,
    /// The base formula is being refuted.
    Base,
    /// The base formula is refuted.
    BaseDone,
    /// The step formula is being refuted.
    Step,
    /// Both formulas are refuted: no run of the board is ever bad.
    Safe,
    /// A valuation of the base formula was shown: some run is bad.
    Shown,
}

/// What a call is about.
#[derive(Clone, Copy, PartialEq, Eq, Debug)]
pub enum Event {
    Add,
    Close,
    /// A line with literals.
    Line,
    /// The line without literals, which ends a refutation.
    EmptyLine,
    Strike,
    Pass,
    Show,
}

impl Stage {
    /// Goes on to the stage where the event leads, or refuses it and stays.
    pub fn advance(&mut self, event: Event) -> Result<(), Refusal>
        ensures answer { result ≡ (if is_some (after self.old event) then Ok tt else Err StageRefused) }
        ensures after { self.new ≡ unwrap_or (after self.old event) self.old }
    {
        *self = match (*self, event) {
            (Stage::Draw, Event::Add) => Stage::Draw,
            (Stage::Draw, Event::Close) => Stage::Base,
            (Stage::Base, Event::Line | Event::Strike) => Stage::Base,
            (Stage::Base, Event::EmptyLine) => Stage::BaseDone,
            (Stage::Base, Event::Show) => Stage::Shown,
            (Stage::BaseDone, Event::Pass) => Stage::Step,
            (Stage::Step, Event::Line | Event::Strike) => Stage::Step,
            (Stage::Step, Event::EmptyLine) => Stage::Safe,
            _ => return Err(Refusal::Stage),
        };
        Ok(())
    }

    /// The stage as it is written in a report.
    // As `&'static str`, for callers without a formatter; `Display` writes it.
    pub fn name(self) -> &'static str
        ensures { result.now ≡ stage_name self }
    {
        match self {
            Stage::Draw => "DRAW",
            Stage::Base => "BASE",
            Stage::BaseDone => "BASE DONE",
            Stage::Step => "STEP",
            Stage::Safe => "SAFE",
            Stage::Shown => "SHOWN",
        }
    }
}

impl fmt::Display for Stage {
    ghost output = { λ x. Some (stage_name x) };

    fn fmt<W: fmt::Write>(&self, f: &mut fmt::Formatter<W>) -> fmt::Result {
        f.write_str(self.name())
    }
}
