//! What one task gave.
ghost use Rattle.std.specs.Prelude.{◌≡◌, IfOk};
ghost use Rattle.std.specs.Arc.{arc_value};
ghost use Rattle.gathering.specs.Views.{PieceView};

use crate::{OutOfMemory, Work};
use std::alloc::Global;
use std::marker::Model;
use std::sync::Arc;

/// What one task gave: its number, the input that it was run on, and a value of that input. That its output is one is
/// kept by the type, so a piece that crossed a channel proves it. Contracts see the number and the input.
#[derive(Drop)]
pub struct Piece<W: Work> {
    number: u32,
    input: Arc<W::Input, Global>,
    output: W::Output,
}

impl<W: Work> Model for Piece<W> {
    ghost Value = { PieceView W.Input };

    ghost view = { λ a. record { number = a.number; input = arc_value a.input } };

    ghost invariant = { λ a. W.Gives (arc_value a.input) a.output };
}

impl<W: Work> Piece<W> {
    /// Runs the work once on the input. The number is not compared with anything here.
    pub fn make(
        alloc: Global,
        number: u32,
        input: Arc<W::Input, Global>,
    ) -> Result<Self, OutOfMemory>
        ensures number { IfOk result (λ piece. piece.number ≡ number) }
        ensures input { IfOk result (λ piece. piece.input ≡ arc_value input) }
    {
        let output = W::run(alloc, &input)?;
        Ok(Piece {
            number,
            input,
            output,
        })
    }

    /// The number of its task.
    pub fn number(&self) -> u32
        ensures { result ≡ self.now.number }
    {
        self.number
    }

    /// The input that the work was run on.
    pub fn input(&self) -> &Arc<W::Input, Global>
        ensures { arc_value result.now ≡ self.now.input }
    {
        &self.input
    }

    /// A value of that input, as the run gave it.
    pub fn output(&self) -> &W::Output
        ensures { W.Gives self.now.input result.now }
    {
        &self.output
    }
}
