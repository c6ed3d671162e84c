//! What the whole input says.

ghost use Rattle.std.specs.Prelude.{◌≡◌, MatchResult};
ghost use Rattle.polyover_text.specs.Grammar.{words, input_lines, AsksAt};
ghost use Rattle.polyover_text.specs.Statements.{figures_at};
ghost use Rattle.polyover_text.specs.Inputs.{TakesLine, RefusesLine, IsNamedFault};
ghost use Rattle.polyover_text.specs.declared.input.InputError.TheVariants.{Memory};

use crate::figures::{Figures, NumberedContour};
use crate::line_error::LineError;
use crate::lines::Lines;
use crate::query::{NumberedQuery, Query};
use crate::statement::{Statement, parse_statement};
use std::alloc::Allocator;

/// Figures, and what is asked for.
#[derive(Drop)]
pub struct Input<A: Allocator> {
    /// What the lines before the command give.
    pub figures: Figures<A>,
    /// The number of the command's line, counted from 1.
    pub line: usize,
    /// What is asked for.
    pub query: Query,
}

/// Why an input was not read.
#[derive(Debug, Clone, Copy, PartialEq, Eq)]
pub enum InputError {
    /// What the input says did not fit into memory.
    Memory,
    /// The first bad line, counted from 1.
    BadLine(usize),
}

// What the lines so far say.
#[derive(Drop)]
struct Reading<A: Allocator> {
    figures: Figures<A>,
    command: Option<NumberedQuery>,
}

impl<A: Allocator + Copy> Reading<A> {
    // Takes the next line, which has this number. On `Err` the line is not taken.
    fn take(&mut self, alloc: A, number: usize, line: &[u8]) -> Result<(), LineError>
        ensures { MatchResult result
            (λ _. TakesLine number (words line.now) self.old self.new)
            (λ e. e ≡ LineError.Bad → RefusesLine (words line.now) self.old) }
    {
        match (parse_statement(alloc, line)?, self.command) {
            (Statement::Blank, _) => {}
            (Statement::Contour(contour), None) => {
                let line = number;
                self.figures
                    .contours
                    .push(NumberedContour { line, contour })?;
            }
            (Statement::OpenPath(points), None) => self.figures.lines.push(points)?,
            (Statement::Point(point), None) => self.figures.points.push(point)?,
            (Statement::Run(query), None) => {
                self.command = Some(NumberedQuery {
                    line: number,
                    query,
                });
            }
            (_, Some(_)) => return Err(LineError::Bad),
        }
        Ok(())
    }
}

/// The figures and the command of an input, or its first bad line.
pub fn parse_input<A: Allocator + Copy>(alloc: A, text: &[u8]) -> Result<Input<A>, InputError>
    ensures { MatchResult result
        (λ c. AsksAt (input_lines text.now) (figures_at c.figures) c.line c.query)
        (λ e. IsNamedFault (input_lines text.now) e) }
{
    let mut reading = Reading {
        figures: Figures::new(alloc),
        command: None,
    };
    let mut number = 0;
    for line in Lines::new(text) {
        number += 1;
        match reading.take(alloc, number, line) {
            Ok(()) => {}
            Err(LineError::Memory) => return Err(InputError::Memory),
            Err(LineError::Bad) => return Err(InputError::BadLine(number)),
        }
    }
    let Reading { figures, command } = reading;
    match command {
        Some(NumberedQuery { line, query }) => Ok(Input {
            figures,
            line,
            query,
        }),
        None => Err(InputError::BadLine(number + 1)),
    }
}
