// Sources as programs, in two passes.
ghost use Rattle.std.specs.Prelude.{◌≡◌, ◌+◌, ◌^◌, ◌<◌, ◌≤◌, ℕ, List, IfOk, IfErr, OnOk, ◌++◌, option_to_list};
ghost use Rattle.rv32_asm.specs.Assembled.{Assembled, IsBad};
ghost use Rattle.rv32_asm.specs.Faults.{IsFault};
ghost use Rattle.rv32_asm.specs.Programs.{IsProgram};
ghost use Rattle.rv32_asm.specs.Sources.{source_in};

use crate::fault::AsmFault;
use crate::judging::{amount_of, line_word, why_of};
use crate::lines::take_line;
use crate::place::Place;
use crate::reading::read_line;
use crate::survey::{next_place, statement_of, survey_of};
use std::alloc::{AllocError, Global};

/// A program: the address of its first word, and its words.
#[derive(Drop)]
pub struct Program {
    pub at: u32,
    pub words: Vec<u32>,
}

fn push_word(words: &mut Vec<u32>, word: Option<u32>) -> Result<(), AllocError>
    ensures { OnOk result (words.new.items ≡ words.old.items ++ option_to_list word) }
{
    match word {
        None => {}
        Some(word) => words.push(word)?,
    }
    Ok(())
}

/// The program of a source, or its first bad line.
pub fn assemble(alloc: Global, text: &[u8]) -> Result<Program, AsmFault>
    ensures program { IfOk result (λ p. Assembled text.now p.at p.words.items) }
    ensures fits { IfOk result (λ p. IsProgram p.at p.words.items) }
    ensures fault { IfErr result (IsFault text.now) }
{
    let survey = survey_of(alloc, text)?;
    let mut words = Vec::new(alloc);
    let mut place = Place {
        line: 1,
        words: 0,
        begun: false,
    };
    let mut rest = text;
    'pass: while !rest.is_empty() {
        let (line, after) = take_line(rest);
        let said = read_line(line);
        let statement = statement_of(said);
        let amount = amount_of(&survey.labels, place, statement);
        match why_of(&survey.labels, survey.address, place, said, amount) {
            None => {}
            Some(why) => {
                return Err(AsmFault::Bad {
                    line: place.line,
                    why,
                });
            }
        }
        push_word(&mut words, line_word(statement, amount))?;
        place = next_place(place, said);
        rest = after;
    }
    if place.words == 0 {
        return Err(AsmFault::Bad {
            line: place.line,
            why: 6,
        });
    }
    Ok(Program {
        at: survey.address,
        words,
    })
}
