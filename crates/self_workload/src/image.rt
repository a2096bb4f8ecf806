// The image of a seed.
ghost use Rattle.std.specs.Prelude.{◌≡◌, ◌++◌, length, map, replicate, All, IfOk, OnOk};
ghost use Rattle.rand_core.specs.Steps.{first_words};
ghost use Rattle.rand_pcg.specs.Pcg.{pcg32};
ghost use Rattle.rv32_decode.specs.Encoding.{encoded};
ghost use Rattle.rv32_decode.specs.Ranges.{FieldsFit};
ghost use Rattle.self_workload.specs.Draws.{after_words, generator_after, generator_of};
ghost use Rattle.self_workload.specs.Drawn.{drawn_instr};
ghost use Rattle.self_workload.specs.Workload.{code_words, image_of_seed, words_of_seed, hart_begin, hart_end, core_begin, core_end};

use crate::Draws;
use rv32_asm::{Program, plain};
use rv32_decode::{ImmOp, Instr, encode};
use std::alloc::{AllocError, Global};

// Where the image lies in memory.
const IMAGE_ADDRESS: u32 = 65_536;

// How many of the instructions of a hart, and of a core, are drawn.
const DRAWN: usize = 32;

// How many words stand between the harts' code and the cores'.
const GAP: usize = 18;

// How many words the program has.
const WORDS: usize = 99;

// How far a hart's code jumps back at its end: -172 as a word.
const LOOP_OFFSET: u32 = 4_294_967_124;

/// The image of a seed, and the draws after it.
#[derive(Drop)]
pub struct Workload {
    pub image: Vec<u8>,
    pub draws: Draws,
}

fn add(rd: u8, rs1: u8, imm: u32) -> Instr
    ensures { result ≡ Instr.Imm ImmOp.Addi rd rs1 imm }
{
    Instr::Imm {
        op: ImmOp::Addi,
        rd,
        rs1,
        imm,
    }
}

fn lui(rd: u8, imm: u32) -> Instr
    ensures { result ≡ Instr.Lui rd imm }
{
    Instr::Lui { rd, imm }
}

// x5 becomes the address of what harts and cores work on.
fn hart_code_begin() -> [Instr; 2]
    ensures code { result ≡ hart_begin }
    ensures fits { All FieldsFit result }
{
    [lui(5, 131_072), add(8, 10, 0)]
}

// The core of the hart's number is launched at 65792 and waited for, a byte is put, and all begins
// again.
fn hart_code_end() -> [Instr; 12]
    ensures code { result ≡ hart_end }
    ensures fits { All FieldsFit result }
{
    [
        add(10, 8, 0),
        lui(11, 65_536),
        add(11, 11, 256),
        add(12, 5, 0),
        add(17, 0, 1000),
        Instr::Ecall,
        add(10, 8, 0),
        add(17, 0, 1001),
        Instr::Ecall,
        add(17, 0, 1003),
        Instr::Ecall,
        Instr::Jal {
            rd: 0,
            imm: LOOP_OFFSET,
        },
    ]
}

fn core_code_begin() -> [Instr; 1]
    ensures code { result ≡ core_begin }
    ensures fits { All FieldsFit result }
{
    [lui(5, 131_072)]
}

fn core_code_end() -> [Instr; 2]
    ensures code { result ≡ core_end }
    ensures fits { All FieldsFit result }
{
    [add(17, 0, 1004), Instr::Ecall]
}

// Adds the words of instructions.
fn push_code(words: &mut Vec<u32>, code: &[Instr]) -> Result<(), AllocError>
    requires { All FieldsFit code.now }
    ensures { OnOk result (words.new.items ≡ words.old.items ++ map encoded code.now) }
{
    for instr in code {
        words.push(encode(*instr))?;
    }
    Ok(())
}

// Adds the words of drawn instructions.
fn push_drawn(words: &mut Vec<u32>, draws: &mut Draws) -> Result<(), AllocError>
    ensures words { OnOk result (words.new.items ≡ words.old.items
        ++ map encoded (map drawn_instr (first_words pcg32 32 draws.old))) }
    ensures draws { OnOk result (draws.new ≡ after_words 32 draws.old) }
{
    for _ in 0..DRAWN {
        words.push(encode(draws.next_instr()))?;
    }
    Ok(())
}

// Adds the words of code, of which the instructions in the midst are drawn.
#[tactic(auto, using(crate::proofs::DrawFacts::code_parts))]
fn push_parts(
    words: &mut Vec<u32>,
    draws: &mut Draws,
    begin: &[Instr],
    end: &[Instr],
) -> Result<(), AllocError>
    requires begin { All FieldsFit begin.now }
    requires end { All FieldsFit end.now }
    ensures words { OnOk result (words.new.items ≡ words.old.items
        ++ code_words begin.now (first_words pcg32 32 draws.old) end.now) }
    ensures draws { OnOk result (draws.new ≡ after_words 32 draws.old) }
{
    push_code(words, begin)?;
    push_drawn(words, draws)?;
    push_code(words, end)
}

// The words of a seed's program, and the draws after them.
#[tactic(auto, using(crate::proofs::DrawFacts::after_none, crate::proofs::DrawFacts::after_after), unfolding(crate::specs::Workload::words_of_seed))]
fn program_words(alloc: Global, seed: u64) -> Result<(Vec<u32>, Draws), AllocError>
    ensures words { IfOk result (λ made. made.0.items ≡ words_of_seed seed) }
    ensures draws { IfOk result (λ made. made.1 ≡ generator_after seed 64) }
{
    let mut draws = Draws::new(seed);
    let mut words = Vec::with_capacity(alloc, WORDS)?;
    push_parts(&mut words, &mut draws, &hart_code_begin(), &hart_code_end())?;
    words.extend_from_slice(&[0; GAP])?;
    push_parts(&mut words, &mut draws, &core_code_begin(), &core_code_end())?;
    Ok((words, draws))
}

/// The image of a seed, and the draws after it.
pub fn generate(alloc: Global, seed: u64) -> Result<Workload, AllocError>
    ensures image { IfOk result (λ w. w.image.items ≡ image_of_seed seed) }
    ensures draws { IfOk result (λ w. w.draws ≡ generator_after seed 64) }
{
    let (words, draws) = program_words(alloc, seed)?;
    let program = Program {
        at: IMAGE_ADDRESS,
        words,
    };
    let image = plain(alloc, &program)?;
    Ok(Workload { image, draws })
}
