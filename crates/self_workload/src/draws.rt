// The draws of a seed, and what they stand for.
use conda_base::Actor;
use rand_core::SeedableRng;
use rand_core::utils::NextWord;
use rand_pcg::Lcg64Xsh32;
use rv32_decode::{ImmOp, Instr, LoadOp, RegOp, StoreOp};
use std::marker::Model;

// The register that holds the address of what harts and cores work on.
const BASE_REGISTER: u8 = 5;

/// The draws of a seed, each a word of the generator that the seed makes.
#[derive(Drop)]
pub struct Draws {
    words: Lcg64Xsh32,
}

impl Model for Draws {
    ghost use Rattle.rand_pcg.specs.Lcg.{Lcg};

    ghost Value = { Lcg };

    ghost view = { λ d. d.words };
}

impl Draws {
    ghost use Rattle.std.specs.Prelude.{◌≡◌};
    ghost use Rattle.rand_pcg.specs.Pcg.{pcg32};
    ghost use Rattle.rv32_decode.specs.Ranges.{FieldsFit};
    ghost use Rattle.self_workload.specs.Draws.{generator_of};
    ghost use Rattle.self_workload.specs.Drawn.{drawn_actor, drawn_instr};

    /// The draws of a seed, from the first on.
    #[tactic(auto, unfolding(crate::specs::Draws::generator_of))]
    pub fn new(seed: u64) -> Draws
        ensures { result ≡ generator_of seed }
    {
        Draws {
            words: Lcg64Xsh32::seed_from_u64(seed),
        }
    }

    // The next draw.
    fn draw(&mut self) -> u32
        ensures word { result ≡ (pcg32 self.old).0 }
        ensures state { self.new ≡ (pcg32 self.old).1 }
    {
        self.words.next_word()
    }

    /// The hart or near-data core of the next draw.
    pub fn next_actor(&mut self) -> Actor
        ensures actor { result ≡ drawn_actor (pcg32 self.old).0 }
        ensures state { self.new ≡ (pcg32 self.old).1 }
    {
        actor_of(self.draw())
    }

    /// The instruction of the next draw.
    pub fn next_instr(&mut self) -> Instr
        ensures instr { result ≡ drawn_instr (pcg32 self.old).0 }
        ensures fits { FieldsFit result }
        ensures state { self.new ≡ (pcg32 self.old).1 }
    {
        instr_of(self.draw())
    }
}

ghost use Rattle.std.specs.Prelude.{◌≡◌};
ghost use Rattle.rv32_decode.specs.Ranges.{FieldsFit};
ghost use Rattle.self_workload.specs.Drawn.{drawn_actor, drawn_instr};

fn actor_of(draw: u32) -> Actor
    ensures { result ≡ drawn_actor draw }
{
    match draw % 4 {
        0 => Actor::Hart(0),
        1 => Actor::Hart(1),
        2 => Actor::Core(0),
        _ => Actor::Core(1),
    }
}

fn instr_of(draw: u32) -> Instr
    ensures instr { result ≡ drawn_instr draw }
    ensures fits { FieldsFit result }
{
    let t = 6 + (draw / 4 % 2) as u8;
    let m = draw / 8;
    match draw % 4 {
        0 => Instr::Load {
            op: LoadOp::Lw,
            rd: t,
            rs1: BASE_REGISTER,
            imm: 4 * (m % 256),
        },
        1 => Instr::Store {
            op: StoreOp::Sw,
            rs1: BASE_REGISTER,
            rs2: t,
            imm: 4 * (m % 256),
        },
        2 => Instr::Reg {
            op: RegOp::Xor,
            rd: t,
            rs1: 6,
            rs2: 7,
        },
        _ => Instr::Imm {
            op: ImmOp::Addi,
            rd: t,
            rs1: t,
            imm: (m % 2048).wrapping_sub(1024),
        },
    }
}
