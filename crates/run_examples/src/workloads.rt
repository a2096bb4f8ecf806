// Workloads whose words and actors were computed apart from this crate, by the generator's published definition.
use conda_base::Actor;
use self_workload::{Draws, generate};
use std::alloc::{AllocError, Global};
use std::test::Fail;

// The bytes of the two headers before the words.
const HEADER_BYTES: usize = 84;

// A seed, words of its program by their offsets, and who takes its first events.
struct Example {
    seed: u64,
    words: [(usize, u32); 8],
    actors: [Actor; 6],
}

const EXAMPLES: [Example; 2] = [
    Example {
        seed: 1,
        words: [
            (4, 0x0005_0413),
            (12, 0x0073_43b3),
            (16, 0x3a62_a423),
            (20, 0x0e02_a303),
            (132, 0xc833_0313),
            (180, 0xf55f_f06f),
            (260, 0x0073_4333),
            (384, 0x0c02_a383),
        ],
        actors: [
            Actor::Core(1),
            Actor::Core(0),
            Actor::Core(1),
            Actor::Core(0),
            Actor::Core(1),
            Actor::Hart(0),
        ],
    },
    Example {
        seed: 18_446_744_073_709_551_615,
        words: [
            (0, 0x0002_02b7),
            (16, 0x1042_a383),
            (20, 0x0072_ae23),
            (132, 0x0073_4333),
            (184, 0),
            (260, 0x2c72_ac23),
            (384, 0x2402_a383),
            (392, 0x0000_0073),
        ],
        actors: [
            Actor::Hart(1),
            Actor::Core(0),
            Actor::Hart(1),
            Actor::Hart(1),
            Actor::Core(0),
            Actor::Hart(1),
        ],
    },
];

fn has_word(image: &[u8], offset: usize, word: u32) -> bool {
    match image.get(HEADER_BYTES..) {
        Some(code) => code
            .get(offset..)
            .is_some_and(|rest| rest.starts_with(&word.to_le_bytes())),
        None => false,
    }
}

fn has_words(image: &[u8], words: &[(usize, u32)]) -> bool {
    words
        .iter()
        .all(|(offset, word)| has_word(image, *offset, *word))
}

fn draw_actors(draws: &mut Draws, actors: &[Actor]) -> bool {
    actors.iter().all(|actor| draws.next_actor() == *actor)
}

// Whether a seed's image and draws are those of an example.
fn is_made(alloc: Global, example: &Example) -> Result<bool, AllocError> {
    let mut made = generate(alloc, example.seed)?;
    let words = made.image.len() == HEADER_BYTES + 396 && has_words(&made.image, &example.words);
    Ok(words && draw_actors(&mut made.draws, &example.actors))
}

#[test]
fn two_seeds(rt: HostRuntime) -> Result<(), Fail> {
    for example in &EXAMPLES {
        assert!(rt; is_made(rt.alloc(), example)?);
    }
    Ok(())
}
