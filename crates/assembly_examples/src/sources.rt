// Worked examples, each cause, and the corners of a line's form.
use rv32_asm::{AsmFault, Program, assemble, plain};
use std::alloc::Global;
use std::test::Fail;

const LOOP: &[u8] = b"loop: addi x5,x5,-1 # count\nbne x5,x0,loop";

const LOOP_IMAGE: [u8; 92] = [
    0x7f, 0x45, 0x4c, 0x46, 1, 1, 1, 0, 0, 0, 0, 0, 0, 0, 0, 0, // identification
    2, 0, 243, 0, 1, 0, 0, 0, // type, machine, version
    0, 0, 1, 0, 52, 0, 0, 0, 0, 0, 0, 0, 0, 0, 0, 0, // entry, places, flags
    52, 0, 32, 0, 1, 0, 0, 0, 0, 0, 0, 0, // sizes and counts
    1, 0, 0, 0, 84, 0, 0, 0, 0, 0, 1, 0, 0, 0, 1, 0, // what is loaded, and where
    8, 0, 0, 0, 8, 0, 0, 0, 7, 0, 0, 0, 4, 0, 0, 0, // sizes, flags, alignment
    0x93, 0x82, 0xf2, 0xff, 0xe3, 0x9e, 0x02, 0xfe,
];

// A text, and its first bad line with its cause.
const FAULTS: [(&[u8], u64, u8); 12] = [
    (b"fence\naddi x05,x0,0", 2, 1),
    (b"addi x5,x5,2048", 1, 2),
    (b"lui x1,-1", 1, 2),
    (b"beq x0,x0,3", 1, 2),
    (b"addi x1,x0,1000000000000000000000000000000000000000", 1, 2),
    (b"jal x0,end", 1, 3),
    (b"a: fence\na: fence", 2, 3),
    (b"fence\n.at 8", 2, 4),
    (b".at 1000000000000000000000000000000000000000", 1, 4),
    (b".at 4294967292\nfence\nfence", 3, 5),
    (b"", 1, 6),
    (b"a:\n# nothing\n", 3, 6),
];

// None of these is of a line's form.
const FORMLESS: [&[u8]; 12] = [
    b"fence # \xc3\xa9",
    b"fence\r",
    b"name :",
    b"abcdefghijklmnopqrstuvwxyzabcdefg: fence",
    b"1a: fence",
    b"FENCE",
    b"addi x5,x5,-0",
    b"addi x32,x0,0",
    b".at 04",
    b".at -4",
    b".word 0X00000000",
    b".word 0x0000000",
];

fn fault(alloc: Global, text: &[u8]) -> (u64, u8) {
    match assemble(alloc, text) {
        Ok(_) => (0, 0),
        Err(AsmFault::OutOfMemory) => (0, 9),
        Err(AsmFault::Bad { line, why }) => (line, why),
    }
}

fn gives(alloc: Global, text: &[u8], at: u32, words: &[u32]) -> bool {
    match assemble(alloc, text) {
        Ok(program) => program.at == at && program.words.as_slice() == words,
        Err(_) => false,
    }
}

fn gives_image(alloc: Global, text: &[u8], bytes: &[u8]) -> bool {
    match assemble(alloc, text) {
        Ok(program) => match plain(alloc, &program) {
            Ok(image) => image.as_slice() == bytes,
            Err(_) => false,
        },
        Err(_) => false,
    }
}

#[test]
fn a_loop(rt: HostRuntime) -> Result<(), Fail> {
    assert!(rt; gives(rt.alloc(), LOOP, 65536, &[0xfff2_8293, 0xfe02_9ee3]));
    Ok(())
}

#[test]
fn the_image_of_a_loop(rt: HostRuntime) -> Result<(), Fail> {
    assert!(rt; gives_image(rt.alloc(), LOOP, &LOOP_IMAGE));
    Ok(())
}

#[test]
fn blanks_and_directives(rt: HostRuntime) -> Result<(), Fail> {
    let text = b"  a:.at 8\n\t.word 0xFfFf0000 \nb:\n lw x1 , -4 ( x31 )\njal x0,a#x\n";
    assert!(rt;
        gives(
            rt.alloc(),
            text,
            8,
            &[0xffff_0000, 0xffcf_a083, 0xff9f_f06f]
        )
    );
    Ok(())
}

#[test]
fn a_label_alone_on_the_last_line(rt: HostRuntime) -> Result<(), Fail> {
    assert!(rt; gives(rt.alloc(), b"jal x0,x5\nx5:", 65536, &[0x0040_006f]));
    Ok(())
}

#[test]
fn an_atomic(rt: HostRuntime) -> Result<(), Fail> {
    assert!(rt;
        gives(
            rt.alloc(),
            b"amoadd.w.aqrl x5,x6,(x7)",
            65536,
            &[0x0663_a2af]
        )
    );
    Ok(())
}

#[test]
fn bad_lines(rt: HostRuntime) -> Result<(), Fail> {
    for (text, line, why) in FAULTS {
        assert_eq!(rt; fault(rt.alloc(), text), (line, why));
    }
    Ok(())
}

#[test]
fn lines_that_have_no_form(rt: HostRuntime) -> Result<(), Fail> {
    for text in FORMLESS {
        assert_eq!(rt; fault(rt.alloc(), text), (1, 1));
    }
    Ok(())
}
