use arrayvec::ArrayVec;
use rv32_decode::Instr;
use rv32_dis::{Line, Mnemonic, instr_text, named, word_text};

fn line_of(word: u32) -> Line {
    let mut line = ArrayVec::new();
    word_text(word, &mut line);
    line
}

#[test]
fn words_are_written_as_instructions(rt: HostRuntime) {
    assert_eq!(rt;
        line_of(0xfff2_8293).as_slice(),
        b"addi x5,x5,-1".as_slice()
    );
    assert_eq!(rt; line_of(0xfe02_9ee3).as_slice(), b"bne x5,x0,-4".as_slice());
    assert_eq!(rt; line_of(0x0051_2423).as_slice(), b"sw x5,8(x2)".as_slice());
    assert_eq!(rt; line_of(0x0000_0073).as_slice(), b"ecall".as_slice());
}

#[test]
fn other_words_are_written_as_numbers(rt: HostRuntime) {
    assert_eq!(rt; line_of(0).as_slice(), b".word 0x00000000".as_slice());
    assert_eq!(rt;
        line_of(0xffff_ffff).as_slice(),
        b".word 0xffffffff".as_slice()
    );
}

#[test]
fn a_name_is_found(rt: HostRuntime) {
    let mut line = ArrayVec::new();
    instr_text(Instr::Ebreak, &mut line);
    assert_eq!(rt; named(line.as_slice()), Some(Mnemonic::Ebreak));
    assert_eq!(rt; named(b"ebreaks"), None);
    assert_eq!(rt; Mnemonic::of(Instr::Fence).stem(), b"fence".as_slice());
    assert_eq!(rt; Mnemonic::Fence.ending(), b"".as_slice());
}
