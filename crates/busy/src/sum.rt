// A checksum over registers and then memory, as bench/z80ex-run.c makes it.
use registers::registers::Registers;

// S, Z, P/V, N and C. Bits 5 and 3 of F, and H behind a 16-bit sum, are not alike on the two processors.
const ALIKE: u8 = 0xC7;

// Each program stands alone, as its C counterpart in bench/ does: the same step stands in check_arithmetic/src/sum.rt.
fn mixed(sum: u32, byte: u8) -> u32 {
    let turned = sum.rotate_left(5) ^ u32::from(byte);
    turned.wrapping_mul(0x9E37_79B1)
}

pub fn bytes_mixed(sum: u32, bytes: &[u8]) -> u32 {
    bytes.iter().fold(sum, |all, byte| mixed(all, *byte))
}

// Words go in high byte first.
fn words_mixed(sum: u32, words: &[u16]) -> u32 {
    words
        .iter()
        .fold(sum, |all, word| bytes_mixed(all, &word.to_be_bytes()))
}

// Of the registers alone: memory is to follow.
pub fn registers_mixed(cpu: &Registers) -> u32 {
    let set = &cpu.main;
    let f = u8::from(set.f) & ALIKE;
    let single = [set.a, f, set.b, set.c, set.d, set.e, set.h, set.l];
    let words = [cpu.ix, cpu.iy, cpu.sp, cpu.pc];
    words_mixed(bytes_mixed(0, &single), &words)
}
