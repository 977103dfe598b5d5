// Prints a checksum of the results of each operation that the Z80 has too, over every operand and every F. What it must
// print was made by another emulator: bench/z80ex-table.c, which says which flags are left out, and why.
#![tactic(auto)]

mod case;
mod sum;

use crate::case::Case;
use crate::sum::{Answer, checksum};
use arithmetic::add::negate;
use arithmetic::flags::Flags;
use arithmetic::increment::{decrement, increment};
use arithmetic::operation::Operation;
use arithmetic::rotate::{Rotate, rld, rrd};
use arithmetic::{bits, block, carry, decimal, logic, port, wide};
use std::io;

// S, Z, H, P/V, N and C. Bits 5 and 3 are left out: the Z80 takes them from a result, the HD64180 carries them along.
const ALL: u8 = 0xD7;
// H is left out too: in CCF it is the old C on the Z80 and 0 on the HD64180, and the HD64180's 16-bit operations keep it.
const NOT_HALF: u8 = 0xC7;
// Z, H, N and C: BIT keeps S and P/V on the HD64180.
const TESTED: u8 = 0x53;
// Z and N, which are all that a block port instruction changes on the HD64180.
const COUNTED: u8 = 0x42;
// The whole of F, where no flag changes.
const WHOLE: u8 = 0xFF;

// A row: the name, the mask of the flags and the checksum.
fn row<C: Case, A: Answer, F: Fn(C, Flags) -> (A, Flags)>(
    rt: &HostRuntime,
    name: &str,
    operation: F,
    mask: u8,
) -> io::Result<()>
    requires { F.IsAlwaysCallable operation }
{
    let sum = checksum(operation, mask);
    println!(rt; "{name} {mask:02X} {sum:08X}")
}

fn operations(rt: &HostRuntime) -> io::Result<()> {
    for (name, operation) in [
        ("ADD", Operation::Add),
        ("ADC", Operation::AddWithCarry),
        ("SUB", Operation::Subtract),
        ("SBC", Operation::SubtractWithCarry),
        ("AND", Operation::And),
        ("XOR", Operation::Xor),
        ("OR", Operation::Or),
        ("CP", Operation::Compare),
    ] {
        row(rt, name, |(a, b), flags| operation.apply(a, b, flags), ALL)?;
    }
    row(rt, "TST", |(a, b), flags| port::test(a, b, flags), ALL)
}

fn accumulator(rt: &HostRuntime) -> io::Result<()> {
    row(rt, "NEG", negate, ALL)?;
    row(rt, "CPL", logic::complement, ALL)?;
    row(rt, "SCF", carry::set, ALL)?;
    row(rt, "CCF", carry::complement, NOT_HALF)?;
    row(rt, "INC", increment, ALL)?;
    row(rt, "DEC", decrement, ALL)?;
    row(rt, "DAA", decimal::adjust, ALL)
}

fn rotates(rt: &HostRuntime) -> io::Result<()> {
    for (name, rotate) in [
        ("RLC", Rotate::Rlc),
        ("RRC", Rotate::Rrc),
        ("RL", Rotate::Rl),
        ("RR", Rotate::Rr),
        ("SLA", Rotate::Sla),
        ("SRA", Rotate::Sra),
        ("SRL", Rotate::Srl),
    ] {
        row(rt, name, |value, flags| rotate.apply(value, flags), ALL)?;
    }
    for (name, rotate) in [
        ("RLCA", Rotate::Rlc),
        ("RRCA", Rotate::Rrc),
        ("RLA", Rotate::Rl),
        ("RRA", Rotate::Rr),
    ] {
        row(rt, name, |a, flags| rotate.accumulator(a, flags), ALL)?;
    }
    row(rt, "RLD", |(a, byte), flags| rld(a, byte, flags), ALL)?;
    row(rt, "RRD", |(a, byte), flags| rrd(a, byte, flags), ALL)
}

fn bits(rt: &HostRuntime) -> io::Result<()> {
    for number in 0..8u8 {
        println!(rt; "bit {number}")?;
        row(
            rt,
            "BIT",
            |value, flags| bits::test(number, value, flags),
            TESTED,
        )?;
        row(
            rt,
            "RES",
            |value, flags| bits::reset(number, value, flags),
            WHOLE,
        )?;
        row(
            rt,
            "SET",
            |value, flags| bits::set(number, value, flags),
            WHOLE,
        )?;
    }
    Ok(())
}

fn blocks(rt: &HostRuntime) -> io::Result<()> {
    row(
        rt,
        "CPI, BC = 0",
        |(a, byte), flags| block::compare(a, byte, 0, flags),
        ALL,
    )?;
    row(
        rt,
        "CPI, BC > 0",
        |(a, byte), flags| block::compare(a, byte, 1, flags),
        ALL,
    )?;
    row(
        rt,
        "LDI, BC = 0",
        |byte, flags| block::transfer(byte, 0, flags),
        ALL,
    )?;
    row(
        rt,
        "LDI, BC > 0",
        |byte, flags| block::transfer(byte, 1, flags),
        ALL,
    )?;
    row(
        rt,
        "INI",
        |(b, byte), flags| block::port(b, byte, flags),
        COUNTED,
    )?;
    row(
        rt,
        "OUTI",
        |(b, byte), flags| block::port(b, byte, flags),
        COUNTED,
    )?;
    row(rt, "IN D,(C)", port::input, ALL)?;
    row(
        rt,
        "LD A,I, IEF2 = 0",
        |byte, flags| port::load(byte, false, flags),
        ALL,
    )?;
    row(
        rt,
        "LD A,I, IEF2 = 1",
        |byte, flags| port::load(byte, true, flags),
        ALL,
    )
}

fn words(rt: &HostRuntime) -> io::Result<()> {
    row(
        rt,
        "ADD HL",
        |(a, b), flags| wide::add(a, b, flags),
        NOT_HALF,
    )?;
    row(
        rt,
        "ADC HL",
        |(a, b), flags| wide::add_with_carry(a, b, flags),
        NOT_HALF,
    )?;
    row(
        rt,
        "SBC HL",
        |(a, b), flags| wide::subtract_with_carry(a, b, flags),
        NOT_HALF,
    )
}

fn main(rt: HostRuntime) -> io::Result<()> {
    operations(&rt)?;
    accumulator(&rt)?;
    rotates(&rt)?;
    bits(&rt)?;
    blocks(&rt)?;
    words(&rt)
}
