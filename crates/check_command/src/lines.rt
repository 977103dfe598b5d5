// Lines of a script, and what each says or what is wrong with it.
use command::line::command;
use std::alloc::Global;
use std::process::Abort;
use std::test::Fail;

// Two handles, since one that ends the process gives no memory.
fn reads(rt: &impl Abort, heap: Global, line: &[u8], expected: &str) -> Result<(), Fail> {
    let text = match command(heap, line) {
        Ok(said) => format!(in heap; "{said:?}")?,
        Err(unread) => format!(in heap; "{unread}")?,
    };
    assert_eq!(rt; text.as_str(), expected, "{line:?}");
    Ok(())
}

fn all_read(rt: &impl Abort, heap: Global, lines: &[(&str, &str)]) -> Result<(), Fail> {
    for (line, expected) in lines {
        reads(rt, heap, line.as_bytes(), expected)?;
    }
    Ok(())
}

#[test]
fn memory(rt: HostRuntime) -> Result<(), Fail> {
    let lines = [
        ("rom 32768", "Some(Rom(32768))"),
        ("ram 4294967295", "Some(Ram(4294967295))"),
        (
            "bytes 100 3E 05 ed 39 80 76",
            "Some(Bytes(256, [62, 5, 237, 57, 128, 118]))",
        ),
        (
            "fill 7ff00 256 E5",
            "Some(Fill { at: 524032, length: 256, byte: 229 })",
        ),
        (
            "fill FFFFFFFF 0 0",
            "Some(Fill { at: 4294967295, length: 0, byte: 0 })",
        ),
        ("image 0 boot.rom", "Some(Image(0, \"boot.rom\"))"),
        (
            "protect 0 7F 80",
            "Some(Protect([Page { number: 0 }, Page { number: 127 }, Page { number: 128 }]))",
        ),
        (
            "patch 66=C9 1000=0",
            "Some(Patch([PatchEntry { address: 102, byte: 201 }, PatchEntry { address: 4096, byte: 0 }]))",
        ),
    ];
    all_read(&rt, rt.alloc(), &lines)
}

#[test]
fn panels_and_calls(rt: HostRuntime) -> Result<(), Fail> {
    let lines = [
        ("chain 63", "Some(Chain(63))"),
        (
            "script FF 1000",
            "Some(Script { int0_byte: 255, threshold: 1000, reads: [] })",
        ),
        (
            "script c7 0 1 2 3",
            "Some(Script { int0_byte: 199, threshold: 0, reads: [1, 2, 3] })",
        ),
        ("key 41", "Some(Key(65))"),
        ("latch", "Some(Latch)"),
        ("second", "Some(Second)"),
        ("make", "Some(Make)"),
        ("step", "Some(Step(1))"),
        ("step 0012", "Some(Step(12))"),
        ("run 10", "Some(Run { budget: 10, times: 1 })"),
        ("run 0 3", "Some(Run { budget: 0, times: 3 })"),
        ("reset", "Some(Reset)"),
        (
            "look F8 80 0 ffff 16",
            "Some(Look { window: Window { cbar: 248, cbr: 128, bbr: 0 }, at: 65535, length: 16 })",
        ),
        ("show", "Some(Show)"),
    ];
    all_read(&rt, rt.alloc(), &lines)
}

#[test]
fn blanks_and_comments(rt: HostRuntime) -> Result<(), Fail> {
    let lines = [
        ("", "None"),
        (" \t\r", "None"),
        ("# run 5", "None"),
        ("  \t# a comment # in a comment", "None"),
        ("\tstep\t 2 \r", "Some(Step(2))"),
        ("step 2# twice", "Some(Step(2))"),
        ("step # 2", "Some(Step(1))"),
    ];
    all_read(&rt, rt.alloc(), &lines)
}

#[test]
fn too_few_or_too_many(rt: HostRuntime) -> Result<(), Fail> {
    let lines = [
        ("rom", "want: rom LENGTH"),
        ("ram 1 2", "want: ram LENGTH"),
        ("bytes 100", "want: bytes ADDRESS HH .."),
        ("fill 100 5", "want: fill ADDRESS LENGTH HH"),
        ("image 0 two words", "want: image ADDRESS FILE"),
        ("protect", "want: protect PAGE .."),
        ("patch", "want: patch ADDRESS=HH .."),
        ("chain", "want: chain RECORDS"),
        ("script FF", "want: script BYTE STATES HH .."),
        ("key", "want: key HH"),
        ("latch 1", "want: latch"),
        ("second 2", "want: second"),
        ("make it", "want: make"),
        ("step 1 2", "want: step [TIMES]"),
        ("run", "want: run BUDGET [TIMES]"),
        ("reset now", "want: reset"),
        ("look F8 80 0 0", "want: look CBAR CBR BBR ADDRESS LENGTH"),
        ("show me", "want: show"),
    ];
    all_read(&rt, rt.alloc(), &lines)
}

#[test]
fn wrong_words(rt: HostRuntime) -> Result<(), Fail> {
    let lines = [
        ("Reset", "unknown command"),
        ("resets", "unknown command"),
        (
            "rom 0x10",
            "LENGTH is not a decimal number up to 4294967295",
        ),
        (
            "ram 4294967296",
            "LENGTH is not a decimal number up to 4294967295",
        ),
        (
            "chain +5",
            "RECORDS is not a decimal number up to 4294967295",
        ),
        ("step -1", "TIMES is not a decimal number up to 4294967295"),
        ("run x y", "BUDGET is not a decimal number up to 4294967295"),
        ("script 100 5", "BYTE is not one or two hexadecimal digits"),
        ("script FF 5 x", "HH is not one or two hexadecimal digits"),
        (
            "script FF FF",
            "STATES is not a decimal number up to 4294967295",
        ),
        ("protect 0 7G", "PAGE is not one or two hexadecimal digits"),
        (
            "look 00F8 80 0 0 1",
            "CBAR is not one or two hexadecimal digits",
        ),
        (
            "look F8 x 0 0 1",
            "CBR is not one or two hexadecimal digits",
        ),
        (
            "look F8 80 x 0 1",
            "BBR is not one or two hexadecimal digits",
        ),
        (
            "look F8 80 0 10000 1",
            "ADDRESS is not one to four hexadecimal digits",
        ),
        (
            "bytes 100000000 0",
            "ADDRESS is not one to eight hexadecimal digits",
        ),
        ("patch 66", "a patch is written ADDRESS=HH"),
        (
            "patch =C9",
            "ADDRESS is not one to eight hexadecimal digits",
        ),
        ("patch 66=C9=1", "HH is not one or two hexadecimal digits"),
    ];
    all_read(&rt, rt.alloc(), &lines)
}

// FF is in no UTF-8.
#[test]
fn a_name_that_is_no_text(rt: HostRuntime) -> Result<(), Fail> {
    reads(&rt, rt.alloc(), b"image 0 \xFF", "FILE is not UTF-8")
}
