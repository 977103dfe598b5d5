// What the boards of scripts hold.
use script::assembled::parse;
use script::filled::Filled;
use script::put::{Put, What};
use script::wrong::{Refused, Wrong};
use std::process::Abort;
use std::test::Fail;

// Puts before `second` are in both boards, later ones in the second alone, and a file lies where its line says.
#[test]
fn two_boards(rt: HostRuntime) -> Result<(), Fail> {
    let script = parse(
        rt.alloc(),
        b"rom 4\nram 4\nbytes 0 1 2 3\nimage 6 a\nfill 1 1 FF\nsecond\nimage 0 b\nmake\n",
    )?;
    let mut files = Vec::new(rt.alloc());
    files.push(Vec::new(rt.alloc()))?;
    files.push(Vec::from_slice(rt.alloc(), &[0xAA, 0xBB])?)?;
    files.push(Vec::new(rt.alloc()))?;
    files.push(Vec::from_slice(rt.alloc(), &[0xCC])?)?;
    let Filled { first, second } = script.boards(rt.alloc(), files.as_slice())?;
    assert_eq!(rt;
        first.as_slice(),
        [1, 0xFF, 3, 0, 0, 0, 0xAA, 0xBB].as_slice()
    );
    let Some(second) = second else {
        return Err(Fail::new("no second board"));
    };
    assert_eq!(rt;
        second.as_slice(),
        [0xCC, 0xFF, 3, 0, 0, 0, 0xAA, 0xBB].as_slice()
    );
    Ok(())
}

// A file that is a byte too long is found when it is put, and named by its line.
#[test]
fn a_file_too_long(rt: HostRuntime) -> Result<(), Fail> {
    let script = parse(rt.alloc(), b"ram 4\n\nimage 2 a\nmake\n")?;
    let mut files = Vec::new(rt.alloc());
    files.push(Vec::from_slice(rt.alloc(), &[1, 2, 3])?)?;
    let Err(refused) = script.boards(rt.alloc(), files.as_slice()) else {
        return Err(Fail::new("the file is put"));
    };
    assert_eq!(rt;
        refused.to_string(rt.alloc())?.as_str(),
        "line 3: there are bytes outside the board"
    );
    Ok(())
}

// An empty file puts nothing, wherever; a script without files needs none.
#[test]
fn nothing_put(rt: HostRuntime) -> Result<(), Fail> {
    let script = parse(
        rt.alloc(),
        b"ram 2\nimage FFFFFFFF a\nfill FFFFFFFF 0 1\nmake\n",
    )?;
    let boards = script.boards(rt.alloc(), &[])?;
    assert_eq!(rt; boards.first.as_slice(), [0, 0].as_slice());
    assert!(rt; boards.second.is_none());
    Ok(())
}

// A put that is refused leaves the board.
#[test]
fn unchanged(rt: HostRuntime) -> Result<(), Fail> {
    let mut board = [7u8; 4];
    let put = Put {
        line: 9,
        at: 1,
        what: What::Fill { length: 4, byte: 0 },
    };
    let Err(bad) = put.lay(&mut board, &[]) else {
        return Err(Fail::new("the bytes are put"));
    };
    assert_eq!(rt; bad.line, 9);
    assert!(rt; matches!(bad.wrong, Wrong::Outside));
    assert_eq!(rt; &board, &[7, 7, 7, 7]);
    Ok(())
}
