// The first line that is wrong, as it is printed.
use script::assembled::{Script, parse};
use script::wrong::Refused;
use std::alloc::AllocError;
use std::process::Abort;
use std::test::Fail;

// What is printed in place of a script.
fn printed(rt: &HostRuntime, text: &[u8]) -> Result<String, AllocError> {
    match parse(rt.alloc(), text) {
        Ok(_) => String::from_str(rt.alloc(), "accepted"),
        Err(refused) => refused.to_string(rt.alloc()),
    }
}

#[test]
fn make_is_missing(rt: HostRuntime) -> Result<(), Fail> {
    assert_eq!(rt; printed(&rt, b"")?.as_str(), "line 1: make is missing");
    assert_eq!(rt;
        printed(&rt, b"ram 10\nrom 10")?.as_str(),
        "line 3: make is missing"
    );
    assert_eq!(rt;
        printed(&rt, b"ram 10\nrom 10\n")?.as_str(),
        "line 3: make is missing"
    );
    Ok(())
}

#[test]
fn make_twice(rt: HostRuntime) -> Result<(), Fail> {
    assert_eq!(rt;
        printed(&rt, b"make\n\nmake\n")?.as_str(),
        "line 3: make comes once"
    );
    Ok(())
}

#[test]
fn before_and_behind_make(rt: HostRuntime) -> Result<(), Fail> {
    let setup: [&[u8]; 12] = [
        b"make\nrom 1",
        b"make\nram 1",
        b"make\nbytes 0 0",
        b"make\nfill 0 1 0",
        b"make\nimage 0 a",
        b"make\nprotect 0",
        b"make\npatch 0=0",
        b"make\nchain 4",
        b"make\nscript 0 0",
        b"make\nkey 0",
        b"make\nlatch",
        b"make\nsecond",
    ];
    for text in setup {
        assert_eq!(rt;
            printed(&rt, text)?.as_str(),
            "line 2: this comes before make"
        );
    }
    let calls: [&[u8]; 5] = [
        b"step\nmake",
        b"run 1\nmake",
        b"reset\nmake",
        b"look 0 0 0 0 1\nmake",
        b"show\nmake",
    ];
    for text in calls {
        assert_eq!(rt;
            printed(&rt, text)?.as_str(),
            "line 1: this comes behind make"
        );
    }
    Ok(())
}

#[test]
fn lengths(rt: HostRuntime) -> Result<(), Fail> {
    assert_eq!(rt;
        printed(&rt, b"rom 1\nrom 1\nmake")?.as_str(),
        "line 2: rom is given twice"
    );
    assert_eq!(rt;
        printed(&rt, b"ram 1\nram 1\nmake")?.as_str(),
        "line 2: ram is given twice"
    );
    let late: [&[u8]; 4] = [
        b"bytes 0 0\nrom 1\nmake",
        b"fill 0 0 0\nram 1\nmake",
        b"image 0 a\nrom 1\nmake",
        b"second\nram 1\nmake",
    ];
    for text in late {
        assert_eq!(rt;
            printed(&rt, text)?.as_str(),
            "line 2: rom and ram come before bytes, fill, image and second"
        );
    }
    assert_eq!(rt;
        printed(&rt, b"rom 4294967295\nram 4294967295\nmake")?.as_str(),
        "accepted"
    );
    Ok(())
}

#[test]
fn panels(rt: HostRuntime) -> Result<(), Fail> {
    let late: [&[u8]; 5] = [
        b"chain 4\nchain 4\nmake",
        b"chain 4\nscript 0 0\nmake",
        b"script 0 0\nchain 4\nmake",
        b"key 0\nchain 4\nmake",
        b"latch\nscript 0 0\nmake",
    ];
    for text in late {
        assert_eq!(rt;
            printed(&rt, text)?.as_str(),
            "line 2: chain or script comes once, before key and latch"
        );
    }
    assert_eq!(rt;
        printed(&rt, b"script 0 0\nkey 0\nmake")?.as_str(),
        "line 2: key and latch are for a chain panel"
    );
    assert_eq!(rt;
        printed(&rt, b"script 0 0\nlatch\nmake")?.as_str(),
        "line 2: key and latch are for a chain panel"
    );
    Ok(())
}

// A board's last byte, and the byte behind it.
#[test]
fn outside(rt: HostRuntime) -> Result<(), Fail> {
    assert_eq!(rt;
        printed(&rt, b"rom 16\nram 16\nbytes 1E 1 2\nmake")?.as_str(),
        "accepted"
    );
    assert_eq!(rt;
        printed(&rt, b"rom 16\nram 16\nbytes 1E 1 2 3\nmake")?.as_str(),
        "line 3: there are bytes outside the board"
    );
    assert_eq!(rt; printed(&rt, b"fill FFFF 1 0\nmake")?.as_str(), "accepted");
    assert_eq!(rt;
        printed(&rt, b"fill FFFF 2 0\nmake")?.as_str(),
        "line 1: there are bytes outside the board"
    );
    assert_eq!(rt;
        printed(&rt, b"fill FFFFFFFF 4294967295 0\nmake")?.as_str(),
        "line 1: there are bytes outside the board"
    );
    assert_eq!(rt;
        printed(&rt, b"fill FFFFFFFF 0 0\nmake")?.as_str(),
        "accepted"
    );
    assert_eq!(rt;
        printed(&rt, b"image FFFFFFFF a\nmake")?.as_str(),
        "accepted"
    );
    Ok(())
}

// Of several bad lines the first is named, also if the second is known before by its words alone.
#[test]
fn the_first(rt: HostRuntime) -> Result<(), Fail> {
    assert_eq!(rt;
        printed(&rt, b"second\nsecond\nwalk\n")?.as_str(),
        "line 2: second comes once"
    );
    Ok(())
}
