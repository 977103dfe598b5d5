// What scripts say.
use answers::call::Call;
use script::assembled::parse;
use script::entry::Entry;
use script::plan::PanelKind;
use script::put::What;
use std::process::Abort;
use std::test::Fail;

#[test]
fn make_alone_is_a_script(rt: HostRuntime) -> Result<(), Fail> {
    let script = parse(rt.alloc(), b"make")?;
    assert_eq!(rt; script.rom, 0);
    assert_eq!(rt; script.ram, 65_536);
    assert!(rt; script.puts.is_empty());
    assert!(rt; script.second.is_none());
    assert!(rt; script.protect.is_empty());
    assert!(rt; script.patch.is_empty());
    assert!(rt;
        matches!(
            script.panel,
            PanelKind::Chain {
                records: 4096,
                key: 0,
                latch: false
            }
        )
    );
    assert!(rt; script.log.is_empty());
    Ok(())
}

// Comments, empty lines, and a last line with its line feed.
#[test]
fn boards_of_a_script(rt: HostRuntime) -> Result<(), Fail> {
    let script = parse(
        rt.alloc(),
        b"# two boards\nrom 4096\nram 28672\n\nbytes 0 3E 05 ed # LD A,05H\nfill 7F00 256 C9\nsecond\nimage 100 rom.bin\nmake\n",
    )?;
    assert_eq!(rt; script.rom, 4096);
    assert_eq!(rt; script.ram, 28_672);
    let [code, end] = script.puts.as_slice() else {
        return Err(Fail::new("not two puts"));
    };
    assert_eq!(rt; code.line, 5);
    assert_eq!(rt; code.at, 0);
    assert!(rt;
        matches!(&code.what, What::Bytes(bytes) if bytes.as_slice() == [0x3E, 0x05, 0xED].as_slice())
    );
    assert_eq!(rt; end.line, 6);
    assert_eq!(rt; end.at, 0x7F00);
    assert!(rt;
        matches!(
            end.what,
            What::Fill {
                length: 256,
                byte: 0xC9
            }
        )
    );
    let Some(second) = &script.second else {
        return Err(Fail::new("no second board"));
    };
    let [image] = second.as_slice() else {
        return Err(Fail::new("not one put"));
    };
    assert_eq!(rt; image.line, 8);
    assert_eq!(rt; image.at, 0x100);
    assert!(rt; matches!(&image.what, What::Image(name) if name.as_str() == "rom.bin"));
    Ok(())
}

// Entries of several lines follow one another, and of two keys the later counts.
#[test]
fn plugs_and_a_chain_panel(rt: HostRuntime) -> Result<(), Fail> {
    let script = parse(
        rt.alloc(),
        b"protect 00 7F\npatch 40=C9 12345=0a\nprotect 20\nchain 64\nkey 41\nlatch\nkey 42\nmake\n",
    )?;
    let [first, last, behind] = script.protect.as_slice() else {
        return Err(Fail::new("not three pages"));
    };
    assert_eq!(rt; first.number, 0);
    assert_eq!(rt; last.number, 0x7F);
    assert_eq!(rt; behind.number, 0x20);
    let [low, high] = script.patch.as_slice() else {
        return Err(Fail::new("not two entries"));
    };
    assert_eq!(rt; low.address, 0x40);
    assert_eq!(rt; low.byte, 0xC9);
    assert_eq!(rt; high.address, 0x12345);
    assert_eq!(rt; high.byte, 0x0A);
    assert!(rt;
        matches!(
            script.panel,
            PanelKind::Chain {
                records: 64,
                key: 0x42,
                latch: true
            }
        )
    );
    Ok(())
}

#[test]
fn a_script_panel(rt: HostRuntime) -> Result<(), Fail> {
    let script = parse(rt.alloc(), b"script C7 1000 01 02 03\nmake\n")?;
    assert!(rt;
        matches!(
            &script.panel,
            PanelKind::Script { int0_byte: 0xC7, threshold: 1000, reads } if reads.as_slice() == [1, 2, 3].as_slice()
        )
    );
    Ok(())
}

// Each call with how many times it is made; budgets and lengths that the card denies stand in a log too.
#[test]
fn a_log(rt: HostRuntime) -> Result<(), Fail> {
    let script = parse(
        rt.alloc(),
        b"make\nstep\nstep 7\nrun 0\nrun 1000 3\nreset\nshow\nlook F0 80 7f 1234 5000\n",
    )?;
    let [step, steps, run, runs, reset, show, look] = script.log.as_slice() else {
        return Err(Fail::new("not seven entries"));
    };
    assert!(rt; matches!(step, Entry::Calls(Call::Step, 1)));
    assert!(rt; matches!(steps, Entry::Calls(Call::Step, 7)));
    assert!(rt; matches!(run, Entry::Calls(Call::Run(0), 1)));
    assert!(rt; matches!(runs, Entry::Calls(Call::Run(1000), 3)));
    assert!(rt; matches!(reset, Entry::Calls(Call::Reset, 1)));
    assert!(rt; matches!(show, Entry::Show));
    let Entry::Calls(Call::Look(window, 0x1234, 5000), 1) = look else {
        return Err(Fail::new("not that look"));
    };
    assert_eq!(rt; window.cbar, 0xF0);
    assert_eq!(rt; window.cbr, 0x80);
    assert_eq!(rt; window.bbr, 0x7F);
    Ok(())
}
