// What is printed of images, by running them.
use plot::unplotted::Unplotted;
use plotting::image::plot;
use std::process::Abort;
use std::test::Fail;

// LD A,05H, OUT0 (80H),A, HALT.
#[test]
fn a_dot_by_the_pen(rt: HostRuntime) -> Result<(), Fail> {
    let text = plot(rt.alloc(), &[0x3E, 0x05, 0xED, 0x39, 0x80, 0x76])?;
    assert_eq!(rt;
        text.as_str(),
        "stop=halted steps=3 cycles=8 states=22\npc=0006 sp=0000 af=0500 cbar=F0\npen 1 0080 05 0\n"
    );
    Ok(())
}

// SLP: a card that sleeps reads as halted.
#[test]
fn asleep(rt: HostRuntime) -> Result<(), Fail> {
    let text = plot(rt.alloc(), &[0xED, 0x76])?;
    assert_eq!(rt;
        text.as_str(),
        "stop=halted steps=1 cycles=3 states=8\npc=0002 sp=0000 af=0000 cbar=F0\n"
    );
    Ok(())
}

// JR to itself takes 3 cycles of 8 states together, so 125 of them spend 1,000.
#[test]
fn spent(rt: HostRuntime) -> Result<(), Fail> {
    let text = plot(rt.alloc(), &[0x18, 0xFE])?;
    assert_eq!(rt;
        text.as_str(),
        "stop=spent steps=125 cycles=375 states=1000\npc=0000 sp=0000 af=0000 cbar=F0\n"
    );
    Ok(())
}

// LD A,01H and OUT0 (80H),A again and again: the 64 records of the panel take 63 writes, and the step behind them is denied.
#[test]
fn a_panel_that_is_full(rt: HostRuntime) -> Result<(), Fail> {
    let mut image = Vec::from_slice(rt.alloc(), &[0x3E, 0x01])?;
    for _write in 0..64 {
        image.extend_from_slice(&[0xED, 0x39, 0x80])?;
    }
    let text = plot(rt.alloc(), &image)?;
    assert!(rt;
        text.as_str().starts_with(
            "stop=fault steps=64 cycles=317 states=825\npc=00BF sp=0000 af=0100 cbar=F0\npen 1 0080 01 2\npen 2 0080 01 3\n"
        )
    );
    assert!(rt;
        text.as_str()
            .ends_with("pen 62 0080 01 63\npen 63 0080 01 0\n")
    );
    assert_eq!(rt; text.as_str().lines().count(), 65);
    Ok(())
}

// As many bytes as the bank has, all of them NOPs.
#[test]
fn the_longest_image(rt: HostRuntime) -> Result<(), Fail> {
    let image = vec![in rt.alloc(); 0u8; 65_536]?;
    let text = plot(rt.alloc(), &image)?;
    assert_eq!(rt;
        text.as_str(),
        "stop=spent steps=334 cycles=334 states=1002\npc=014E sp=0000 af=0000 cbar=F0\n"
    );
    Ok(())
}

#[test]
fn a_byte_more_is_too_long(rt: HostRuntime) -> Result<(), Fail> {
    let image = vec![in rt.alloc(); 0u8; 65_537]?;
    let Err(reason) = plot(rt.alloc(), &image) else {
        return Err(Fail::new("the image is plotted"));
    };
    assert!(rt; matches!(reason, Unplotted::TooLong));
    assert_eq!(rt; reason.to_string(rt.alloc())?.as_str(), "too long");
    Ok(())
}
