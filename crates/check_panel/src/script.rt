// The script panel on examples.
use panel::Panel;
use panel::line::Line;
use panel::script::Script;
use panel::sent::Sent;
use std::alloc::Global;
use std::process::Abort;
use std::test::Fail;

// A panel that answers nothing but FFH, and asks for INT0 at a threshold.
fn silent(heap: Global, threshold: u32) -> Script {
    Script::new(Vec::new(heap), threshold, 0xC7)
}

fn reads(rt: &impl Abort, panel: &mut Script, expected: &[(u16, u8)]) {
    for (port, byte) in expected {
        assert_eq!(rt; panel.read(*port), *byte);
    }
}

// Tells states, and says whether INT0 is asked for then.
fn told(rt: &impl Abort, panel: &mut Script, expected: &[(u32, bool)]) {
    for (states, asked) in expected {
        panel.tell(*states);
        assert_eq!(rt; panel.asks(Line::Int0), *asked);
    }
}

#[test]
fn answers_from_its_list(rt: HostRuntime) -> Result<(), Fail> {
    let mut panel = Script::new(vec![in rt.alloc(); 7, 8]?, 1, 0xC7);
    reads(
        &rt,
        &mut panel,
        &[(0, 7), (0xFFFF, 8), (0, 0xFF), (0x80, 0xFF)],
    );
    assert_eq!(rt; panel.int0_byte(), 0xC7);
    Ok(())
}

#[test]
fn counts_what_was_read(rt: HostRuntime) -> Result<(), Fail> {
    let mut panel = Script::new(vec![in rt.alloc(); 7, 8, 9]?, 1, 0xC7);
    for place in [0, 1, 2, 3, 3] {
        assert_eq!(rt; (panel.place(), panel.length()), (place, 3));
        panel.read(0x80);
    }
    Ok(())
}

#[test]
fn shows_what_it_was_told(rt: HostRuntime) {
    let mut panel = silent(rt.alloc(), 10);
    panel.tell(4_294_967_290);
    assert_eq!(rt; panel.told(), 4_294_967_290);
    panel.tell(6);
    assert_eq!(rt; panel.told(), 4_294_967_295);
    assert!(rt; !panel.acknowledged());
    panel.acknowledge(Line::Nmi);
    assert!(rt; !panel.acknowledged());
    panel.acknowledge(Line::Int0);
    assert!(rt; panel.acknowledged());
}

#[test]
fn keeps_the_last_write(rt: HostRuntime) -> Result<(), Fail> {
    let mut panel = silent(rt.alloc(), 1);
    assert_eq!(rt; panel.last_write(), None);
    panel.write(0x1234, 5)?;
    panel.write(0x8042, 6)?;
    assert!(rt; !panel.full());
    let last = Sent {
        port: 0x8042,
        byte: 6,
    };
    assert_eq!(rt; panel.last_write(), Some(last));
    Ok(())
}

#[test]
fn asks_once(rt: HostRuntime) {
    let mut panel = silent(rt.alloc(), 10);
    told(&rt, &mut panel, &[(9, false), (1, true), (0, true)]);
    assert!(rt; !panel.asks(Line::Nmi) && !panel.asks(Line::Int1) && !panel.asks(Line::Int2));
    panel.acknowledge(Line::Int1);
    told(&rt, &mut panel, &[(1, true)]);
    panel.acknowledge(Line::Int0);
    told(&rt, &mut panel, &[(0, false), (0xFFFF_FFFF, false)]);
}

#[test]
fn the_sum_saturates(rt: HostRuntime) {
    let mut panel = silent(rt.alloc(), 4_294_967_295);
    told(
        &rt,
        &mut panel,
        &[
            (4_294_967_290, false),
            (4, false),
            (9, true),
            (4_294_967_295, true),
        ],
    );
}
