// The chain panel on examples.
use denial::Denial;
use panel::Panel;
use panel::chain::Chain;
use panel::line::Line;
use panel::record::Record;
use panel::track::Track;
use std::alloc::Global;
use std::process::Abort;
use std::test::Fail;

// What a table may hold before it is handed over: no next number in it is right.
const GARBAGE: Record = Record {
    port: 0xABCD,
    byte: 0xEE,
    next: 2,
};

fn ending(port: u16, byte: u8) -> Record {
    Record {
        port,
        byte,
        next: 0,
    }
}

fn naming(port: u16, byte: u8, next: u16) -> Record {
    Record { port, byte, next }
}

// A panel over a table of so many records of garbage.
fn panel_of(heap: Global, records: usize) -> Result<Chain, Fail> {
    let table = vec![in heap; GARBAGE; records]?;
    Ok(Chain::new(table)?)
}

fn write_all(panel: &mut Chain, writes: &[(u16, u8)]) -> Result<(), Fail> {
    for (port, byte) in writes {
        panel.write(*port, *byte)?;
    }
    Ok(())
}

fn all_denied(rt: &impl Abort, panel: &mut Chain, ports: &[u16]) {
    for port in ports {
        assert_eq!(rt; panel.write(*port, 0x55), Err(Denial::PanelFull));
    }
}

// The records of a chain, each with its number.
fn chain_is(rt: &impl Abort, panel: &Chain, track: Track, expected: &[(u16, Record)]) {
    let mut walk = panel.walk(track);
    for entry in expected {
        assert_eq!(rt; walk.next(), Some(*entry));
    }
    assert_eq!(rt; walk.next(), None);
}

// How many records are used, the key byte and the latch.
fn shows(rt: &impl Abort, panel: &Chain, used: u16, key: u8, latch: bool) {
    assert_eq!(rt; panel.used(), used);
    assert_eq!(rt; panel.key(), key);
    assert_eq!(rt; panel.latch(), latch);
}

// Which lines it asks for, NMI first.
fn asks_for(rt: &impl Abort, panel: &Chain, expected: [bool; 4]) {
    let lines = [Line::Nmi, Line::Int0, Line::Int1, Line::Int2];
    for (line, asked) in lines.iter().zip(expected.iter()) {
        assert_eq!(rt; panel.asks(*line), *asked);
    }
}

// The records of the table that a panel hands back.
fn handed_back(rt: &impl Abort, panel: Chain, expected: &[Record]) {
    let table = panel.into_table();
    assert_eq!(rt; table.as_slice(), expected);
}

#[test]
fn two_records(rt: HostRuntime) -> Result<(), Fail> {
    let mut panel = panel_of(rt.alloc(), 2)?;
    assert!(rt; !panel.full() && panel.usable() == 1);
    // the first port is not recorded and takes no record
    write_all(&mut panel, &[(0x0084, 7), (0x1282, 5)])?;
    assert!(rt; panel.full());
    all_denied(&rt, &mut panel, &[0x0084, 0x0082]);
    assert_eq!(rt; panel.first(Track::Y), 1);
    handed_back(&rt, panel, &[GARBAGE, ending(0x1282, 5)]);
    Ok(())
}

const PLOT: [(u16, u8); 4] = [(0x0080, 1), (0x0081, 2), (0xFF80, 3), (0x0080, 4)];

// A panel of 5 records that is full. Two handles, since one that ends the process gives no memory.
fn full_panel(rt: &impl Abort, heap: Global) -> Result<Chain, Fail> {
    let mut panel = panel_of(heap, 5)?;
    panel.set_key(9);
    panel.set_latch(true);
    write_all(&mut panel, &PLOT)?;
    assert!(rt; panel.full());
    Ok(panel)
}

fn holds_the_plot(rt: &impl Abort, panel: &Chain) {
    shows(rt, panel, 4, 9, true);
    chain_is(
        rt,
        panel,
        Track::Pen,
        &[
            (1, naming(0x0080, 1, 3)),
            (3, naming(0xFF80, 3, 4)),
            (4, ending(0x0080, 4)),
        ],
    );
    chain_is(rt, panel, Track::X, &[(2, ending(0x0081, 2))]);
    chain_is(rt, panel, Track::Y, &[]);
}

#[test]
fn full_and_denied(rt: HostRuntime) -> Result<(), Fail> {
    let mut panel = full_panel(&rt, rt.alloc())?;
    holds_the_plot(&rt, &panel);
    all_denied(&rt, &mut panel, &[0x0080, 0x0081, 0x0082, 0x0083, 0]);
    holds_the_plot(&rt, &panel);
    handed_back(
        &rt,
        panel,
        &[
            GARBAGE,
            naming(0x0080, 1, 3),
            ending(0x0081, 2),
            naming(0xFF80, 3, 4),
            ending(0x0080, 4),
        ],
    );
    Ok(())
}

#[test]
fn cleared_and_written_again(rt: HostRuntime) -> Result<(), Fail> {
    let mut panel = full_panel(&rt, rt.alloc())?;
    panel.clear();
    shows(&rt, &panel, 0, 9, true);
    chain_is(&rt, &panel, Track::Pen, &[]);
    write_all(&mut panel, &[(0x0081, 8)])?;
    chain_is(&rt, &panel, Track::X, &[(1, ending(0x0081, 8))]);
    // the other records keep the bytes of the plot before
    handed_back(
        &rt,
        panel,
        &[
            GARBAGE,
            ending(0x0081, 8),
            ending(0x0081, 2),
            naming(0xFF80, 3, 4),
            ending(0x0080, 4),
        ],
    );
    Ok(())
}

#[test]
fn unused_records_are_not_read(rt: HostRuntime) -> Result<(), Fail> {
    let mut panel = panel_of(rt.alloc(), 4096)?;
    assert_eq!(rt; panel.usable(), 4095);
    write_all(&mut panel, &[(0x0080, 1)])?;
    assert_eq!(rt; panel.record(1), Some(ending(0x0080, 1)));
    for number in [0, 2, 4095, 4096, 0xFFFF] {
        assert_eq!(rt; panel.record(number), None);
    }
    Ok(())
}

#[test]
fn tables_of_other_lengths(rt: HostRuntime) -> Result<(), Fail> {
    for records in [0, 1, 4097] {
        let table = vec![in rt.alloc(); GARBAGE; records]?;
        let Err(unmade) = Chain::new(table) else {
            return Err(Fail::new("the table is taken"));
        };
        assert_eq!(rt; unmade.denial, Denial::TableLength);
        assert_eq!(rt; unmade.denial.number(), 4);
        assert_eq!(rt; unmade.given.len(), records);
        for record in unmade.given.iter() {
            assert_eq!(rt; *record, GARBAGE);
        }
    }
    Ok(())
}

#[test]
fn lines(rt: HostRuntime) -> Result<(), Fail> {
    let mut panel = panel_of(rt.alloc(), 2)?;
    asks_for(&rt, &panel, [false; 4]);
    panel.set_key(1);
    panel.set_latch(true);
    panel.acknowledge(Line::Int1);
    panel.tell(0xFFFF_FFFF);
    asks_for(&rt, &panel, [true, false, true, false]);
    panel.acknowledge(Line::Nmi);
    asks_for(&rt, &panel, [false, false, true, false]);
    Ok(())
}

#[test]
fn reads(rt: HostRuntime) -> Result<(), Fail> {
    let mut panel = panel_of(rt.alloc(), 2)?;
    panel.set_key(0x41);
    assert_eq!(rt; panel.read(0x1283), 0x41);
    assert_eq!(rt; panel.read(0x1280), 0xFF);
    assert_eq!(rt; panel.int0_byte(), 0xFF);
    Ok(())
}
