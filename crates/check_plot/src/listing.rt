// The listing on examples, each run and its registers made by hand.
use card::ran::{Ran, Stop};
use denial::{Denial, Fault};
use panel::Panel;
use panel::chain::Chain;
use panel::record::Record;
use plot::listing::listing;
use plot::unplotted::Unplotted;
use registers::registers::{Mode, Registers};
use registers::window::Window;
use std::alloc::Global;
use std::process::Abort;
use std::test::Fail;

// A panel of 64 records after these writes.
fn panel_after(heap: Global, writes: &[(u16, u8)]) -> Result<Chain, Fail> {
    let table = vec![in heap; Record::default(); 64]?;
    let mut panel = Chain::new(table)?;
    for (port, byte) in writes {
        panel.write(*port, *byte)?;
    }
    Ok(panel)
}

// Two handles, since one that ends the process gives no memory.
fn lists(
    rt: &impl Abort,
    heap: Global,
    ran: Ran,
    cpu: Registers,
    window: Window,
    panel: &Chain,
    expected: &str,
) -> Result<(), Fail> {
    let text = listing(heap, ran, cpu, window, panel)?;
    assert_eq!(rt; text.as_str(), expected);
    Ok(())
}

// 3E 05, ED 39 80, 76: the accumulator goes to port 80H, and the card halts.
#[test]
fn a_dot_by_the_pen(rt: HostRuntime) -> Result<(), Fail> {
    let mut cpu = Registers::new();
    cpu.pc = 6;
    cpu.main.a = 5;
    cpu.mode = Mode::Halted;
    lists(
        &rt,
        rt.alloc(),
        Ran {
            stop: Stop::Halted,
            steps: 3,
            cycles: 8,
            states: 22,
        },
        cpu,
        Window::RESET,
        &panel_after(rt.alloc(), &[(0x0080, 5)])?,
        "stop=halted steps=3 cycles=8 states=22\npc=0006 sp=0000 af=0500 cbar=F0\npen 1 0080 05 0\n",
    )
}

#[test]
fn asleep_reads_halted(rt: HostRuntime) -> Result<(), Fail> {
    let mut cpu = Registers::new();
    cpu.pc = 2;
    cpu.sp = 0xFFFE;
    cpu.mode = Mode::Asleep;
    lists(
        &rt,
        rt.alloc(),
        Ran {
            stop: Stop::Halted,
            steps: 1,
            cycles: 2,
            states: 8,
        },
        cpu,
        Window::RESET,
        &panel_after(rt.alloc(), &[])?,
        "stop=halted steps=1 cycles=2 states=8\npc=0002 sp=FFFE af=0000 cbar=F0\n",
    )
}

#[test]
fn spent(rt: HostRuntime) -> Result<(), Fail> {
    let mut cpu = Registers::new();
    cpu.pc = 0xABCD;
    cpu.main.a = 0xFF;
    cpu.main.f.s = true;
    cpu.main.f.c = true;
    lists(
        &rt,
        rt.alloc(),
        Ran {
            stop: Stop::Spent,
            steps: 334,
            cycles: 334,
            states: 1002,
        },
        cpu,
        Window::RESET,
        &panel_after(rt.alloc(), &[])?,
        "stop=spent steps=334 cycles=334 states=1002\npc=ABCD sp=0000 af=FF81 cbar=F0\n",
    )
}

// A fault prints neither its number nor where it was.
#[test]
fn fault(rt: HostRuntime) -> Result<(), Fail> {
    let fault = Fault {
        denial: Denial::PanelFull,
        pc: 0x1234,
    };
    lists(
        &rt,
        rt.alloc(),
        Ran {
            stop: Stop::Fault(fault),
            steps: 0,
            cycles: 0,
            states: 0,
        },
        Registers::new(),
        Window::RESET,
        &panel_after(rt.alloc(), &[(0x0080, 0xA5)])?,
        "stop=fault steps=0 cycles=0 states=0\npc=0000 sp=0000 af=0000 cbar=F0\npen 1 0080 A5 0\n",
    )
}

// Port 84H is recorded nowhere.
#[test]
fn three_chains_written_in_turns(rt: HostRuntime) -> Result<(), Fail> {
    let writes = [
        (0x0082, 0x10),
        (0x1280, 0x01),
        (0x0081, 0x20),
        (0x0084, 0x99),
        (0xFF81, 0xFE),
        (0x0080, 0x00),
        (0x0082, 0x0A),
        (0x3482, 0xB0),
        (0x0080, 0x02),
        (0x0080, 0x03),
        (0x0081, 0x30),
    ];
    let head =
        "stop=spent steps=4294967295 cycles=18446744073709551615 states=1000\npc=0000 sp=0000 af=0000 cbar=F0\n";
    let chains =
        "pen 2 1280 01 5\npen 5 0080 00 8\npen 8 0080 02 9\npen 9 0080 03 0\nx 3 0081 20 4\nx 4 FF81 FE 10\nx 10 0081 30 0\ny 1 0082 10 6\ny 6 0082 0A 7\ny 7 3482 B0 0\n";
    let expected = format!(in rt.alloc(); "{head}{chains}")?;
    lists(
        &rt,
        rt.alloc(),
        Ran {
            stop: Stop::Spent,
            steps: 0xFFFF_FFFF,
            cycles: 0xFFFF_FFFF_FFFF_FFFF,
            states: 1000,
        },
        Registers::new(),
        Window::RESET,
        &panel_after(rt.alloc(), &writes)?,
        expected.as_str(),
    )
}

#[test]
fn another_window(rt: HostRuntime) -> Result<(), Fail> {
    let window = Window {
        cbar: 0x84,
        cbr: 0x7C,
        bbr: 0x20,
    };
    lists(
        &rt,
        rt.alloc(),
        Ran {
            stop: Stop::Spent,
            steps: 1,
            cycles: 1,
            states: 3,
        },
        Registers::new(),
        window,
        &panel_after(rt.alloc(), &[])?,
        "stop=spent steps=1 cycles=1 states=3\npc=0000 sp=0000 af=0000 cbar=84\n",
    )
}

#[test]
fn refusals(rt: HostRuntime) -> Result<(), Fail> {
    let heap = rt.alloc();
    assert_eq!(rt; Unplotted::TooLong.to_string(heap)?.as_str(), "too long");
    assert_eq!(rt;
        Unplotted::NoMemory.to_string(heap)?.as_str(),
        "no memory for the listing"
    );
    Ok(())
}
