// The line of each kind of answer, and the other lines that stand alone.
use answers::answer::Answer;
use card::ran::{Ran, Stop};
use denial::{Denial, Fault};
use machine::cost::Cost;
use opened::pages::Pages;
use registers::window::Window;
use std::alloc::Global;
use std::process::Abort;
use std::test::Fail;
use transcript::answer::answer_line;
use transcript::compared::compared_line;
use transcript::denied::denial_line;
use transcript::pages_line::opened_line;

// A step, or a run, that met a full panel.
const FULL: Fault = Fault {
    denial: Denial::PanelFull,
    pc: 0x08A4,
};

// Two handles, here and below, since one that ends the process gives no memory. The line comes behind what the text holds.
fn prints(rt: &impl Abort, heap: Global, answer: &Answer, expected: &str) -> Result<(), Fail> {
    let mut text = String::new(heap);
    text.push_str("> ")?;
    answer_line(&mut text, answer)?;
    assert_eq!(rt; text.as_str(), expected);
    Ok(())
}

fn prints_run(rt: &impl Abort, heap: Global, stop: Stop, expected: &str) -> Result<(), Fail> {
    let ran = Ran {
        stop,
        steps: 12,
        cycles: 30,
        states: 105,
    };
    prints(rt, heap, &Answer::Run(Ok(ran)), expected)
}

#[test]
fn steps(rt: HostRuntime) -> Result<(), Fail> {
    let cost = Cost {
        cycles: 4,
        states: 13,
    };
    prints(
        &rt,
        rt.alloc(),
        &Answer::Step(Ok(cost)),
        "> step cycles=4 states=13\n",
    )?;
    prints(
        &rt,
        rt.alloc(),
        &Answer::Step(Err(FULL)),
        "> denied 8 panel pc=08A4\n",
    )
}

#[test]
fn runs(rt: HostRuntime) -> Result<(), Fail> {
    let (rt, heap) = (&rt, rt.alloc());
    prints_run(
        rt,
        heap,
        Stop::Halted,
        "> run stop=halted steps=12 cycles=30 states=105\n",
    )?;
    prints_run(
        rt,
        heap,
        Stop::Spent,
        "> run stop=spent steps=12 cycles=30 states=105\n",
    )?;
    prints_run(
        rt,
        heap,
        Stop::Fault(FULL),
        "> run stop=fault steps=12 cycles=30 states=105 denied 8 panel pc=08A4\n",
    )?;
    prints(
        rt,
        heap,
        &Answer::Run(Err(Denial::BudgetOutOfRange)),
        "> denied 6 card\n",
    )
}

#[test]
fn a_reset(rt: HostRuntime) -> Result<(), Fail> {
    prints(&rt, rt.alloc(), &Answer::Reset, "> reset\n")
}

#[test]
fn looks(rt: HostRuntime) -> Result<(), Fail> {
    let (rt, heap) = (&rt, rt.alloc());
    let bytes = vec![in heap; 0x00, 0x3E, 0x0A, 0xFF]?;
    prints(rt, heap, &Answer::Look(Ok(bytes)), "> look 00 3E 0A FF\n")?;
    prints(rt, heap, &Answer::Look(Ok(Vec::new(heap))), "> look\n")?;
    prints(
        rt,
        heap,
        &Answer::Look(Err(Denial::LookOutOfRange)),
        "> denied 7 card\n",
    )
}

#[test]
fn every_denial(rt: HostRuntime) -> Result<(), Fail> {
    let mut text = String::new(rt.alloc());
    for denial in [
        Denial::MemoryTooLong,
        Denial::EntryOutOfRange,
        Denial::TooManyEntries,
        Denial::TableLength,
        Denial::AddressBeyondMemory,
        Denial::BudgetOutOfRange,
        Denial::LookOutOfRange,
        Denial::PanelFull,
        Denial::NoRestartByte,
    ] {
        denial_line(&mut text, denial)?;
    }
    assert_eq!(&rt;
        text.as_str(),
        "denied 1 making\ndenied 2 making\ndenied 3 making\ndenied 4 making\ndenied 5 memory\ndenied 6 card\ndenied 7 card\ndenied 8 panel\ndenied 9 panel\n"
    );
    Ok(())
}

#[test]
fn comparisons(rt: HostRuntime) -> Result<(), Fail> {
    let mut text = String::new(rt.alloc());
    for differs in [None, Some(0), Some(41), Some(18_446_744_073_709_551_615)] {
        compared_line(&mut text, differs)?;
    }
    assert_eq!(&rt;
        text.as_str(),
        "alike\ndiffers at line 1\ndiffers at line 42\ndiffers at line 18446744073709551616\n"
    );
    Ok(())
}

// Pages 00H to 0EH, and 7FH behind a gap.
#[test]
fn pages(rt: HostRuntime) -> Result<(), Fail> {
    let mut text = String::new(rt.alloc());
    let mut pages = Pages::none();
    opened_line(&mut text, &pages)?;
    pages.open(Window {
        cbar: 0xF0,
        cbr: 0x70,
        bbr: 0,
    });
    opened_line(&mut text, &pages)?;
    assert_eq!(&rt;
        text.as_str(),
        "opened\nopened 00 01 02 03 04 05 06 07 08 09 0A 0B 0C 0D 0E 7F\n"
    );
    Ok(())
}
