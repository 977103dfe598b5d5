// Logs of one card.
use crate::cards::{over, pc_is, quiet, ran, with_room_for};
use answers::answer::Answer;
use answers::call::Call;
use answers::same::same;
use card::ran::Stop;
use card_log::replay::replay;
use denial::{Denial, Fault};
use machine::cost::Cost;
use memory::Memory;
use memory::bank::Bank;
use memory::length::BoardLength;
use registers::window::Window;
use std::alloc::Global;
use std::process::Abort;
use std::test::Fail;

const TOO_FAR: Window = Window {
    cbar: 0xF0,
    cbr: 128,
    bbr: 0,
};

const HUGE: usize = 0xFFFF_FFFF_FFFF_FFFF;

// Every kind of call, denied ones too.
const LINES: [Call; 14] = [
    Call::Step,
    Call::Look(Window::RESET, 0xFFFF, 3),
    Call::Run(0),
    Call::Run(1),
    Call::Run(1_000_001),
    Call::Step,
    Call::Run(1_000_000),
    Call::Look(TOO_FAR, 0, 1),
    Call::Look(Window::RESET, 0, 4097),
    Call::Look(Window::RESET, 0, HUGE),
    Call::Reset,
    Call::Look(Window::RESET, 7, 2),
    Call::Look(Window::RESET, 0, 0),
    Call::Step,
];

fn cost(cycles: u32, states: u32) -> Answer {
    Answer::Step(Ok(Cost { cycles, states }))
}

fn no_budget() -> Answer {
    Answer::Run(Err(Denial::BudgetOutOfRange))
}

fn no_look() -> Answer {
    Answer::Look(Err(Denial::LookOutOfRange))
}

// A step that is denied at PC 5 since the panel is full, and a run that it stops at once.
const FULL: Fault = Fault {
    denial: Denial::PanelFull,
    pc: 5,
};

fn stopped() -> Answer {
    Answer::Run(Ok(ran(Stop::Fault(FULL), 0, 0, 0)))
}

fn expected_answers(heap: Global) -> Result<Vec<Answer>, Fail> {
    let answers = vec![in heap;
        cost(2, 6),
        Answer::Look(Ok(vec![in heap; 0xFF, 0x3E, 5]?)),
        no_budget(),
        Answer::Run(Ok(ran(Stop::Spent, 1, 5, 13))),
        no_budget(),
        Answer::Step(Err(FULL)),
        stopped(),
        no_look(),
        no_look(),
        no_look(),
        Answer::Reset,
        Answer::Look(Ok(vec![in heap; 0x80, 0xFF]?)),
        Answer::Look(Ok(Vec::new(heap))),
        Answer::Step(Err(Fault {
            denial: Denial::PanelFull,
            pc: 0,
        })),
    ]?;
    Ok(answers)
}

fn answered(rt: &impl Abort, answers: &[Answer], expected: &[Answer]) {
    assert_eq!(rt; answers.len(), 14);
    assert_eq!(rt; expected.len(), 14);
    for (answer, right) in answers.iter().zip(expected) {
        assert!(rt; same(answer, right));
    }
}

// LD A,5 and two times OUT0 (80H),A; the panel has room for one write.
#[test]
fn every_kind_of_call(rt: HostRuntime) -> Result<(), Fail> {
    let heap = rt.alloc();
    let mut bytes = [0x3E, 5, 0xED, 0x39, 0x80, 0xED, 0x39, 0x80];
    let size = BoardLength::of_bank(&bytes)?;
    let bank = Bank::new(&mut bytes, size);
    let replayed = replay(heap, bank, with_room_for(heap, 1)?, &LINES);
    assert!(rt; replayed.log.complete);
    assert_eq!(rt; replayed.log.served, 14);
    pc_is(&rt, &replayed.card, 0);
    assert_eq!(rt; replayed.card.panel().used(), 1);
    answered(&rt, &replayed.log.answers, &expected_answers(heap)?);
    Ok(())
}

fn all_nops(rt: &impl Abort, answers: &[Answer]) {
    let nop = cost(1, 3);
    for answer in answers {
        assert!(rt; same(answer, &nop));
    }
}

#[test]
fn a_long_log_is_served_to_its_end(rt: HostRuntime) -> Result<(), Fail> {
    let heap = rt.alloc();
    let mut bytes = vec![in heap; 0u8; 4096]?;
    let size = BoardLength::of_bank(&bytes)?;
    let bank = Bank::new(&mut bytes, size);
    let lines = vec![in heap; Call::Step; 3000]?;
    let replayed = replay(heap, bank, quiet(heap), &lines);
    assert!(rt; replayed.log.complete);
    assert_eq!(rt; replayed.log.served, 3000);
    assert_eq!(rt; replayed.log.answers.len(), 3000);
    pc_is(&rt, &replayed.card, 3000);
    all_nops(&rt, &replayed.log.answers);
    Ok(())
}

#[test]
fn an_empty_log(rt: HostRuntime) -> Result<(), Fail> {
    let heap = rt.alloc();
    let mut bytes = [0];
    let size = BoardLength::of_bank(&bytes)?;
    let replayed = replay(heap, Bank::new(&mut bytes, size), quiet(heap), &[]);
    assert!(rt; replayed.log.complete);
    assert_eq!(rt; replayed.log.served, 0);
    assert_eq!(rt; replayed.log.answers.len(), 0);
    pc_is(&rt, &replayed.card, 0);
    Ok(())
}
