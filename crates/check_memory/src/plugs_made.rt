// Making plugs: duplicates, the 33rd entry, entries out of range.
use denial::Denial;
use denial::unmade::Unmade;
use memory::Memory;
use memory::bank::Bank;
use memory::length::BoardLength;
use plugs::entry::{Page, PatchEntry};
use plugs::patch::Patch;
use plugs::protect::Protect;
use std::alloc::{AllocError, Global};
use std::process::Abort;
use std::test::Fail;

// What the memory below holds.
const BELOW: [u8; 2] = [0x55, 0xAA];

// Why a making was denied, if it was. The memory below comes back as it was.
fn denial_of<P: Drop, M: Memory + Drop>(
    rt: &impl Abort,
    made: Result<P, Unmade<M>>,
) -> Option<Denial> {
    let Err(unmade) = made else {
        return None;
    };
    assert_eq!(rt; unmade.given.read(1), Ok(0xAA));
    Some(unmade.denial)
}

// tried: one function over both kinds of entry; for a kind that is not known, the size of a plug over a bank has no bound.
fn protect_denied(rt: &impl Abort, pages: &[Page]) -> Result<Option<Denial>, Fail> {
    let mut bytes = BELOW;
    let size = BoardLength::of_bank(&bytes)?;
    let below = Bank::new(&mut bytes, size);
    Ok(denial_of(rt, Protect::new(below, pages)))
}

fn patch_denied(rt: &impl Abort, entries: &[PatchEntry]) -> Result<Option<Denial>, Fail> {
    let mut bytes = BELOW;
    let size = BoardLength::of_bank(&bytes)?;
    let below = Bank::new(&mut bytes, size);
    Ok(denial_of(rt, Patch::new(below, entries)))
}

// So many different pages, from 0 on, and then some more by number.
fn pages(heap: Global, different: u8, more: &[u8]) -> Result<Vec<Page>, AllocError> {
    (0..different)
        .chain(more.iter().copied())
        .map(|number| Page { number })
        .collect(heap)
}

#[test]
fn thirty_two_pages_are_made_and_a_33rd_is_denied(rt: HostRuntime) -> Result<(), Fail> {
    assert_eq!(rt; protect_denied(&rt, &pages(rt.alloc(), 32, &[])?)?, None);
    assert_eq!(rt;
        protect_denied(&rt, &pages(rt.alloc(), 33, &[])?)?,
        Some(Denial::TooManyEntries)
    );
    Ok(())
}

#[test]
fn a_bad_entry_behind_the_33rd_is_denied_first(rt: HostRuntime) -> Result<(), Fail> {
    assert_eq!(rt;
        protect_denied(&rt, &pages(rt.alloc(), 33, &[128])?)?,
        Some(Denial::EntryOutOfRange)
    );
    assert_eq!(rt;
        protect_denied(&rt, &pages(rt.alloc(), 33, &[127])?)?,
        Some(Denial::TooManyEntries)
    );
    Ok(())
}

#[test]
fn a_page_named_again_uses_no_place(rt: HostRuntime) -> Result<(), Fail> {
    assert_eq!(rt;
        protect_denied(&rt, &pages(rt.alloc(), 32, &[5, 5, 31, 0])?)?,
        None
    );
    assert_eq!(rt;
        protect_denied(&rt, &pages(rt.alloc(), 31, &[5, 5, 99, 99])?)?,
        None
    );
    assert_eq!(rt;
        protect_denied(&rt, &pages(rt.alloc(), 31, &[5, 99, 5, 100])?)?,
        Some(Denial::TooManyEntries)
    );
    Ok(())
}

#[test]
fn entries_at_the_ends_of_their_range(rt: HostRuntime) -> Result<(), Fail> {
    assert_eq!(rt; protect_denied(&rt, &[])?, None);
    assert_eq!(rt; protect_denied(&rt, &[Page { number: 127 }])?, None);
    assert_eq!(rt;
        protect_denied(&rt, &[Page { number: 255 }])?,
        Some(Denial::EntryOutOfRange)
    );
    assert_eq!(rt;
        patch_denied(
            &rt,
            &[PatchEntry {
                address: 524_287,
                byte: 0,
            }],
        )?,
        None
    );
    assert_eq!(rt;
        patch_denied(
            &rt,
            &[PatchEntry {
                address: 524_288,
                byte: 0,
            }],
        )?,
        Some(Denial::EntryOutOfRange)
    );
    Ok(())
}

// So many patches of different addresses, from 100 on.
fn patches(heap: Global, different: u32) -> Result<Vec<PatchEntry>, AllocError> {
    (0..different)
        .map(|i| PatchEntry {
            address: 100u32.wrapping_add(i),
            byte: 2,
        })
        .collect(heap)
}

#[test]
fn thirty_three_patches_are_denied(rt: HostRuntime) -> Result<(), Fail> {
    assert_eq!(rt;
        patch_denied(
            &rt,
            &[PatchEntry {
                address: 0,
                byte: 1,
            }; 33],
        )?,
        None
    );
    assert_eq!(rt; patch_denied(&rt, &patches(rt.alloc(), 32)?)?, None);
    assert_eq!(rt;
        patch_denied(&rt, &patches(rt.alloc(), 33)?)?,
        Some(Denial::TooManyEntries)
    );
    Ok(())
}

#[test]
fn of_two_patches_of_one_address_the_later_counts(rt: HostRuntime) -> Result<(), Fail> {
    let mut bytes = [0; 4];
    let size = BoardLength::of_bank(&bytes)?;
    let below = Bank::new(&mut bytes, size);
    let entries = [
        PatchEntry {
            address: 2,
            byte: 1,
        },
        PatchEntry {
            address: 3,
            byte: 5,
        },
        PatchEntry {
            address: 2,
            byte: 9,
        },
    ];
    // tried: map_err and `?`, behind which the borrow check covers no plug over a loan
    let Ok(patch) = Patch::new(below, &entries) else {
        return Err(Fail::new("the plug was denied"));
    };
    assert_eq!(rt; patch.read(2), Ok(9));
    assert_eq!(rt; patch.read(3), Ok(5));
    assert_eq!(rt; patch.read(1), Ok(0));
    Ok(())
}
