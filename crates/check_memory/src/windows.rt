// The window on examples.
use registers::window::{Area, Window};

#[test]
fn addresses_on_both_sides_of_a_border(rt: HostRuntime) {
    let window = Window {
        cbar: 0x84,
        cbr: 0x7C,
        bbr: 0x20,
    };
    for (at, physical) in [
        (0x3FFF, 0x03FFF),
        (0x4000, 0x24000),
        (0x7FFF, 0x27FFF),
        (0x8000, 0x04000),
        (0xFFFF, 0x0BFFF),
    ] {
        assert_eq!(rt; window.physical(at), physical);
    }
}

#[test]
fn common_area_1_has_the_first_claim(rt: HostRuntime) {
    let window = Window {
        cbar: 0x48,
        cbr: 0,
        bbr: 0,
    };
    assert_eq!(rt; window.area(5), Area::Common1);
    assert_eq!(rt; window.area(2), Area::Common0);
}

#[test]
fn the_page_wraps_at_128(rt: HostRuntime) {
    let window = Window {
        cbar: 0x00,
        cbr: 0x7F,
        bbr: 0,
    };
    assert_eq!(rt; window.shown_page(0), 0x7F);
    assert_eq!(rt; window.shown_page(1), 0);
    assert_eq!(rt; window.physical(0xFFFF), 0x0EFFF);
}

#[test]
fn after_reset_the_bottom_of_memory_is_shown(rt: HostRuntime) {
    for page in 0..16 {
        assert_eq!(rt; Window::RESET.shown_page(page), page);
    }
    assert!(rt; !Window::RESET.opens_on(16));
}
