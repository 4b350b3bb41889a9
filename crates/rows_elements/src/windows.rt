//! Windows of time.
use elements::{Instant, Window};

#[test]
fn a_window_has_its_ticks(rt: HostRuntime) {
    let window = Window::make(Instant::from_nanos(86_400_000_000_000), 6_000_000, 600_000);
    assert_eq!(rt;
        window.start().nanos(),
        86_400_000_000_000,
        "a day after the zero of the scale"
    );
    assert_eq!(rt; window.ticks(), 6_000_000, "ten minutes");
    assert_eq!(rt; window.resolution(), 600_000, "a minute");
    assert_eq!(rt;
        window.instant_at(10_000).nanos(),
        86_401_000_000_000,
        "a second later"
    );
    assert_eq!(rt;
        window.end().nanos(),
        87_000_000_000_000,
        "ten minutes later"
    );
}
