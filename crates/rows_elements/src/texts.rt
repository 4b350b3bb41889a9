//! Texts.
use elements::Text;

#[test]
fn a_text_is_copied(rt: HostRuntime) {
    match Text::copy(rt.alloc(), b"ISS (ZARYA)") {
        Ok(text) => assert!(rt; text.bytes() == b"ISS (ZARYA)".as_slice(), "the bytes"),
        Err(_) => assert!(rt; false, "memory is left"),
    }
}
