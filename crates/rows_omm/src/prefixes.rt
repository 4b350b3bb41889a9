//! The beginnings of a message.
use crate::lines::{fault_parts, with};
use std::test::Fail;

#[test]
fn each_beginning_is_a_message_or_has_a_fault(rt: HostRuntime) -> Result<(), Fail> {
    let text = with(rt.alloc(), 0, "")?;
    for length in 0..503 {
        let beginning = text.as_slice().get(..length).unwrap_or(&[]);
        // The last angle is a number from its first digit on, but for an open bracket behind it.
        let is_message = (488 <= length && length < 497) || 501 <= length;
        let (fault, _, _) = fault_parts(beginning);
        assert!(rt; (fault == "") == is_message, "{length} bytes");
    }
    assert_eq!(rt; text.len(), 502, "the whole message");
    Ok(())
}
