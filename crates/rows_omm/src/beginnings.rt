//! Which lines begin a message.
use omm_kvn::begins_message;
use std::process::Abort;

/// The line begins a message, or does not.
fn line(text: &str, begins: bool, rt: &impl Abort) {
    assert!(rt; text.len() < 100, "{text}");
    assert!(rt; begins_message(text.as_bytes()) == begins, "{text}");
}

#[test]
fn a_message_begins_with_its_version(rt: HostRuntime) {
    line("CCSDS_OMM_VERS = 2.0", true, &rt);
    line(" \tCCSDS_OMM_VERS\t=", true, &rt);
    line("CCSDS_OMM_VERS=1\r", true, &rt);
    line("CCSDS_OMM_VERS", false, &rt);
    line("CCSDS_OMM_VERSION = 2.0", false, &rt);
    line("ccsds_omm_vers = 2.0", false, &rt);
    line("COMMENT CCSDS_OMM_VERS = 2.0", false, &rt);
    line("OBJECT_NAME = CCSDS_OMM_VERS = 2.0", false, &rt);
    line("MEAN_MOTION = 15.7", false, &rt);
    line("", false, &rt);
}
