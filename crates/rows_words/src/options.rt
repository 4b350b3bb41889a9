use crate::asked::answer;
use crate::words::words_of;
use pass_words::{Opt, UsageFault, WordFault};
use std::alloc::AllocError;
use std::process::Abort;
use std::test::Fail;

/// The words of a line have this fault.
fn refuses(
    line: &[u8],
    fault: UsageFault,
    rt: &(impl Abort + AllocGlobal),
) -> Result<(), AllocError> {
    let words = words_of(rt.alloc(), line)?;
    let about = line.escape_ascii();
    assert_eq!(rt;
        answer(words.as_slice()),
        Err(WordFault::Usage(fault)),
        "{about}"
    );
    Ok(())
}

#[test]
fn no_word_is_no_command(rt: HostRuntime) {
    assert_eq!(rt; answer(&[]), Err(WordFault::Usage(UsageFault::NoCommand)));
}

#[test]
fn a_word_that_is_not_utf8_is_told_by_its_number(rt: HostRuntime) -> Result<(), Fail> {
    refuses(b"\xff", UsageFault::Command, &rt)?;
    refuses(b"day\xff", UsageFault::Command, &rt)?;
    refuses(b"day --start=\xff", UsageFault::Word { at: 2 }, &rt)?;
    refuses(b"day --l\xff=1", UsageFault::Word { at: 2 }, &rt)?;
    refuses(b"day --lat -\xff", UsageFault::Word { at: 2 }, &rt)?;
    refuses(b"day --lat \xff", UsageFault::Word { at: 3 }, &rt)?;
    refuses(b"day --lat 1 \xff", UsageFault::Word { at: 4 }, &rt)?;
    refuses(b"day --lat=1 --lat=\xff", UsageFault::Word { at: 3 }, &rt)?;
    refuses(b"day --lat=1 --lat -\xff", UsageFault::Word { at: 3 }, &rt)?;
    refuses(
        b"show --catalogue \xff --start=x",
        UsageFault::Word { at: 3 },
        &rt,
    )?;
    refuses(
        b"show --catalogue=\xff --start=x",
        UsageFault::Word { at: 2 },
        &rt,
    )?;
    refuses(b"plan --stations \xff", UsageFault::Word { at: 3 }, &rt)?;
    refuses(b"grid --count \xff", UsageFault::Word { at: 3 }, &rt)?;
    refuses(b"grid --count=1\xff", UsageFault::Word { at: 2 }, &rt)?;
    refuses(b"book --antennas \xff", UsageFault::Word { at: 3 }, &rt)?;
    refuses(b"book --antennas=1\xff", UsageFault::Word { at: 2 }, &rt)?;
    Ok(())
}

#[test]
fn a_repeated_key_stands_before_its_value(rt: HostRuntime) -> Result<(), Fail> {
    let key = Opt::Lat;
    refuses(b"day --lat=1 --lat \xff", UsageFault::Twice { key }, &rt)?;
    Ok(())
}
