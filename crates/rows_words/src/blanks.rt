use crate::asked::answer;
use elements::Text;
use pass_words::{Opt, UsageFault, WordFault};
use std::alloc::AllocError;
use std::process::Abort;
use std::test::Fail;

/// The words `grid` and this one have a fault of the count's value.
fn refuses_count(word: &[u8], rt: &(impl Abort + AllocGlobal)) -> Result<(), AllocError> {
    let mut words = Vec::new(rt.alloc());
    words.push(Text::copy(rt.alloc(), b"grid")?)?;
    words.push(Text::copy(rt.alloc(), word)?)?;
    let key = Opt::Count;
    let about = word.escape_ascii();
    assert_eq!(rt;
        answer(words.as_slice()),
        Err(WordFault::Usage(UsageFault::Value { key })),
        "{about}"
    );
    Ok(())
}

#[test]
fn a_blank_is_no_part_of_a_count(rt: HostRuntime) -> Result<(), Fail> {
    refuses_count(b"--count= 1", &rt)?;
    refuses_count(b"--count=1 ", &rt)?;
    refuses_count(b"--count=1 0", &rt)?;
    refuses_count(b"--count=\t1", &rt)?;
    refuses_count(b"--count=1\n", &rt)?;
    refuses_count(b"--count=1\0", &rt)?;
    Ok(())
}
