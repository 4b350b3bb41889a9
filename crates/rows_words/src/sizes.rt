use crate::asked::{Asked, answer};
use elements::Text;
use pass_words::{Opt, UsageFault, WindowFault, WordFault};
use std::alloc::{AllocError, Global};
use std::process::Abort;
use std::test::Fail;

/// The words ask for this, or have this fault.
fn expect(words: &[Text], wanted: Result<Asked<'_>, WordFault>, about: &str, rt: &impl Abort) {
    assert_eq!(rt; answer(words), wanted, "{about}");
}

/// Adds the word `--key=value`.
fn push_option(
    alloc: Global,
    words: &mut Vec<Text>,
    key: &[u8],
    value: &[u8],
) -> Result<(), AllocError> {
    let mut word = Vec::new(alloc);
    word.extend_from_slice(key)?;
    word.extend_from_slice(value)?;
    words.push(Text::copy(alloc, word.as_slice())?)?;
    Ok(())
}

/// The words of `day` with these values for lat, lon, start, end and res.
fn day_words(
    alloc: Global,
    lat: &[u8],
    lon: &[u8],
    start: &[u8],
    last: &[u8],
    res: &[u8],
) -> Result<Vec<Text>, AllocError> {
    let mut words = Vec::new(alloc);
    words.push(Text::copy(alloc, b"day")?)?;
    push_option(alloc, &mut words, b"--lat=", lat)?;
    push_option(alloc, &mut words, b"--lon=", lon)?;
    push_option(alloc, &mut words, b"--start=", start)?;
    push_option(alloc, &mut words, b"--end=", last)?;
    push_option(alloc, &mut words, b"--res=", res)?;
    Ok(words)
}

const START: &[u8] = b"2000-06-21T00:00:00Z";

const HOUR: &[u8] = b"2000-06-21T01:00:00Z";

/// `day` and a hundred thousand more words.
fn many_words(alloc: Global, word: &[u8]) -> Result<Vec<Text>, AllocError> {
    let mut words = Vec::new(alloc);
    words.push(Text::copy(alloc, b"day")?)?;
    for _ in 0..100_000 {
        words.push(Text::copy(alloc, word)?)?;
    }
    Ok(words)
}

/// `day` and a hundred thousand more words have this fault.
fn many(word: &[u8], fault: UsageFault, rt: &(impl Abort + AllocGlobal)) -> Result<(), AllocError> {
    let words = many_words(rt.alloc(), word)?;
    expect(
        words.as_slice(),
        Err(WordFault::Usage(fault)),
        "many words",
        rt,
    );
    Ok(())
}

#[test]
fn a_hundred_thousand_words_have_one_fault(rt: HostRuntime) -> Result<(), Fail> {
    many(b"", UsageFault::Word { at: 2 }, &rt)?;
    many(b"--lat", UsageFault::Word { at: 2 }, &rt)?;
    many(b"--lat=1", UsageFault::Twice { key: Opt::Lat }, &rt)?;
    many(b"\xff\xfe", UsageFault::Word { at: 2 }, &rt)?;
    Ok(())
}

/// `grid` with this value of its count has a fault of it.
fn refuses_count(value: &[u8], rt: &(impl Abort + AllocGlobal)) -> Result<(), AllocError> {
    let mut words = Vec::new(rt.alloc());
    words.push(Text::copy(rt.alloc(), b"grid")?)?;
    push_option(rt.alloc(), &mut words, b"--count=", value)?;
    let fault = UsageFault::Value { key: Opt::Count };
    expect(
        words.as_slice(),
        Err(WordFault::Usage(fault)),
        "a megabyte",
        rt,
    );
    Ok(())
}

#[test]
fn a_count_of_a_megabyte_is_refused(rt: HostRuntime) -> Result<(), Fail> {
    let mut long = vec![in rt.alloc(); b'1'; 1_000_000]?;
    refuses_count(long.as_slice(), &rt)?;
    long.push(b'x')?;
    refuses_count(long.as_slice(), &rt)?;
    Ok(())
}

#[test]
fn words_of_a_megabyte_are_read_to_their_end(rt: HostRuntime) -> Result<(), Fail> {
    let alloc = rt.alloc();
    let mut long = vec![in alloc; b'0'; 1_000_000]?;
    // A million zeros write the number 0.
    let words = day_words(alloc, long.as_slice(), b"7", START, HOUR, b"1")?;
    let wanted = Ok(Asked::Day((0, 0), (7, 0), (14_817_600_000_000_000, 36_000_000, 10_000)));
    expect(words.as_slice(), wanted, "a megabyte of zeros", &rt);
    let words = day_words(alloc, b"0", b"0", START, long.as_slice(), b"1")?;
    expect(
        words.as_slice(),
        Err(WordFault::Window(WindowFault::Shape)),
        "a megabyte",
        &rt,
    );
    let words = day_words(alloc, b"0", b"0", START, HOUR, long.as_slice())?;
    expect(
        words.as_slice(),
        Err(WordFault::Window(WindowFault::Resolution)),
        "a megabyte",
        &rt,
    );
    long.push(b'\xff')?;
    let words = day_words(alloc, b"0", long.as_slice(), START, HOUR, b"1")?;
    expect(
        words.as_slice(),
        Err(WordFault::Usage(UsageFault::Word { at: 3 })),
        "a megabyte",
        &rt,
    );
    Ok(())
}
