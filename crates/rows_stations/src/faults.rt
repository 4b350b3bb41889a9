//! Station files that are refused, each with its first fault.
use station_file::{StFault, Stations, read_stations};
use std::alloc::{AllocError, Global};
use std::test::Fail;

/// What a reading comes to, in words: `read`, or the fault with its station and its key.
fn told(alloc: Global, read: Result<Stations, StFault>) -> Result<String, AllocError> {
    let Err(fault) = read else {
        return String::from_str(alloc, "read");
    };
    match fault {
        StFault::NotUtf8 => String::from_str(alloc, "not utf8"),
        StFault::NotToml => String::from_str(alloc, "not toml"),
        StFault::Empty => String::from_str(alloc, "empty"),
        StFault::TooMany => String::from_str(alloc, "too many"),
        StFault::OutOfMemory => String::from_str(alloc, "no memory"),
        StFault::Shape { index, key } => format!(in alloc; "shape {index} {}", key.name()),
        StFault::Range { index, key } => format!(in alloc; "range {index} {}", key.name()),
        StFault::Twice { index } => format!(in alloc; "twice {index}"),
        StFault::Mask { index } => format!(in alloc; "mask {index}"),
    }
}

/// Whether bytes come to this.
fn is(alloc: Global, bytes: &[u8], answer: &str) -> Result<bool, AllocError> {
    let found = told(alloc, read_stations(alloc, bytes))?;
    Ok(found.as_str() == answer)
}

/// Files, each with what it comes to.
static FILES: [&str; 36] = [
    "",
    "shape 0 version",
    "version 1\n",
    "not toml",
    "version = 1\nversion = 1\n",
    "not toml",
    "version = 2\n",
    "shape 0 dut1_ms",
    "version = 3\n",
    "shape 0 version",
    "version = 0\n",
    "shape 0 version",
    "version = -1\n",
    "shape 0 version",
    "version = \"1\"\n",
    "shape 0 version",
    "version = 1.0\n",
    "shape 0 version",
    "version = 2\nodd = 1\n",
    "shape 0 other",
    "version = 1\nodd = 1\n",
    "shape 0 other",
    "version = 1\nodd = 1\nstation = 1\n",
    "shape 0 other",
    "version = 1\nstation = 1\n",
    "shape 0 station",
    "version = 1\n[station]\n",
    "shape 0 station",
    "version = 1\n",
    "empty",
    "version = 1\nstation = []\n",
    "empty",
    "version = 1\nstation = [1]\n",
    "shape 1 station",
    "version = 1\nstation = [{}]\n",
    "shape 1 name",
];

#[test]
fn files_are_refused(rt: HostRuntime) -> Result<(), Fail> {
    for k in 0..FILES.len() / 2 {
        let text = FILES[2 * k];
        assert!(rt;
            is(rt.alloc(), text.as_bytes(), FILES[2 * k + 1])?,
            "{text}"
        );
    }
    assert!(rt; is(rt.alloc(), &[255], "not utf8")?, "a byte 255");
    assert!(rt;
        is(rt.alloc(), &[118, 195], "not utf8")?,
        "half a character"
    );
    Ok(())
}

/// Lines of the one station of a file: its name and its place, in any order.
static STATIONS: [&str; 60] = [
    "lat = \"90\"",
    "shape 1 name",
    "name = 1",
    "shape 1 name",
    "name = \"\"",
    "range 1 name",
    "name = \"\"\nlat = 1",
    "range 1 name",
    "name = \"P\"",
    "shape 1 lat",
    "name = \"12345678901234567890123456789012345678901234567890123456789012345\"",
    "range 1 name",
    "name = \"1234567890123456789012345678901234567890123456789012345678901234\"",
    "shape 1 lat",
    "name = \"Pole\"\nodd = 1",
    "shape 1 other",
    "odd = 1",
    "shape 1 other",
    "name = 1\nmask = \"0\"\nborders = []",
    "shape 1 other",
    "name = 1\nmask = \"0\"\nmasks = []",
    "shape 1 other",
    "name = \"Pole\"",
    "shape 1 lat",
    "name = \"Pole\"\nlat = 90.0",
    "shape 1 lat",
    "name = \"Pole\"\nlat = \"90 \"",
    "shape 1 lat",
    "name = \"Pole\"\nlat = \"0.1234567890123456789\"",
    "shape 1 lat",
    "name = \"Pole\"\nlat = \"90.5\"",
    "range 1 lat",
    "name = \"Pole\"\nlat = \"90.5\"\nlon = 0",
    "range 1 lat",
    "name = \"Pole\"\nlat = \"-90.000000000001\"",
    "range 1 lat",
    "name = \"Pole\"\nlat = \"-90\"",
    "shape 1 lon",
    "name = \"Pole\"\nlat = \"0\"\nlon = \"-180.1\"",
    "range 1 lon",
    "name = \"Pole\"\nlat = \"0\"\nlon = \"360.1\"",
    "range 1 lon",
    "name = \"Pole\"\nlat = \"0\"\nlon = \"360\"",
    "shape 1 height",
    "name = \"Pole\"\nlat = \"0\"\nlon = \"0\"\nheight = \"-500.1\"",
    "range 1 height",
    "name = \"Pole\"\nlat = \"0\"\nlon = \"0\"\nheight = \"9001\"",
    "range 1 height",
    "name = \"Pole\"\nlat = \"0\"\nlon = \"0\"\nheight = \"-500\"",
    "shape 1 borders",
    "name = \"M\u{fc}hle\"\nlat = \"0\"\nlon = \"0\"\nheight = \"0\"\nmask = \"0\"",
    "read",
    "mask = \"0\"\nheight = \"0\"\nlat = \"0\"\nlon = \"0\"\nname = \"Pole\"",
    "read",
    "lon = \"361\"\nlat = \"91\"",
    "shape 1 name",
    "lon = \"361\"\nlat = \"91\"\nname = \"Pole\"",
    "range 1 lat",
    "lon = \"361\"\nlat = \"90\"\nname = \"Pole\"",
    "range 1 lon",
];

#[test]
fn stations_are_refused(rt: HostRuntime) -> Result<(), Fail> {
    for k in 0..STATIONS.len() / 2 {
        let lines = STATIONS[2 * k];
        let text = format!(in rt.alloc(); "version = 1\n[[station]]\n{lines}\n")?;
        assert!(rt;
            is(rt.alloc(), text.as_bytes(), STATIONS[2 * k + 1])?,
            "{lines}"
        );
    }
    Ok(())
}

/// Whether a file of a station at the pole with these lines about its mask comes to this.
fn mask(alloc: Global, lines: &str, answer: &str) -> Result<bool, AllocError> {
    let text = format!(in alloc;
        "version = 1\n[[station]]\nname = \"Pole\"\nlat = \"90\"\nlon = \"0\"\nheight = \"0\"\n{lines}\n"
    )?;
    is(alloc, text.as_bytes(), answer)
}

/// Lines of a mask.
static MASKS: [&str; 24] = [
    "mask = 0",
    "shape 1 mask",
    "mask = \"x\"",
    "shape 1 mask",
    "mask = \"91\"",
    "range 1 mask",
    "mask = \"90\"",
    "read",
    "mask = \"-91\"",
    "range 1 mask",
    "mask = \"-90\"",
    "read",
    "masks = []",
    "shape 1 borders",
    "borders = \"0\"",
    "shape 1 borders",
    "borders = [\"0\", 90]\nmasks = 1",
    "shape 1 borders",
    "borders = []",
    "shape 1 masks",
    "borders = []\nmasks = [\"91\"]",
    "range 1 masks",
    "borders = []\nmasks = []",
    "mask 1",
];

#[test]
fn masks_are_refused(rt: HostRuntime) -> Result<(), Fail> {
    for k in 0..MASKS.len() / 2 {
        let lines = MASKS[2 * k];
        assert!(rt; mask(rt.alloc(), lines, MASKS[2 * k + 1])?, "{lines}");
    }
    Ok(())
}

/// Adds the line of a key whose value is the list of the texts that a blank parts.
fn push_list(text: &mut String, key: &str, values: &str) -> Result<(), AllocError> {
    text.push_str(key)?;
    text.push_str(" = [")?;
    for value in values.split(' ') {
        text.push_str("\"")?;
        text.push_str(value)?;
        text.push_str("\",")?;
    }
    text.push_str("]\n")
}

/// Whether a file of a station at the pole with sectors from these borders on, with these elevations, comes to this.
fn sectors(alloc: Global, borders: &str, floors: &str, answer: &str) -> Result<bool, AllocError> {
    let mut lines = String::new(alloc);
    push_list(&mut lines, "borders", borders)?;
    push_list(&mut lines, "masks", floors)?;
    mask(alloc, lines.as_str(), answer)
}

/// Borders and elevations: the elevations at the ends of their range, borders that go round the circle or do not.
static SECTORS: [&str; 51] = [
    "0 90 180 270",
    "0 0 0 91",
    "range 1 masks",
    "0 90 180 270",
    "0 0 0 -90",
    "read",
    "0 90 180 270",
    "0 0 0",
    "mask 1",
    "0 90 180 270",
    "0 0 0 0 0",
    "mask 1",
    "0 90 180 270",
    "0 0 0 -91",
    "range 1 masks",
    "0 91 180 270",
    "0 0 0 0",
    "mask 1",
    "0 90 180",
    "0 0 0",
    "mask 1",
    "0 90 180 180 270",
    "0 0 0 0 0",
    "mask 1",
    "0 180 90 270",
    "0 0 0 0",
    "mask 1",
    "-1 89 179 269",
    "0 0 0 0",
    "mask 1",
    "0 90 180 270 360",
    "0 0 0 0 0",
    "mask 1",
    "0 80 160 240",
    "0 0 0 0",
    "mask 1",
    "1 91 181 271",
    "0 0 0 0",
    "read",
    "0.000000000000000001 90 180 269.999999999999999",
    "0 0 0 0",
    "mask 1",
    "0 90.000000000000001 180 270",
    "0 0 0 0",
    "mask 1",
    "10 100 190 280 359.999",
    "0 0 0 0 0",
    "read",
    "10 100 190 280 360",
    "0 0 0 0 0",
    "mask 1",
];

#[test]
fn sectors_go_round_the_circle(rt: HostRuntime) -> Result<(), Fail> {
    for k in 0..SECTORS.len() / 3 {
        let (borders, floors) = (SECTORS[3 * k], SECTORS[3 * k + 1]);
        let is = sectors(rt.alloc(), borders, floors, SECTORS[3 * k + 2])?;
        assert!(rt; is, "{borders}: {floors}");
    }
    Ok(())
}

/// The lines of a station of this name and mask.
fn push_station(text: &mut String, name: &str, mask: &str) -> Result<(), AllocError> {
    text.push_str("[[station]]\nname = \"")?;
    text.push_str(name)?;
    text.push_str("\"\nlat = \"90\"\nlon = \"0\"\nheight = \"0\"\nmask = \"")?;
    text.push_str(mask)?;
    text.push_str("\"\n")
}

/// Names and masks of two stations.
static PAIRS: [&str; 25] = [
    "Pole",
    "0",
    "Pole",
    "0",
    "twice 2",
    "Pole",
    "0",
    "Pole",
    "91",
    "twice 2",
    "Pole",
    "91",
    "Pole",
    "0",
    "range 1 mask",
    "Pole",
    "0",
    "pole",
    "91",
    "range 2 mask",
    "Pole",
    "0",
    "pole",
    "0",
    "read",
];

#[test]
fn a_name_stands_once(rt: HostRuntime) -> Result<(), Fail> {
    for k in 0..PAIRS.len() / 5 {
        let mut text = String::from_str(rt.alloc(), "version = 1\n")?;
        push_station(&mut text, PAIRS[5 * k], PAIRS[5 * k + 1])?;
        push_station(&mut text, PAIRS[5 * k + 2], PAIRS[5 * k + 3])?;
        assert!(rt;
            is(rt.alloc(), text.as_bytes(), PAIRS[5 * k + 4])?,
            "{}",
            text.as_str()
        );
    }
    Ok(())
}

/// Lines behind the name of a second station of the same name.
static SAME: [&str; 6] = [
    "lat = \"91\"",
    "range 2 lat",
    "lat = \"9\"\nlon = \"0\"",
    "shape 2 height",
    "lat = \"9\"\nlon = \"0\"\nheight = \"0\"",
    "twice 2",
];

#[test]
fn an_equal_name_comes_behind_the_place(rt: HostRuntime) -> Result<(), Fail> {
    for k in 0..SAME.len() / 2 {
        let mut text = String::from_str(rt.alloc(), "version = 1\n")?;
        push_station(&mut text, "Pole", "0")?;
        text.push_str("[[station]]\nname = \"Pole\"\n")?;
        text.push_str(SAME[2 * k])?;
        assert!(rt;
            is(rt.alloc(), text.as_bytes(), SAME[2 * k + 1])?,
            "{}",
            SAME[2 * k]
        );
    }
    Ok(())
}

/// Whether a mask of so many sectors, each 0.99 degrees from the next one, and a last one that is wider, comes to this.
fn many(alloc: Global, count: u32, answer: &str) -> Result<bool, AllocError> {
    let mut lines = String::from_str(alloc, "borders = [")?;
    for k in 0..count {
        let border = format!(in alloc; "\"{}e-2\",", k.wrapping_mul(99))?;
        lines.push_str(border.as_str())?;
    }
    lines.push_str("]\nmasks = [")?;
    for _ in 0..count {
        lines.push_str("\"5\",")?;
    }
    lines.push_str("]\n")?;
    mask(alloc, lines.as_str(), answer)
}

#[test]
fn at_most_360_sectors(rt: HostRuntime) -> Result<(), Fail> {
    assert!(rt; many(rt.alloc(), 360, "read")?, "360");
    assert!(rt; many(rt.alloc(), 361, "mask 1")?, "361");
    Ok(())
}

#[test]
fn at_most_64_stations(rt: HostRuntime) -> Result<(), Fail> {
    let mut text = String::from_str(rt.alloc(), "version = 1\n")?;
    for k in 0..64u32 {
        let name = format!(in rt.alloc(); "S{k}")?;
        push_station(&mut text, name.as_str(), "0")?;
    }
    assert!(rt; is(rt.alloc(), text.as_bytes(), "read")?, "64");
    push_station(&mut text, "S0", "91")?;
    assert!(rt; is(rt.alloc(), text.as_bytes(), "too many")?, "65");
    Ok(())
}
