//! Expected values, made by tools/sky/expected.py.
ghost use Rattle.elements.specs.Offset.{IsOffset};

use elements::Instant;

/// Instants, and stations.
pub const CASES: usize = 6;

pub const STATIONS: usize = 5;

/// A file of the stations.
pub const FILE: &str =
    "version = 1\n[[station]]\nname = \"0\"\nlat = \"90\"\nlon = \"0\"\nheight = \"-500\"\nmask = \"0\"\n[[station]]\nname = \"1\"\nlat = \"48.1\"\nlon = \"11.3\"\nheight = \"600\"\nmask = \"0\"\n[[station]]\nname = \"2\"\nlat = \"-12.5\"\nlon = \"359.999\"\nheight = \"-4.25\"\nmask = \"0\"\n[[station]]\nname = \"3\"\nlat = \"45\"\nlon = \"-91.25\"\nheight = \"9000\"\nmask = \"0\"\n[[station]]\nname = \"4\"\nlat = \"-33.8688\"\nlon = \"151.2093\"\nheight = \"58\"\nmask = \"0\"\n";

/// The instant from which the time of a case is counted.
pub fn base(k: usize) -> Instant {
    match k {
        0 => Instant::from_nanos(-1_356_911_999_987_654_321),
        1 => Instant::from_nanos(-1_334_536_274_310_000_000),
        2 => Instant::from_nanos(-612_345_678_901_234_567),
        3 => Instant::from_nanos(15_403_819_733_568_000),
        4 => Instant::from_nanos(803_260_801_500_000_000),
        _ => Instant::from_nanos(1_798_761_599_999_999_999),
    }
}

/// The offset of UT1 of a case, in milliseconds.
pub fn offset(k: usize) -> i32
    ensures { IsOffset result }
{
    match k {
        0 => 900,
        1 => -731,
        2 => 333,
        3 => 214,
        4 => -900,
        _ => 567,
    }
}

/// The time of each case, in 64ths of 16,384 minutes; and a position, in 64ths of an Earth radius.
#[rattlefmt::skip]
static GIVEN: [i64; 24] = [
    24, -60, 20, 40,
    37, 55, -41, 12,
    50, -3, 66, -29,
    16, 130, -77, 91,
    -61, 1, 2, -69,
    -11, -44, -48, 20,
];

/// Of each case: the sine and the cosine of the sidereal angle, the Sun's direction, the depth and the height of the position.
#[rattlefmt::skip]
static SKIES: [i64; 42] = [
    101229451144559, 262641886863530, 73663408125559, -249236454685386, -108088179156889, -214500949179950, -60108598190898,
    109079455739286, 259479931497380, -281452093718527, -3292764820601, -1427990041473, -240031213708938, -152875054719298,
    -80968337552590, 269577986542362, -222925558845140, 157666088588231, 68364919638180, 142064935216428, 4576167847530,
    159131690229122, -232175079797741, -44609272442635, 254985086038638, 110547642327963, -240206587354265, 1651399191078195,
    217698626627516, -178424971567204, 76279541699143, 248592003973986, 107757178844986, -107215340479015, 5203146543798,
    -255664512344763, 117744722352126, 41842763767135, -255395513478818, -110681874439690, 128191649256804, -20998700041922,
];

/// The coordinates of each station.
#[rattlefmt::skip]
static PLACES: [i64; 15] = [
    0, 0, 280509266755754,
    184694303070320, 36905563500168, 208509312433251,
    274845898903147, -4796965872, -60523967490091,
    -4355291965474, -199600204953077, 198313078142910,
    -205037844654473, 112677173520326, -155977646081422,
];

/// The sine of the Sun's elevation, of each case at each station.
#[rattlefmt::skip]
static HEIGHTS: [i64; 30] = [
    -108088179156889, -128038171509405, 2993884980453, 107026810857592, -28146863282588,
    -1427990041473, -157938918315646, -254247150951822, -71948102179036, 232928736317511,
    68364919638180, -107268652740201, -267519469284959, -9081640752394, 185005617993942,
    110547642327963, 176561979147706, 152738664948204, 206235599232928, -267303253079207,
    107757178844986, 146110624117587, 117182644383485, 227082443415475, -251381388641275,
    -110681874439690, 71992193872725, 267523293051281, -33454064456830, -147382501513412,
];

/// A given number.
pub fn given(k: usize) -> i64 {
    GIVEN.get(k).copied().unwrap_or(0)
}

/// A number of the sky.
pub fn sky(k: usize) -> i64 {
    SKIES.get(k).copied().unwrap_or(0)
}

/// A coordinate of a station.
pub fn place(k: usize) -> i64 {
    PLACES.get(k).copied().unwrap_or(0)
}

/// A height of the Sun.
pub fn height(k: usize) -> i64 {
    HEIGHTS.get(k).copied().unwrap_or(0)
}
