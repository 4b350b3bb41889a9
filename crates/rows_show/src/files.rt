/// A published set: lines 1 and 2, each 69 bytes.
pub const VANGUARD1: &[u8] =
    b"1 00005U 58002B   00179.78495062  .00000023  00000-0  28098-4 0  4753";

pub const VANGUARD2: &[u8] =
    b"2 00005  34.2682 348.7242 1859667 331.7664  19.3264 10.82419157413667";

/// Its file, with lines that end as some systems end them.
pub const VANGUARD: &[u8] =
    b"1 00005U 58002B   00179.78495062  .00000023  00000-0  28098-4 0  4753\r\n2 00005  34.2682 348.7242 1859667 331.7664  19.3264 10.82419157413667\r\n";

/// What is printed of it.
pub const VANGUARD_SHOWN: &[u8] =
    b"PASSSHOW 1\nSET 5 2000-06-27T18:50:19.733568000Z 10.82419157 0.1859667 34.2682 348.7242 331.7664 19.3264 0.000028098 -\nEND\n";

/// The words that ask for it.
pub const WORDS: &str = "show --catalogue=a --start=2000-06-28T00:00:00Z";

/// Its lines with a number that begins with a letter.
pub const LETTERED1: &[u8] =
    b"1 A0005U 58002B   00179.78495062  .00000023  00000-0  28098-4 0  4753\n";

pub const LETTERED2: &[u8] =
    b"2 A0005  34.2682 348.7242 1859667 331.7664  19.3264 10.82419157413667\n";

/// Another published set, as lines 1 and 2.
pub const STATION1: &[u8] =
    b"1 25544U 98067A   08264.51782528 -.00002182  00000-0 -11606-4 0  2927\n";

pub const STATION2: &[u8] =
    b"2 25544  51.6416 247.4627 0006703 130.5360 325.0288 15.72125391563537\n";

/// It as a message.
pub const MESSAGE: &[u8] =
    b"CCSDS_OMM_VERS = 2.0\nCOMMENT keywords in another order\nCREATION_DATE = 2008-09-21T00:00:00\nORIGINATOR =\nOBJECT_NAME = ISS (ZARYA)\nOBJECT_ID = 1998-067A\nCENTER_NAME = EARTH\nREF_FRAME = TEME\nTIME_SYSTEM = UTC\nMEAN_ELEMENT_THEORY = SGP4\nBSTAR = -.11606E-4 [1/ER]\nEPOCH = 2008-09-20T12:25:40.104192\nNORAD_CAT_ID = 25544\nMEAN_MOTION = 15.72125391 [rev/day]\nECCENTRICITY = 0.0006703\nINCLINATION = 51.6416 [deg]\nRA_OF_ASC_NODE = 247.4627 [deg]\nARG_OF_PERICENTER = 130.5360 [deg]\nMEAN_ANOMALY = 325.0288 [deg]\n";

/// The words that ask for it.
pub const STATION_WORDS: &str = "show --catalogue=a --start=2008-09-20T00:00:00Z";

/// The elements of both sets, as they are printed between number and name.
pub const VANGUARD_SET: &[u8] =
    b"2000-06-27T18:50:19.733568000Z 10.82419157 0.1859667 34.2682 348.7242 331.7664 19.3264 0.000028098 ";

pub const STATION_SET: &[u8] =
    b"2008-09-20T12:25:40.104192000Z 15.72125391 0.0006703 51.6416 247.4627 130.536 325.0288 -0.000011606 ";
