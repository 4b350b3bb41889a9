//! An element set.
ghost use Rattle.std.specs.Prelude.{◌≡◌};

use civil_time::Instant;
use decimals::Decimal;
use std::marker::Model;

/// The elements of a satellite at an epoch.
#[derive(Clone, Copy, Debug)]
pub struct Elements {
    number: u32,
    epoch: Instant,
    motion: Decimal,
    ecc: Decimal,
    incl: Decimal,
    node: Decimal,
    argp: Decimal,
    anomaly: Decimal,
    bstar: Decimal,
}

impl Model for Elements {
    ghost use Rattle.elements.specs.Elements.{ElementsRecord, IsElements};

    ghost Value = { ElementsRecord };

    ghost view = { λ a. record { number = a.number; epoch = a.epoch; motion = a.motion; ecc = a.ecc; incl = a.incl; node = a.node; argp = a.argp; anomaly = a.anomaly; bstar = a.bstar } };

    ghost invariant = { λ a. IsElements (record { number = a.number; epoch = a.epoch; motion = a.motion; ecc = a.ecc; incl = a.incl; node = a.node; argp = a.argp; anomaly = a.anomaly; bstar = a.bstar }) };

    ghost inverse = { λ e. record { number = e.number; epoch = e.epoch; motion = e.motion; ecc = e.ecc; incl = e.incl; node = e.node; argp = e.argp; anomaly = e.anomaly; bstar = e.bstar } };
}

impl Elements {
    ghost use Rattle.elements.specs.Elements.{IsElements};

    /// The element set of these numbers: the catalogue number, the epoch, the mean motion in revolutions per day, the
    /// eccentricity, the inclination, node, argument of perigee and mean anomaly in degrees, and the drag term B* per
    /// Earth radius.
    pub fn make(
        number: u32,
        epoch: Instant,
        motion: Decimal,
        ecc: Decimal,
        incl: Decimal,
        node: Decimal,
        argp: Decimal,
        anomaly: Decimal,
        bstar: Decimal,
    ) -> Elements
        requires { IsElements (record { number = number; epoch = epoch; motion = motion; ecc = ecc; incl = incl; node = node; argp = argp; anomaly = anomaly; bstar = bstar }) }
        ensures { result ≡ record { number = number; epoch = epoch; motion = motion; ecc = ecc; incl = incl; node = node; argp = argp; anomaly = anomaly; bstar = bstar } }
    {
        Elements {
            number,
            epoch,
            motion,
            ecc,
            incl,
            node,
            argp,
            anomaly,
            bstar,
        }
    }

    /// The catalogue number.
    pub fn number(&self) -> u32
        ensures value { result ≡ self.now.number }
        ensures elements { IsElements self.now }
    {
        self.number
    }

    /// The epoch.
    pub fn epoch(&self) -> Instant
        ensures value { result ≡ self.now.epoch }
        ensures elements { IsElements self.now }
    {
        self.epoch
    }

    /// The mean motion, in revolutions per day.
    pub fn motion(&self) -> Decimal
        ensures value { result ≡ self.now.motion }
        ensures elements { IsElements self.now }
    {
        self.motion
    }

    /// The eccentricity.
    pub fn ecc(&self) -> Decimal
        ensures value { result ≡ self.now.ecc }
        ensures elements { IsElements self.now }
    {
        self.ecc
    }

    /// The inclination, in degrees.
    pub fn incl(&self) -> Decimal
        ensures value { result ≡ self.now.incl }
        ensures elements { IsElements self.now }
    {
        self.incl
    }

    /// The right ascension of the ascending node, in degrees.
    pub fn node(&self) -> Decimal
        ensures value { result ≡ self.now.node }
        ensures elements { IsElements self.now }
    {
        self.node
    }

    /// The argument of perigee, in degrees.
    pub fn argp(&self) -> Decimal
        ensures value { result ≡ self.now.argp }
        ensures elements { IsElements self.now }
    {
        self.argp
    }

    /// The mean anomaly, in degrees.
    pub fn anomaly(&self) -> Decimal
        ensures value { result ≡ self.now.anomaly }
        ensures elements { IsElements self.now }
    {
        self.anomaly
    }

    /// The drag term B*, per Earth radius.
    pub fn bstar(&self) -> Decimal
        ensures value { result ≡ self.now.bstar }
        ensures elements { IsElements self.now }
    {
        self.bstar
    }
}
