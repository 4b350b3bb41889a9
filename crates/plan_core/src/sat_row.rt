//! A satellite as a plan lists it.
use elements::Text;
use sgp4_shape::SatFault;

/// A satellite of a plan.
#[derive(Drop)]
pub struct SatRow {
    /// The catalogue number.
    pub number: u32,
    /// The name: 1 to 64 printable bytes.
    pub name: Text,
    /// Why it is refused, if it is.
    pub fate: Option<SatFault>,
}
