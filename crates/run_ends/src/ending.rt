//! What a command comes to.
ghost use Rattle.std.specs.Prelude.{◌≡◌};
ghost use Rattle.run_ends.specs.Endings.{IsMapped, WithProduct, ended};
ghost use Rattle.run_ends.specs.Printed.{IsRefused};
ghost use Rattle.run_ends.specs.Refusals.{refusal_line};

use crate::print::put_refusal;
use crate::refusal::{Refusal, refusal_line};
use outside_io::{Failed, Sink};

/// What a command comes to.
#[derive(Drop)]
pub enum Ending<P> {
    /// The product was made and written.
    Done { product: P },
    /// The product was made, and a write failed.
    WriteFault { product: P },
    /// No product was made.
    Refused(Refusal),
}

/// The ending with a product that was printed whole, or cut off.
pub fn ended<P>(product: P, printed: Result<(), Failed>) -> Ending<P>
    ensures { result ≡ ended product printed }
{
    match printed {
        Ok(()) => Ending::Done { product },
        Err(Failed) => Ending::WriteFault { product },
    }
}

/// Puts the one line of a refusal, and ends with it.
pub fn refuse<P, K: Sink>(refusal: Refusal, out: &mut K) -> Ending<P>
    ensures ending { result ≡ Ending.Refused refusal }
    ensures written { IsRefused K.Sink out.old out.new (refusal_line refusal) }
{
    put_refusal(refusal_line(refusal).bytes(), out);
    Ending::Refused(refusal)
}

impl<P> Ending<P> {
    /// The same ending, with another product in the place of the product.
    pub fn map<Q, F: FnOnce(P) -> Q>(self, f: F) -> Ending<Q>
        requires { WithProduct (F.pre f) self }
        ensures { IsMapped (F.post f) self result }
    {
        match self {
            Ending::Done { product } => Ending::Done {
                product: f(product),
            },
            Ending::WriteFault { product } => Ending::WriteFault {
                product: f(product),
            },
            Ending::Refused(refusal) => Ending::Refused(refusal),
        }
    }
}
