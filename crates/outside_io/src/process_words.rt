ghost use Rattle.std.specs.Prelude.{None};
ghost use Rattle.std.specs.Io.{WritesAtMost};

use crate::arguments::Arguments;
use std::env::FillError;
use std::rt::Env;

/// The arguments of the process behind its name, through the runtime's access to them. Nothing is told of them.
#[derive(Drop)]
pub struct ProcessWords<R: Env> {
    env: R,
}

impl<R: Env> ProcessWords<R> {
    /// The arguments that the runtime gives access to, as `&rt`.
    pub fn make(env: R) -> ProcessWords<R> {
        ProcessWords { env }
    }
}

impl<R: Env> Arguments for ProcessWords<R> {
    ghost told = { λ _. None };

    fn word(&self, place: usize, buffer: &mut [u8]) -> Result<usize, FillError>
        ensures bound { WritesAtMost result buffer.new }
    {
        match place.checked_add(1) {
            Some(argument) => self.env.arg(argument, buffer),
            None => Err(FillError::NotPresent),
        }
    }
}
