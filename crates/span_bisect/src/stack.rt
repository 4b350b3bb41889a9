//! The stack of cells that are left to read.
ghost use Rattle.std.specs.Prelude.{◌≡◌, ◌<◌};
ghost use Rattle.arrayvec.specs.ArrayVec.{array_vec_len};
ghost use Rattle.span_bisect.specs.Stack.{IsPut, reach_of};

use arrayvec::ArrayVec;
use span_pool::Span;

/// A cell on the stack, which begins where the next one on the stack ends. Nothing is known of it up to `to`; a part that
/// is certain may follow.
#[derive(Clone, Copy, Default)]
pub(crate) struct Cell {
    pub(crate) to: u64,
    pub(crate) last: Option<Span>,
}

/// Puts a cell that begins at a tick on the stack, if it is not empty.
pub(crate) fn put(stack: &mut ArrayVec<Cell, 64>, from: u64, cell: Cell)
    requires room { array_vec_len stack.old < 64 }
    ensures { IsPut from cell stack.old.items stack.new.items }
{
    if from < reach(cell.to, cell.last) {
        stack.push(cell);
    }
}

/// The end of a part, or, where there is none, the tick at which it would begin.
pub(crate) fn reach(tick: u64, part: Option<Span>) -> u64
    ensures { result ≡ reach_of tick part }
{
    match part {
        Some(part) => part.to,
        None => tick,
    }
}
