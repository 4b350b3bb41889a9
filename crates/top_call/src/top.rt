//! A run: words, files, product, writing.
ghost use Rattle.pass_words.specs.Ranges.{IsInRange};
ghost use Rattle.run_ends.specs.Counted.{AreAllowed};
ghost use Rattle.run_ends.specs.Runs.{IsRunOf};
ghost use Rattle.top_call.specs.Request.{command_of, files_in, files_of};
ghost use Rattle.top_call.specs.Run.{IsRun, IsSafeRun};

use crate::outcome::{Outcome, Product, outcome_of};
use book_command::run_book;
use day_command::run_day;
use elements::Text;
use grid_command::run_grid;
use locate_command::run_locate;
use outside_io::{NeverFailShelf, NeverFailSink, Shelf, Sink};
use pass_text::{usage_line, window_fault_line};
use pass_words::{Request, WordFault, read_words, text_at};
use plan_command::run_plan;
use run_ends::{Ending, put_refusal};
use show_command::run_show;
use std::alloc::Global;

/// Does what the words ask for, and writes what comes of it to `out`. Only files that the words name are asked for.
pub fn run<S: Shelf, K: Sink>(alloc: Global, words: &[Text], shelf: &mut S, out: &mut K) -> Outcome
    requires { AreAllowed S.Shelf shelf.old (files_in words.now) }
    ensures { IsRun S.Shelf K.Sink words.now result shelf.old shelf.new out.old out.new }
{
    match read_words(words) {
        Ok(request) => outcome_of(run_request(alloc, words, request, shelf, out)),
        Err(WordFault::Usage(fault)) => {
            put_refusal(usage_line(fault).bytes(), out);
            Outcome::Usage(fault)
        }
        Err(WordFault::Window(fault)) => {
            put_refusal(window_fault_line(fault).bytes(), out);
            Outcome::BadWindow(fault)
        }
    }
}

/// A run over a shelf and an output that never fail: words that make a request, of which each file is as it must be, are
/// done, or want memory. A product is that of the words.
pub fn run_for_nobody(
    alloc: Global,
    words: &[Text],
    shelf: &mut NeverFailShelf,
    out: &mut NeverFailSink,
) -> Outcome
    ensures { IsSafeRun words.now result shelf.old shelf.new }
{
    run(alloc, words, shelf, out)
}

/// Does what a request asks for, and writes what comes of it.
fn run_request<S: Shelf, K: Sink>(
    alloc: Global,
    words: &[Text],
    request: Request,
    shelf: &mut S,
    out: &mut K,
) -> Ending<Product>
    requires range { IsInRange request }
    requires allowed { AreAllowed S.Shelf shelf.old (files_of words.now request) }
    ensures { IsRunOf S.Shelf K.Sink (command_of words.now request) result shelf.old shelf.new out.old out.new }
{
    match request {
        Request::Day { lat, lon, window } => run_day(alloc, lat, lon, window, out).map(
            Product::Day,
        ),
        Request::Show { catalogue, start } => {
            run_show(alloc, text_at(words, catalogue), start, shelf, out).map(Product::Shown)
        }
        Request::Locate {
            catalogue,
            number,
            at,
        } => {
            run_locate(alloc, text_at(words, catalogue), number, at, shelf, out).map(
                Product::Located,
            )
        }
        Request::Plan {
            catalogue,
            stations,
            window,
        } => {
            let satellites = text_at(words, catalogue);
            let places = text_at(words, stations);
            run_plan(alloc, satellites, places, window, shelf, out).map(Product::Plan)
        }
        Request::Grid { count } => run_grid(alloc, count, out).map(Product::Counted),
        Request::Book {
            catalogue,
            stations,
            window,
            antennas,
        } => {
            let satellites = text_at(words, catalogue);
            let places = text_at(words, stations);
            run_book(alloc, satellites, places, window, antennas, shelf, out).map(Product::Booked)
        }
    }
}
