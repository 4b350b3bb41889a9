//! The result of the command `day`.
ghost use Rattle.std.specs.Prelude.{◌≡◌, length, slice_get};

use elements::Window;
use sgp4_model::Span;
use span_bisect::{SpanPool, TrackAnswer};
use std::marker::Model;

/// The daylight of a place: the window, and the answer with its spans, which lie in a pool of its own.
#[derive(Drop)]
pub struct DayResult {
    window: Window,
    pool: SpanPool,
    answer: TrackAnswer,
}

impl Model for DayResult {
    ghost use Rattle.span_bisect.specs.Answer.{IsHeld};
    ghost use Rattle.day_command.specs.Day.{DayRecord, IsDayResult, day_record};

    ghost Value = { DayRecord };

    ghost view = { λ d. day_record d.window d.pool d.answer };

    ghost invariant = { λ d. IsHeld d.pool d.answer × IsDayResult (day_record d.window d.pool d.answer) };
}

impl DayResult {
    ghost use Rattle.span_bisect.specs.Answer.{IsHeld, answer_record};
    ghost use Rattle.day_command.specs.Day.{IsDayResult, day_record};
    ghost use Rattle.day_command.specs.Whole.{has_spans};

    /// The result of an answer for a window in which every tick of it lies, with the pool that holds its spans.
    pub(crate) fn of(window: Window, pool: SpanPool, answer: TrackAnswer) -> DayResult
        requires held { IsHeld pool answer }
        requires inside { IsDayResult (day_record window pool answer) }
        ensures { result ≡ day_record window pool answer }
    {
        DayResult {
            window,
            pool,
            answer,
        }
    }

    /// The window.
    pub fn window(&self) -> Window
        ensures { result ≡ self.now.window }
    {
        self.window
    }

    /// The answer. Its ticks lie in the window, and it never decays.
    pub fn answer(&self) -> &TrackAnswer
        ensures answer { answer_record result.now ≡ self.now.answer }
        ensures inside { IsDayResult self.now }
    {
        &self.answer
    }

    /// How many spans there are.
    pub fn count(&self) -> u32
        ensures { result ≡ length self.now.list }
    {
        match &self.answer {
            TrackAnswer::Spans(track) => track.count(),
            TrackAnswer::Unresolved { .. } => 0,
            TrackAnswer::Full { .. } => 0,
            TrackAnswer::Decays { .. } => 0,
        }
    }

    /// The span at place `k`, counted from 0. There is none where `k` is not below the count.
    pub fn span(&self, k: u32) -> Option<Span>
        ensures { result ≡ slice_get self.now.list k }
    {
        match &self.answer {
            TrackAnswer::Spans(track) => self.pool.get(track, k),
            TrackAnswer::Unresolved { .. } => None,
            TrackAnswer::Full { .. } => None,
            TrackAnswer::Decays { .. } => None,
        }
    }

    /// Whether the answer is spans.
    pub fn is_whole(&self) -> bool
        ensures { result ≡ has_spans self.now.answer }
    {
        match &self.answer {
            TrackAnswer::Spans(_) => true,
            TrackAnswer::Unresolved { .. } => false,
            TrackAnswer::Full { .. } => false,
            TrackAnswer::Decays { .. } => false,
        }
    }
}
