//! Units behind numbers.
ghost use Rattle.std.specs.Prelude.{◌≡◌, reverse, option_map, unwrap_or};
ghost use Rattle.omm_kvn.specs.Pieces.{is_blank, skip_end};
ghost use Rattle.omm_kvn.specs.Units.{before_unit, without_unit};

/// The value without the blanks at its end.
fn without_blanks_after(mut value: &[u8]) -> &[u8]
    ensures { result.now ≡ skip_end is_blank value.entry.now }
{
    while let [rest @ .., b' ' | b'\t'] = value {
        value = rest;
    }
    value
}

/// The value without what stands from its last `[` on, and the blanks before that.
fn before_bracket(value: &[u8]) -> &[u8]
    ensures { result.now ≡ unwrap_or (option_map reverse (before_unit (reverse value.now))) value.now }
{
    let mut rest = value;
    while let [before @ .., last] = rest {
        if *last == b'[' {
            return without_blanks_after(before);
        }
        rest = before;
    }
    value
}

/// The value without the unit at its end, which stands in brackets.
#[tactic(auto, unfolding(crate::specs::Units::without_unit))]
pub(crate) fn without_unit(value: &[u8]) -> &[u8]
    ensures { result.now ≡ without_unit value.now }
{
    if value.ends_with(b"]") {
        before_bracket(value)
    } else {
        value
    }
}
