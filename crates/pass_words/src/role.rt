//! What a word is to the options.
ghost use Rattle.std.specs.Prelude.{◌≡◌, ◌^◌, ◌<◌, ◌+◌, length, IfSome};
ghost use Rattle.std.specs.Str.{is_utf8};
ghost use Rattle.pass_words.specs.Roles.{role, text_role, first_sign, whole, whole_at, pair, continued, may_be_value};

use crate::key::{Opt, key_of};
use crate::part::Part;
use std::str;

/// What a word is to the options.
#[derive(Clone, Copy)]
pub(crate) enum Role {
    /// It begins an option of this key, whose value stands there.
    Opens { key: Opt, part: Part },
    /// It is the value of the key in the word before.
    Value,
    /// It is no part of an option.
    Stray,
}

/// Whether a word can be the value of the key in the word before: it is not empty, and begins with no dash.
fn may_be_value(word: &[u8]) -> bool
    ensures { result ≡ may_be_value word.now }
{
    match word {
        [first, ..] => *first != b'-',
        [] => false,
    }
}

/// The option of a word that is cut at its first `=`, which stands at this place.
fn whole_at(keys: &[Opt], at: u64, word: &[u8], sign: usize) -> Option<Role>
    requires { sign < length word.now }
    ensures { result ≡ whole_at keys.now at word.now (Some sign) }
{
    if sign + 1 == word.len() {
        return None;
    }
    let key = key_of(keys, &word[..sign])?;
    let part = Part {
        word: at,
        from: sign as u64 + 1,
    };
    Some(Role::Opens { key, part })
}

/// Where the first `=` of a word stands.
fn first_sign(word: &[u8]) -> Option<usize>
    ensures value { result ≡ first_sign word.now }
    ensures bound { IfSome result (λ sign. sign < length word.now) }
{
    word.iter().position(|byte| *byte == b'=')
}

/// The option that stands whole in a word, as `--key=value`.
fn whole(keys: &[Opt], at: u64, word: &[u8]) -> Option<Role>
    ensures { result ≡ whole keys.now at word.now }
{
    match first_sign(word) {
        Some(sign) => whole_at(keys, at, word, sign),
        None => None,
    }
}

/// The option of a word that names a key, and of the next, which has its value.
fn pair(keys: &[Opt], at: u64, word: &[u8], next: &[u8]) -> Option<Role>
    requires { at + 1 < 2 ^ 64 }
    ensures { result ≡ pair keys.now at word.now next.now }
{
    if !may_be_value(next) {
        return None;
    }
    let key = key_of(keys, word)?;
    let part = Part {
        word: at + 1,
        from: 0,
    };
    Some(Role::Opens { key, part })
}

/// The role of a word that is UTF-8.
fn text_role(keys: &[Opt], at: u64, before: &[u8], word: &[u8], next: &[u8]) -> Role
    requires { at + 1 < 2 ^ 64 }
    ensures { result ≡ text_role keys.now at before.now word.now next.now }
{
    if let Some(opens) = whole(keys, at, word) {
        return opens;
    }
    if let Some(opens) = pair(keys, at, word, next) {
        return opens;
    }
    if may_be_value(word) && key_of(keys, before).is_some() {
        Role::Value
    } else {
        Role::Stray
    }
}

/// Whether a word is UTF-8.
fn is_text(word: &[u8]) -> bool
    ensures { result ≡ is_utf8 word.now }
{
    str::from_utf8(word).is_ok()
}

/// The role of the word with this number, between the one before and the next.
pub(crate) fn role_of(keys: &[Opt], at: u64, before: &[u8], word: &[u8], next: &[u8]) -> Role
    requires { at + 1 < 2 ^ 64 }
    ensures { result ≡ role keys.now at before.now word.now next.now }
{
    if is_text(word) {
        text_role(keys, at, before, word, next)
    } else {
        Role::Stray
    }
}
