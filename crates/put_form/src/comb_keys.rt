//! The keys that combinations take.
ghost use Rattle.std.specs.Prelude.{◌≡◌, is_some, length};
ghost use Rattle.std.specs.List.{list_any};
ghost use Rattle.std.specs.Option.{option_copied};
ghost use Rattle.region_attr.specs.Keys.{key_of};
ghost use Rattle.put_form.specs.Pairs.{Pair, same_keys};
ghost use Rattle.put_form.specs.Combs as combs;
ghost use Rattle.put_form.specs.CombSteps as steps;

use crate::pairs::{KeyValue, is_key};
use tcl_words::is_word;

/// Whether a key is one of an attribute.
pub(crate) fn is_attribute(key: &[u8]) -> bool
    ensures { result ≡ is_some (key_of key.now) }
{
    is_word(key, b"region")
        || is_word(key, b"id")
        || is_word(key, b"air")
        || is_word(key, b"los")
        || is_word(key, b"mater")
        || is_word(key, b"rgb")
        || is_word(key, b"inherit")
}

fn is_tree_key(key: &[u8]) -> bool
    ensures { result ≡ combs.is_tree_key key.now }
{
    is_word(key, b"tree")
}

/// Whether a key is one of a combination.
fn is_comb_key(key: Option<&[u8]>) -> bool
    ensures { result ≡ combs.is_comb_key (option_copied key.entry) }
{
    match key {
        Some(key) => is_attribute(key) || is_tree_key(key),
        None => false,
    }
}

/// Whether two keys are the same.
fn are_same_keys(key: Option<&[u8]>, other: Option<&[u8]>) -> bool
    ensures { result ≡ same_keys (option_copied key.entry) (option_copied other.entry) }
{
    match key {
        Some(key) => is_key(key, other),
        None => false,
    }
}

fn is_among(key: Option<&[u8]>, rest: &[KeyValue]) -> bool
    ensures { result ≡ list_any (λ (other : Pair). same_keys (option_copied key.entry) other.key) rest.now }
{
    for other in rest {
        if are_same_keys(key, other.key()) {
            return true;
        }
    }
    false
}

/// Whether each key is known and given once. As there are few such keys, the rest is gone through a few times at most.
fn are_keys(pairs: &[KeyValue]) -> bool
    ensures { result ≡ steps.are_keys pairs.now }
{
    for (i, pair) in pairs.iter().enumerate() {
        if !is_comb_key(pair.key()) || is_among(pair.key(), &pairs[i + 1..]) {
            return false;
        }
    }
    true
}

/// Whether there is a key, and each is known and given once.
pub(crate) fn has_keys(pairs: &[KeyValue]) -> bool
    ensures { result ≡ combs.has_keys pairs.now }
{
    !pairs.is_empty() && are_keys(pairs)
}
