//! Reads combinations by their keys, their attributes and their tree.
ghost use Rattle.std.specs.Prelude.{◌≡◌, ◌<◌, ◌^◌, Ok, None, true, false, length, is_some, IfSome};
ghost use Rattle.std.specs.Option.{option_copied};
ghost use Rattle.tcl_words.specs.TopWords.{AreTokensIn, IsWordOf};
ghost use Rattle.put_form.specs.Combs as combs;
ghost use Rattle.put_form.specs.Puts as puts;
ghost use Rattle.put_form.specs.Steps.{HaveWords, IsPutRead};
ghost use Rattle.put_form.specs.CombSteps as steps;

use crate::attrs::read_attrs;
use crate::comb_keys::has_keys;
use crate::fault::PutFault;
use crate::name::read_name;
use crate::pairs::{KeyValue, pair_of};
use comb_tree::CombTree;
use name_core::Name;
use object_set::Object;
use std::alloc::Global;
use tcl_words::{Token, Word, inside};
use word_values::{TreeFault, read_tree};

/// The tree of a value, which has to be a group.
fn tree_at(alloc: Global, text: &[u8], tokens: &[Token], value: Word) -> Result<CombTree, TreeFault>
    requires short { length text.now < 2 ^ 31 }
    requires tokens { AreTokensIn (length text.now) tokens.now }
    requires word { IsWordOf tokens.now value }
    ensures { steps.IsTreeFound result (combs.tree_at text.now tokens.now value) }
{
    if value.first == value.last {
        return Err(TreeFault::Form);
    }
    read_tree(alloc, text, inside(tokens, value))
}

fn empty_tree(alloc: Global) -> Result<CombTree, TreeFault>
    ensures { steps.IsTreeFound result (Ok None) }
{
    match CombTree::of_list(alloc, &[]) {
        Ok(tree) => Ok(tree),
        Err(_) => Err(TreeFault::Memory),
    }
}

/// The tree of this pair, the empty one where there is none.
fn tree_given(
    alloc: Global,
    text: &[u8],
    tokens: &[Token],
    pair: Option<&KeyValue>,
) -> Result<CombTree, TreeFault>
    requires short { length text.now < 2 ^ 31 }
    requires tokens { AreTokensIn (length text.now) tokens.now }
    requires word { IfSome pair (λ p. IsWordOf tokens.now p.now.value) }
    ensures { steps.IsTreeFound result (combs.tree_given text.now tokens.now (option_copied pair.entry)) }
{
    match pair {
        Some(pair) => tree_at(alloc, text, tokens, pair.value()),
        None => empty_tree(alloc),
    }
}

fn place_of(pair: Option<&KeyValue>) -> u32
    ensures { result ≡ puts.place_of (option_copied pair.entry) }
{
    match pair {
        Some(pair) => pair.place(),
        None => 0,
    }
}

/// The combination of a tree.
fn comb_put(
    alloc: Global,
    text: &[u8],
    tokens: &[Token],
    name: Option<&[u8]>,
    pairs: &[KeyValue],
    tree: CombTree,
) -> Result<(Name, Object), PutFault>
    requires tokens { AreTokensIn (length text.now) tokens.now }
    requires words { HaveWords tokens.now pairs.now }
    requires fine { steps.AreFine text.now tokens.now true pairs.now }
    requires lawful { steps.IsLawfulTree tree }
    ensures { IsPutRead result (steps.comb_put text.now tokens.now (option_copied name.entry) pairs.now tree) }
{
    let name = read_name(name)?;
    let attr = read_attrs(alloc, text, tokens, true, pairs)?;
    Ok((name, Object::of_comb(alloc, attr, tree)))
}

/// The fault of a tree with a name that is none.
fn bad_member(name: Option<&[u8]>, place: u32) -> Result<(Name, Object), PutFault>
    ensures { IsPutRead result (steps.bad_member (option_copied name.entry) place) }
{
    read_name(name)?;
    Err(PutFault::Name(place))
}

/// The fault of a tree with a number that is none, or of a pair before it.
fn bad_number(
    alloc: Global,
    text: &[u8],
    tokens: &[Token],
    name: Option<&[u8]>,
    pairs: &[KeyValue],
) -> Result<(Name, Object), PutFault>
    requires tokens { AreTokensIn (length text.now) tokens.now }
    requires words { HaveWords tokens.now pairs.now }
    requires fine { steps.AreFine text.now tokens.now false pairs.now }
    requires bad { is_some (combs.bad_pair text.now tokens.now pairs.now) ≡ true }
    ensures { IsPutRead result (steps.comb_put text.now tokens.now (option_copied name.entry) pairs.now None) }
{
    read_name(name)?;
    match read_attrs(alloc, text, tokens, false, pairs) {
        Ok(_) => unreachable!(),
        Err(fault) => Err(fault),
    }
}

/// The combination that known keys and their values are, or the first fault.
fn comb_of(
    alloc: Global,
    text: &[u8],
    tokens: &[Token],
    name: Option<&[u8]>,
    pairs: &[KeyValue],
) -> Result<(Name, Object), PutFault>
    requires short { length text.now < 2 ^ 31 }
    requires tokens { AreTokensIn (length text.now) tokens.now }
    requires words { HaveWords tokens.now pairs.now }
    requires keys { combs.has_keys pairs.now ≡ true }
    ensures { IsPutRead result (puts.comb_of text.now tokens.now (option_copied name.entry) pairs.now) }
{
    let pair = pair_of(b"tree", pairs);
    match tree_given(alloc, text, tokens, pair) {
        Ok(tree) => comb_put(alloc, text, tokens, name, pairs, tree),
        Err(TreeFault::Form) => Err(PutFault::Tree),
        Err(TreeFault::Name) => bad_member(name, place_of(pair)),
        Err(TreeFault::Number) => bad_number(alloc, text, tokens, name, pairs),
        Err(TreeFault::Memory) => Err(PutFault::Memory),
    }
}

/// The combination that keys and values are, or the first fault.
pub(crate) fn read_comb(
    alloc: Global,
    text: &[u8],
    tokens: &[Token],
    name: Option<&[u8]>,
    pairs: &[KeyValue],
) -> Result<(Name, Object), PutFault>
    requires short { length text.now < 2 ^ 31 }
    requires tokens { AreTokensIn (length text.now) tokens.now }
    requires words { HaveWords tokens.now pairs.now }
    ensures { IsPutRead result (puts.comb_of text.now tokens.now (option_copied name.entry) pairs.now) }
{
    if has_keys(pairs) {
        comb_of(alloc, text, tokens, name, pairs)
    } else {
        Err(PutFault::Attr)
    }
}
