//! Reads the nodes of a tree from the left, token by token, with a stack of the sides that are open.
ghost use Rattle.std.specs.Prelude.{◌≡◌, length, IfOk, IfErr};
ghost use Rattle.std.specs.Option.{option_map};
ghost use Rattle.std.specs.List.{slice_range};
ghost use Rattle.tcl_words.specs.TopWords.{AreTokensIn, Lies};
ghost use Rattle.word_values.specs.Groups.{words_of_tokens};
ghost use Rattle.word_values.specs.Atoms as atoms;
ghost use Rattle.word_values.specs.Matrices as matrices;
ghost use Rattle.word_values.specs.Trees as trees;
ghost use Rattle.word_values.specs.Reading as reading;

use crate::atoms::NumberList;
use crate::given::GivenNode;
use crate::matrix::placement_of;
use crate::tree::TreeFault;
use comb_tree::Op;
use lattice_core::Placement;
use memory_core::Memory;
use name_core::Name;
use std::alloc::Global;
use tcl_words::{Kind, Token, is_word};

/// A side of an operator.
#[derive(Clone, Copy)]
enum Side {
    Left(Op),
    Right(Op),
}

/// What may come next.
#[derive(Clone, Copy)]
enum Place {
    /// The first word of a node.
    Node,
    /// The group of a side.
    Group(Side),
    /// The name of a leaf.
    Name,
    /// The matrix of a leaf, or the leaf's end.
    Matrix,
    /// A number of a leaf's matrix, or the matrix's end.
    Number,
    /// The end of a node.
    End,
}

/// How far a group of one atom is read, which counts as that atom.
#[derive(Clone, Copy)]
enum Lone {
    /// There is none.
    No,
    /// Up to its atom.
    Opened,
    /// Up to its end.
    Read,
}

/// What was read of a tree. A word that is no name or no number is kept as `None`, since a fault of form behind it comes
/// first.
#[derive(Drop)]
struct Reader {
    /// The nodes in postfix order.
    nodes: Vec<GivenNode>,
    /// The sides that are open, the innermost last.
    sides: Vec<Side>,
    /// The name of the last leaf, where its word is one.
    name: Option<Name>,
    /// The numbers of the last matrix so far.
    numbers: Vec<Option<i64>>,
    place: Place,
    lone: Lone,
}

/// The placement that moves nothing.
fn unmoved() -> Placement
    ensures { result ≡ matrices.identity }
{
    Placement::identity()
}

/// The numbers, where all are there.
fn all_numbers(numbers: &[Option<i64>]) -> Option<[i64; 16]>
    requires { length numbers.now ≡ 16 }
    ensures { result ≡ atoms.all_numbers numbers.now }
{
    let mut found = [0; 16];
    for (i, number) in numbers.iter().enumerate() {
        found[i] = (*number)?;
    }
    Some(found)
}

/// The placement of a leaf whose matrix has these numbers.
fn placement_read(numbers: &[Option<i64>]) -> Option<Placement>
    requires { length numbers.now ≡ 16 }
    ensures { result ≡ matrices.placement_read numbers.now }
{
    match all_numbers(numbers) {
        Some(numbers) => placement_of(&numbers),
        None => None,
    }
}

fn is_leaf_word(word: &[u8]) -> bool
    ensures { result ≡ trees.is_leaf_word word.now }
{
    is_word(word, b"l")
}

fn operator_of(word: &[u8]) -> Option<Op>
    ensures { result ≡ trees.operator_of word.now }
{
    if is_word(word, b"u") {
        Some(Op::U)
    } else if is_word(word, b"n") || is_word(word, b"+") {
        Some(Op::N)
    } else if is_word(word, b"-") {
        Some(Op::Minus)
    } else if is_word(word, b"^") {
        Some(Op::X)
    } else {
        None
    }
}

/// What follows the first word of a node.
fn after_first(word: &[u8]) -> Option<Place>
    ensures { result ≡ reading.first_word word.now }
{
    if is_leaf_word(word) {
        return Some(Place::Name);
    }
    match operator_of(word) {
        Some(op) => Some(Place::Group(Side::Left(op))),
        None => None,
    }
}

/// The bytes of a token.
fn token_text<'a>(text: &'a [u8], token: &Token) -> &'a [u8]
    requires { Lies (length text.now) token.now }
    ensures { result.now ≡ slice_range text.now token.now.start token.now.end }
{
    &text[token.start as usize..token.end as usize]
}

impl Reader {
    ghost use Rattle.std.specs.Prelude.{◌≡◌, ℕ, List, length, IfOk, IfErr};
    ghost use Rattle.std.specs.List.{slice_range};
    ghost use Rattle.tcl_words.specs.TopWords.{Lies};
    ghost use Rattle.word_values.specs.Reading as reading;

    /// Before any of so many tokens.
    fn new(alloc: Global, tokens: usize) -> Result<Reader, Memory>
        ensures { IfOk result (λ reader. reading.state_of reader ≡ reading.start) }
    {
        Ok(Reader {
            nodes: Vec::with_capacity(alloc, tokens / 3 + 1)?,
            sides: Vec::new(alloc),
            name: None,
            numbers: Vec::with_capacity(alloc, 16)?,
            place: Place::Node,
            lone: Lone::No,
        })
    }

    fn add(&mut self, node: GivenNode) -> Result<(), Memory>
        ensures { IfOk result (λ _. reading.state_of self.new ≡ reading.with_node node (reading.state_of self.old)) }
    {
        self.nodes.push(node)?;
        Ok(())
    }

    fn add_leaf(&mut self, placement: Option<Placement>) -> Result<(), Memory>
        ensures { IfOk result (λ _. reading.state_of self.new ≡ reading.with_leaf placement (reading.state_of self.old)) }
    {
        let name = self.name;
        self.add(GivenNode::Leaf { name, placement })
    }

    /// Reads one more number of a matrix, which has sixteen.
    fn add_number(&mut self, atom: &[u8]) -> Result<(), TreeFault>
        ensures { reading.IsNext result (reading.atom_at Place.Number (reading.state_of self.old) atom.now) (reading.state_of self.new) }
    {
        if self.numbers.len() >= 16 {
            return Err(TreeFault::Form);
        }
        let kind = NumberList::Matrix.kind_at(self.numbers.len());
        self.numbers.push(kind.read(atom))?;
        Ok(())
    }

    /// Reads an atom.
    fn atom(&mut self, atom: &[u8]) -> Result<(), TreeFault>
        ensures { reading.IsNext result (reading.atom_at self.old.place (reading.state_of self.old) atom.now) (reading.state_of self.new) }
    {
        match self.place {
            Place::Node => {
                let Some(place) = after_first(atom) else {
                    return Err(TreeFault::Form);
                };
                self.place = place;
                Ok(())
            }
            Place::Name => {
                self.name = Name::read(atom).ok();
                self.place = Place::Matrix;
                Ok(())
            }
            Place::Number => self.add_number(atom),
            _ => Err(TreeFault::Form),
        }
    }

    /// Reads an opening brace.
    fn open(&mut self) -> Result<(), TreeFault>
        ensures { reading.IsNext result (reading.open_at self.old.place (reading.state_of self.old)) (reading.state_of self.new) }
    {
        match self.place {
            Place::Node | Place::Name | Place::Number => {
                self.lone = Lone::Opened;
                Ok(())
            }
            Place::Group(side) => {
                self.sides.push(side)?;
                self.place = Place::Node;
                Ok(())
            }
            Place::Matrix => {
                self.numbers.clear();
                self.place = Place::Number;
                Ok(())
            }
            Place::End => Err(TreeFault::Form),
        }
    }

    /// Goes on behind a side.
    fn end_of(&mut self, side: Side) -> Result<(), TreeFault>
        ensures { reading.IsNext result (Some (reading.after_side side (reading.state_of self.old))) (reading.state_of self.new) }
    {
        match side {
            Side::Left(op) => {
                self.place = Place::Group(Side::Right(op));
                Ok(())
            }
            Side::Right(op) => {
                self.add(GivenNode::Join(op))?;
                self.place = Place::End;
                Ok(())
            }
        }
    }

    /// Ends the innermost side that is open.
    fn end_side(&mut self) -> Result<(), TreeFault>
        ensures { let old = reading.state_of self.old in reading.IsNext result (reading.side_ended old.sides old) (reading.state_of self.new) }
    {
        match self.sides.pop() {
            Some(side) => self.end_of(side),
            None => Err(TreeFault::Form),
        }
    }

    /// Ends the matrix of a leaf.
    fn end_matrix(&mut self) -> Result<(), TreeFault>
        ensures { reading.IsNext result (reading.close_at Place.Number (reading.state_of self.old)) (reading.state_of self.new) }
    {
        if self.numbers.len() != 16 {
            return Err(TreeFault::Form);
        }
        let placement = placement_read(&self.numbers);
        self.add_leaf(placement)?;
        self.place = Place::End;
        Ok(())
    }

    /// Reads a closing brace.
    fn close(&mut self) -> Result<(), TreeFault>
        ensures { reading.IsNext result (reading.close_at self.old.place (reading.state_of self.old)) (reading.state_of self.new) }
    {
        match self.place {
            Place::Matrix => {
                self.add_leaf(Some(unmoved()))?;
                self.end_side()
            }
            Place::Number => self.end_matrix(),
            Place::End => self.end_side(),
            _ => Err(TreeFault::Form),
        }
    }

    /// Reads a token outside a group of one atom.
    fn plain(&mut self, kind: Kind, bytes: &[u8]) -> Result<(), TreeFault>
        ensures { reading.IsNext result (reading.token_at Lone.No kind (reading.state_of self.old) bytes.now) (reading.state_of self.new) }
    {
        match kind {
            Kind::Atom => self.atom(bytes),
            Kind::Open => self.open(),
            Kind::Close => self.close(),
        }
    }

    /// Reads the atom of a group of one.
    fn lone_atom(&mut self, kind: Kind, bytes: &[u8]) -> Result<(), TreeFault>
        ensures { reading.IsNext result (reading.token_at Lone.Opened kind (reading.state_of self.old) bytes.now) (reading.state_of self.new) }
    {
        match kind {
            Kind::Atom => {
                self.atom(bytes)?;
                self.lone = Lone::Read;
                Ok(())
            }
            _ => Err(TreeFault::Form),
        }
    }

    /// Reads the end of a group of one atom.
    fn lone_end(&mut self, kind: Kind) -> Result<(), TreeFault>
        ensures { (bytes : List ℕ) → reading.IsNext result (reading.token_at Lone.Read kind (reading.state_of self.old) bytes) (reading.state_of self.new) }
    {
        match kind {
            Kind::Close => {
                self.lone = Lone::No;
                Ok(())
            }
            _ => Err(TreeFault::Form),
        }
    }

    /// Reads one more token.
    fn token(&mut self, text: &[u8], token: &Token) -> Result<(), TreeFault>
        requires { Lies (length text.now) token.now }
        ensures { reading.IsNext result (reading.next (reading.state_of self.old) token.now.kind (slice_range text.now token.now.start token.now.end)) (reading.state_of self.new) }
    {
        let bytes = token_text(text, token);
        match self.lone {
            Lone::No => self.plain(token.kind, bytes),
            Lone::Opened => self.lone_atom(token.kind, bytes),
            Lone::Read => self.lone_end(token.kind),
        }
    }

    /// The nodes where all tokens were read.
    fn end(self) -> Result<Vec<GivenNode>, TreeFault>
        ensures nodes { let s = reading.state_of self in IfOk result (λ v. reading.nodes_at s.lone s.place s.sides s ≡ Some v.items) }
        ensures none { let s = reading.state_of self in IfErr result (λ e. reading.IsNone e (reading.nodes_at s.lone s.place s.sides s)) }
    {
        let Reader {
            mut nodes,
            sides,
            name,
            place,
            lone,
            ..
        } = self;
        if !sides.is_empty() {
            return Err(TreeFault::Form);
        }
        match (lone, place) {
            (Lone::No, Place::End) => Ok(nodes),
            (Lone::No, Place::Matrix) => {
                nodes.push(GivenNode::Leaf {
                    name,
                    placement: Some(unmoved()),
                })?;
                Ok(nodes)
            }
            _ => Err(TreeFault::Form),
        }
    }
}

/// The nodes of the tree that the words between a group's braces spell. `Form` comes where they spell none.
pub(crate) fn given_nodes(
    alloc: Global,
    text: &[u8],
    tokens: &[Token],
) -> Result<Vec<GivenNode>, TreeFault>
    requires tokens { AreTokensIn (length text.now) tokens.now }
    ensures nodes { IfOk result (λ v. option_map reading.given_nodes (trees.tree_in (words_of_tokens text.now tokens.now)) ≡ Some v.items) }
    ensures none { IfErr result (λ e. reading.IsNone e (option_map reading.given_nodes (trees.tree_in (words_of_tokens text.now tokens.now)))) }
{
    if tokens.is_empty() {
        return Ok(Vec::new(alloc));
    }
    let mut reader = Reader::new(alloc, tokens.len())?;
    for token in tokens {
        reader.token(text, token)?;
    }
    reader.end()
}
