/// What a token is.
#[derive(Clone, Copy, Debug, PartialEq, Eq, Hash)]
pub enum Kind {
    /// The brace `{`.
    Open,
    /// The brace `}`.
    Close,
    /// A longest run of bytes that are neither blanks nor braces.
    Atom,
}

/// A brace or an atom of a text: its bytes are those from `start` on, before `end`.
#[derive(Clone, Copy, Debug, PartialEq, Eq, Hash)]
pub struct Token {
    pub kind: Kind,
    pub start: u32,
    pub end: u32,
}

/// A word outside all groups, by the places of its first and last token in a list of tokens: one atom, or
/// a group with its braces.
#[derive(Clone, Copy, Debug, PartialEq, Eq, Hash)]
pub struct Word {
    pub first: usize,
    pub last: usize,
}
