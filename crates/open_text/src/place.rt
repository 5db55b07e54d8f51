//! Where a byte of a text stands, as far as comments and an O before it go.

/// Where a byte stands.
#[derive(Clone, Copy, Debug, PartialEq, Eq)]
pub enum Place {
    /// Outside comments.
    Text,
    /// Outside comments, with an O before it, but for gaps and comments.
    BehindO,
    /// In a comment.
    Note,
    /// In a comment with an O before it.
    NoteBehindO,
}
