//! What a line of a text of edits says: nothing, or an edit. named.rt reads it, edit_list.rt takes
//! it. For this crate alone.
use crate::edit_list::PathEdit;

/// What a line of a text of edits says.
#[derive(Clone, Copy, Debug, PartialEq, Eq)]
pub(crate) enum Entry {
    /// An empty line, or a comment.
    Nothing,
    /// An offset or a variable that is set.
    Edit(PathEdit),
}
