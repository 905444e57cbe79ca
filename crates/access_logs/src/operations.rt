//! What is asked for at an access.
ghost use Rattle.std.specs.Prelude.{◌≡◌};
ghost use Rattle.access_logs.specs.Operations.{is_set, operation_of};

/// What is asked for at an access, by memcached's words.
#[derive(Clone, Copy, Debug, PartialEq, Eq)]
pub enum Operation {
    /// `get` or `gets`.
    Get,

    /// `set`, `add`, `replace`, `cas`, `append` or `prepend`.
    Set,

    /// `delete`.
    Delete,

    /// Anything else.
    Other,
}

// The operation that a field names.
pub(crate) fn operation_of(word: &[u8]) -> Operation
    ensures { result ≡ operation_of word.now }
{
    if word == b"get".as_slice() || word == b"gets".as_slice() {
        Operation::Get
    } else if is_set(word) {
        Operation::Set
    } else if word == b"delete".as_slice() {
        Operation::Delete
    } else {
        Operation::Other
    }
}

// Whether a field names an operation that stores.
fn is_set(word: &[u8]) -> bool
    ensures { result ≡ is_set word.now }
{
    word == b"set".as_slice()
        || word == b"add".as_slice()
        || word == b"replace".as_slice()
        || word == b"cas".as_slice()
        || word == b"append".as_slice()
        || word == b"prepend".as_slice()
}
