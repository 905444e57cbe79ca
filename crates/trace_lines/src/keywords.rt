//! The first words of lines.

ghost use Rattle.std.specs.Prelude.{◌≡◌};
ghost use Rattle.trace_lines.specs.Lines.{keyword_of};
ghost use Rattle.trace_lines.specs.Keywords.{keyword_among, other_keywords};

/// The first word of a line.
#[derive(Clone, Copy)]
pub enum Keyword {
    /// `store`: the workers, their rings and the limits.
    Store,

    /// `class`: one more class.
    Class,

    /// `set`: an item is stored under a name.
    Set,

    /// `temp`: an item is stored in TEMP under a name.
    Temp,

    /// `get`: the item of a name is held, read, hit and given back.
    Get,

    /// `hold`: a hold of the item of a name is taken and kept.
    Hold,

    /// `hit`: an item is hit by a hold that is kept.
    Hit,

    /// `read`: a label is read by a hold that is kept.
    Read,

    /// `drop`: a hold that is kept is given back.
    Drop,

    /// `del`: the item of a name ends.
    Del,

    /// `pull`: the last item of a list is looked at.
    Pull,

    /// `sweep`: ended items that nobody holds are freed.
    Sweep,

    /// `drain`: the queued bumps are applied.
    Drain,

    /// `close`: a worker's ring is closed.
    Close,

    /// `show`: all lists and accounts are printed.
    Show,

    /// `moves`: the moves for bumps of each class and worker are counted.
    Moves,

    /// `par`: only some lines may follow.
    Par,
}

/// The first word that these bytes are, if they are one.
pub fn read_keyword(word: &[u8]) -> Option<Keyword>
    ensures { result ≡ keyword_of word.now }
{
    if word == b"store".as_slice() {
        Some(Keyword::Store)
    } else if word == b"class".as_slice() {
        Some(Keyword::Class)
    } else if word == b"set".as_slice() {
        Some(Keyword::Set)
    } else if word == b"temp".as_slice() {
        Some(Keyword::Temp)
    } else if word == b"get".as_slice() {
        Some(Keyword::Get)
    } else if word == b"hold".as_slice() {
        Some(Keyword::Hold)
    } else if word == b"hit".as_slice() {
        Some(Keyword::Hit)
    } else if word == b"read".as_slice() {
        Some(Keyword::Read)
    } else if word == b"drop".as_slice() {
        Some(Keyword::Drop)
    } else {
        read_other_keyword(word)
    }
}

// The same of the other first words.
fn read_other_keyword(word: &[u8]) -> Option<Keyword>
    ensures { result ≡ keyword_among other_keywords word.now }
{
    if word == b"del".as_slice() {
        Some(Keyword::Del)
    } else if word == b"pull".as_slice() {
        Some(Keyword::Pull)
    } else if word == b"sweep".as_slice() {
        Some(Keyword::Sweep)
    } else if word == b"drain".as_slice() {
        Some(Keyword::Drain)
    } else if word == b"close".as_slice() {
        Some(Keyword::Close)
    } else if word == b"show".as_slice() {
        Some(Keyword::Show)
    } else if word == b"moves".as_slice() {
        Some(Keyword::Moves)
    } else if word == b"par".as_slice() {
        Some(Keyword::Par)
    } else {
        None
    }
}
