//! What a line says.

ghost use Rattle.std.specs.Prelude.{◌≡◌, ◌∷◌, []};
ghost use Rattle.trace_lines.specs.Fields.{U32, U64, Name, Segment};
ghost use Rattle.trace_lines.specs.Lines.{split_at_spaces, values_of, by_row, line_of_words, is_long, is_skipped};
ghost use Rattle.trace_lines.specs.Lines.{line_said, rest_fault};
ghost use Rattle.trace_lines.specs.Seen.{seen_line, words_of, Gives, ReadsAs};

use crate::faults::{Fault, LineError};
use crate::fields::{name_field, segment_field, u32_field, u64_field};
use crate::keywords::{Keyword, read_keyword};
use crate::words::LineWords;
use bump_rules::{ClassConfig, Start, Tail};

/// What a `store` line says. The ranges are looked at where the store is opened.
#[derive(Clone, Copy)]
pub struct Shape {
    /// How many workers there are.
    pub workers: u32,

    /// How many bumps each worker's ring has room for.
    pub capacity: u32,

    /// The greatest reference count of a chunk.
    pub refs_limit: u32,

    /// The generation of each chunk's first life.
    pub first_generation: u32,
}

/// A line that says what the store is.
#[derive(Clone, Copy)]
pub enum Declaration {
    /// `store`: the workers, their rings and the limits.
    Store(Shape),

    /// `class`: one more class.
    Class(ClassConfig),
}

/// A line that says what is done on the open store.
#[derive(Clone, Copy)]
pub enum Instruction<'a> {
    /// `set` or `temp`: an item is stored under a name.
    Set {
        /// Where the item begins: `set` in HOT, `temp` in TEMP.
        start: Start,

        /// The name that is bound to the item.
        name: &'a str,

        /// The number of the class that it is stored in.
        class: u32,

        /// Its label.
        label: u64,
    },

    /// `get`: the item of a name is held, read, hit and given back.
    Get {
        /// The number of the worker that hits it.
        worker: u32,

        /// The name that is bound to the item.
        name: &'a str,
    },

    /// `hold`: a hold of the item of a name is taken, and kept under a hold name.
    Hold {
        /// The number of the worker that takes it.
        worker: u32,

        /// The name that is bound to the item.
        name: &'a str,

        /// The hold name.
        hold: &'a str,
    },

    /// `hit`: an item is hit by a hold that is kept.
    Hit {
        /// The number of the worker that hits it.
        worker: u32,

        /// The hold name.
        hold: &'a str,
    },

    /// `read`: the label of an item is read by a hold that is kept.
    Read {
        /// The hold name.
        hold: &'a str,
    },

    /// `drop`: a hold that is kept is given back, and its name is free again.
    Drop {
        /// The hold name.
        hold: &'a str,
    },

    /// `del`: the item of a name ends.
    Del {
        /// The name that is bound to the item, and stays so.
        name: &'a str,
    },

    /// `pull`: the last item of a list is looked at.
    Pull {
        /// The number of the class.
        class: u32,

        /// The list.
        tail: Tail,
    },

    /// `sweep`: ended items that nobody holds any more are freed.
    Sweep {
        /// The number of the class.
        class: u32,
    },

    /// `drain`: the queued bumps are applied.
    Drain,

    /// `close`: a worker's ring takes no bumps any more, and those in it are applied.
    Close {
        /// The number of the worker.
        worker: u32,
    },

    /// `show`: all lists and accounts are printed.
    Show,

    /// `moves`: for each class and worker, how many moves for bumps there were.
    Moves,

    /// `par`: only some lines may follow.
    Par,
}

impl<'a> Instruction<'a> {
    ghost use Rattle.trace_lines.specs.Lines.{may_follow_par};
    ghost use Rattle.trace_lines.specs.Seen.{seen_instruction};

    /// Whether the line may stand behind `par`.
    pub fn may_follow_par(&self) -> bool
        ensures { result ≡ may_follow_par (seen_instruction self.now) }
    {
        match self {
            Instruction::Get { .. }
            | Instruction::Del { .. }
            | Instruction::Pull { .. }
            | Instruction::Sweep { .. }
            | Instruction::Drain => true,
            Instruction::Set { .. }
            | Instruction::Hold { .. }
            | Instruction::Hit { .. }
            | Instruction::Read { .. }
            | Instruction::Drop { .. }
            | Instruction::Close { .. }
            | Instruction::Show
            | Instruction::Moves
            | Instruction::Par => false,
        }
    }
}

/// What a line says.
#[derive(Clone, Copy)]
pub enum Line<'a> {
    /// What the store is.
    Declares(Declaration),

    /// What is done on it.
    Makes(Instruction<'a>),
}

fn number(words: LineWords<'_>) -> Result<u32, Fault>
    ensures { Gives (λ number. (number, tt)) result (values_of (U32 ∷ []) (words_of words.entry)) }
{
    u32_field(words.one()?)
}

fn name<'a>(words: LineWords<'a>) -> Result<&'a str, Fault>
    ensures { Gives (λ name. (name.now, tt)) result (values_of (Name ∷ []) (words_of words.entry)) }
{
    name_field(words.one()?)
}

fn number_and_name<'a>(words: LineWords<'a>) -> Result<(u32, &'a str), Fault>
    ensures { Gives (λ values. (values.0, (values.1.now, tt)))
        result (values_of (U32 ∷ Name ∷ []) (words_of words.entry)) }
{
    let (number, name) = words.two()?;
    Ok((u32_field(number)?, name_field(name)?))
}

fn number_and_segment(words: LineWords<'_>) -> Result<(u32, Tail), Fault>
    ensures { Gives (λ values. (values.0, (values.1, tt)))
        result (values_of (U32 ∷ Segment ∷ []) (words_of words.entry)) }
{
    let (number, tail) = words.two()?;
    Ok((u32_field(number)?, segment_field(tail)?))
}

fn number_and_names<'a>(words: LineWords<'a>) -> Result<(u32, &'a str, &'a str), Fault>
    ensures { Gives (λ values. (values.0, (values.1.now, (values.2.now, tt))))
        result (values_of (U32 ∷ Name ∷ Name ∷ []) (words_of words.entry)) }
{
    let (number, name, hold) = words.three()?;
    Ok((u32_field(number)?, name_field(name)?, name_field(hold)?))
}

fn name_and_numbers<'a>(words: LineWords<'a>) -> Result<(&'a str, u32, u64), Fault>
    ensures { Gives (λ values. (values.0.now, (values.1, (values.2, tt))))
        result (values_of (Name ∷ U32 ∷ U64 ∷ []) (words_of words.entry)) }
{
    let (name, number, label) = words.three()?;
    Ok((name_field(name)?, u32_field(number)?, u64_field(label)?))
}

fn three_numbers(words: LineWords<'_>) -> Result<(u32, u32, u32), Fault>
    ensures { Gives (λ values. (values.0, (values.1, (values.2, tt))))
        result (values_of (U32 ∷ U32 ∷ U32 ∷ []) (words_of words.entry)) }
{
    let (first, second, third) = words.three()?;
    Ok((u32_field(first)?, u32_field(second)?, u32_field(third)?))
}

fn four_numbers(words: LineWords<'_>) -> Result<(u32, u32, u32, u32), Fault>
    ensures { Gives (λ values. (values.0, (values.1, (values.2, (values.3, tt)))))
        result (values_of (U32 ∷ U32 ∷ U32 ∷ U32 ∷ []) (words_of words.entry)) }
{
    let (first, second, third, fourth) = words.four()?;
    Ok((
        u32_field(first)?,
        u32_field(second)?,
        u32_field(third)?,
        u32_field(fourth)?,
    ))
}

// The line of `store`.
fn store_line<'a>(words: LineWords<'a>) -> Result<Line<'a>, Fault>
    ensures { Gives seen_line result (by_row Keyword.Store (words_of words.entry)) }
{
    let (workers, capacity, refs_limit, first_generation) = four_numbers(words)?;
    Ok(Line::Declares(Declaration::Store(Shape {
        workers,
        capacity,
        refs_limit,
        first_generation,
    })))
}

// The line of `class`.
fn class_line<'a>(words: LineWords<'a>) -> Result<Line<'a>, Fault>
    ensures { Gives seen_line result (by_row Keyword.Class (words_of words.entry)) }
{
    let (chunks, hot, warm) = three_numbers(words)?;
    Ok(Line::Declares(Declaration::Class(ClassConfig { chunks, hot, warm })))
}

// The line of `set`.
fn set_line<'a>(words: LineWords<'a>) -> Result<Line<'a>, Fault>
    ensures { Gives seen_line result (by_row Keyword.Set (words_of words.entry)) }
{
    let (name, class, label) = name_and_numbers(words)?;
    Ok(Line::Makes(Instruction::Set {
        start: Start::Hot,
        name,
        class,
        label,
    }))
}

// The line of `temp`.
fn temp_line<'a>(words: LineWords<'a>) -> Result<Line<'a>, Fault>
    ensures { Gives seen_line result (by_row Keyword.Temp (words_of words.entry)) }
{
    let (name, class, label) = name_and_numbers(words)?;
    Ok(Line::Makes(Instruction::Set {
        start: Start::Temp,
        name,
        class,
        label,
    }))
}

// The line of `get`.
fn get_line<'a>(words: LineWords<'a>) -> Result<Line<'a>, Fault>
    ensures { Gives seen_line result (by_row Keyword.Get (words_of words.entry)) }
{
    let (worker, name) = number_and_name(words)?;
    Ok(Line::Makes(Instruction::Get { worker, name }))
}

// The line of `hold`.
fn hold_line<'a>(words: LineWords<'a>) -> Result<Line<'a>, Fault>
    ensures { Gives seen_line result (by_row Keyword.Hold (words_of words.entry)) }
{
    let (worker, name, hold) = number_and_names(words)?;
    Ok(Line::Makes(Instruction::Hold { worker, name, hold }))
}

// The line of `hit`.
fn hit_line<'a>(words: LineWords<'a>) -> Result<Line<'a>, Fault>
    ensures { Gives seen_line result (by_row Keyword.Hit (words_of words.entry)) }
{
    let (worker, hold) = number_and_name(words)?;
    Ok(Line::Makes(Instruction::Hit { worker, hold }))
}

// The line of `pull`.
fn pull_line<'a>(words: LineWords<'a>) -> Result<Line<'a>, Fault>
    ensures { Gives seen_line result (by_row Keyword.Pull (words_of words.entry)) }
{
    let (class, tail) = number_and_segment(words)?;
    Ok(Line::Makes(Instruction::Pull { class, tail }))
}

// The table of lines: of each first word its fields, and the line that it is with such fields.
fn by_keyword<'a>(keyword: Keyword, words: LineWords<'a>) -> Result<Line<'a>, Fault>
    ensures { Gives seen_line result (by_row keyword (words_of words.entry)) }
{
    let instruction = match keyword {
        Keyword::Store => return store_line(words),
        Keyword::Class => return class_line(words),
        Keyword::Set => return set_line(words),
        Keyword::Temp => return temp_line(words),
        Keyword::Get => return get_line(words),
        Keyword::Hold => return hold_line(words),
        Keyword::Hit => return hit_line(words),
        Keyword::Pull => return pull_line(words),
        Keyword::Read => Instruction::Read { hold: name(words)? },
        Keyword::Drop => Instruction::Drop { hold: name(words)? },
        Keyword::Del => Instruction::Del { name: name(words)? },
        Keyword::Sweep => Instruction::Sweep {
            class: number(words)?,
        },
        Keyword::Drain => {
            words.none()?;
            Instruction::Drain
        }
        Keyword::Close => Instruction::Close {
            worker: number(words)?,
        },
        Keyword::Show => {
            words.none()?;
            Instruction::Show
        }
        Keyword::Moves => {
            words.none()?;
            Instruction::Moves
        }
        Keyword::Par => {
            words.none()?;
            Instruction::Par
        }
    };
    Ok(Line::Makes(instruction))
}

// What a line says, by its words.
#[tactic(auto, unfolding(crate::specs::Lines::line_of_words, crate::specs::Lines::line_of))]
fn read<'a>(line: &'a [u8]) -> Result<Line<'a>, Fault>
    ensures { Gives seen_line result (line_of_words (split_at_spaces line.entry.now)) }
{
    let (word, fields) = LineWords::first(line);
    match read_keyword(word) {
        Some(keyword) => by_keyword(keyword, fields),
        None => Err(Fault::Command),
    }
}

// More bytes than a line may have.
fn is_long(line: &[u8]) -> bool
    ensures { result ≡ is_long line.now }
{
    line.len() > 255
}

// A line without bytes, or a comment.
fn is_skipped(line: &[u8]) -> bool
    ensures { result ≡ is_skipped line.now }
{
    match line {
        [] => true,
        [first, ..] => *first == b'#',
    }
}

/// What a whole line says, or nothing where it is skipped. It is refused by its first fault: LONG, COMMAND, COUNT, and
/// then field by field from the left NUMBER, NAME and SEGMENT.
#[tactic(auto, unfolding(crate::specs::Lines::line_said))]
pub fn read_line<'a>(line: &'a [u8]) -> Result<Option<Line<'a>>, LineError>
    ensures { ReadsAs result (line_said line.entry.now) }
{
    if is_long(line) {
        return Err(LineError::Fault(Fault::Long));
    }
    if is_skipped(line) {
        return Ok(None);
    }
    match read(line) {
        Ok(line) => Ok(Some(line)),
        Err(fault) => Err(LineError::Fault(fault)),
    }
}

/// What is wrong with the bytes behind the last line feed: LONG, or TRUNCATED where there are any.
pub fn rest_fault(rest: &[u8]) -> Option<Fault>
    ensures { result ≡ rest_fault rest.now }
{
    if is_long(rest) {
        return Some(Fault::Long);
    }
    if rest.is_empty() {
        None
    } else {
        Some(Fault::Truncated)
    }
}
