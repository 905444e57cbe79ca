//! The words of a line, read where they stand.

ghost use Rattle.std.specs.Prelude.{◌≡◌, ◌==◌, ◌<◌, ◌+◌, ◌∷◌, [], MatchOption, MatchResult, length, position};
ghost use Rattle.trace_lines.specs.Lines.{split_at_spaces};
ghost use Rattle.trace_lines.specs.Seen.{words_of, AreWords};
ghost use Rattle.trace_lines.specs.declared.faults.Fault.TheVariants.{Count};

use crate::faults::Fault;

/// The words of a line that are still to be read.
#[derive(Clone, Copy)]
pub struct LineWords<'a> {
    /// The next word and what stands behind it. None where no word is left.
    rest: Option<&'a [u8]>,
}

// The place of the first space.
fn space(bytes: &[u8]) -> Option<usize>
    ensures { result ≡ position (λ b. b == 32) bytes.now }
{
    bytes.iter().position(|b| *b == b' ')
}

impl<'a> LineWords<'a> {
    /// The first word of a line, and those behind it. A line without bytes has one word, without bytes.
    pub fn first(line: &'a [u8]) -> (&'a [u8], LineWords<'a>)
        ensures { split_at_spaces line.entry.now ≡ result.0.now ∷ words_of result.1 }
    {
        match space(line) {
            Some(end) => {
                let rest = Some(&line[end + 1..]);
                (&line[..end], LineWords { rest })
            }
            None => (line, LineWords { rest: None }),
        }
    }

    // The next word, and those behind it. COUNT where no word is left.
    fn next(self) -> Result<(&'a [u8], LineWords<'a>), Fault>
        ensures { MatchResult result (λ found. words_of self.entry ≡ found.0.now ∷ words_of found.1)
            (λ e. (words_of self.entry ≡ []) × (e ≡ Count)) }
    {
        match self.rest {
            Some(rest) => Ok(LineWords::first(rest)),
            None => Err(Fault::Count),
        }
    }

    /// That no word is left. Else COUNT.
    pub fn none(self) -> Result<(), Fault>
        ensures { AreWords 0 (λ words. []) result (words_of self.entry) }
    {
        match self.rest {
            Some(_) => Err(Fault::Count),
            None => Ok(()),
        }
    }

    /// The one word that is left. COUNT where it isn't one.
    pub fn one(self) -> Result<&'a [u8], Fault>
        ensures { AreWords 1 (λ word. word.now ∷ []) result (words_of self.entry) }
    {
        let (first, others) = self.next()?;
        others.none()?;
        Ok(first)
    }

    /// The two words that are left. COUNT where they aren't two.
    pub fn two(self) -> Result<(&'a [u8], &'a [u8]), Fault>
        ensures { AreWords 2 (λ words. words.0.now ∷ words.1.now ∷ []) result (words_of self.entry) }
    {
        let (first, others) = self.next()?;
        let second = others.one()?;
        Ok((first, second))
    }

    /// The three words that are left. COUNT where they aren't three.
    pub fn three(self) -> Result<(&'a [u8], &'a [u8], &'a [u8]), Fault>
        ensures { AreWords 3 (λ words. words.0.now ∷ words.1.now ∷ words.2.now ∷ []) result (words_of self.entry) }
    {
        let (first, others) = self.next()?;
        let (second, third) = others.two()?;
        Ok((first, second, third))
    }

    /// The four words that are left. COUNT where they aren't four.
    pub fn four(self) -> Result<(&'a [u8], &'a [u8], &'a [u8], &'a [u8]), Fault>
        ensures { AreWords 4 (λ words. words.0.now ∷ words.1.now ∷ words.2.now ∷ words.3.now ∷ []) result
            (words_of self.entry) }
    {
        let (first, others) = self.next()?;
        let (second, third, fourth) = others.three()?;
        Ok((first, second, third, fourth))
    }
}
