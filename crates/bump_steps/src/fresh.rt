//! The words of chunks that had no life yet.
ghost use Rattle.std.specs.Prelude.{◌≡◌, ◌≤◌, ◌<◌, ◌-◌, ◌*◌, ◌^◌, [], IfOk};
ghost use Rattle.bump_rules.specs.Configs.{most_chunks};
ghost use Rattle.bump_word.specs.Layout.{generation_width};
ghost use Rattle.bump_steps.specs.Rule.{AreFresh, opened};
ghost use Rattle.bump_steps.specs.Places.{rows};
ghost use Rattle.bump_steps.specs.Rule.{chunks as all_chunks};
ghost use Rattle.bump_steps.specs.Words.{words_id, config_of};

use crate::laws::RowLaw;
use crate::views::Empty;
use crate::words::{HEAD, Seat, Words};
use atomic_table::Table;
use bump_rules::Config;
use bump_word::laws::ONE_GENERATION;
use std::alloc::{AllocError, Global};

fn fresh_words(alloc: Global, chunks: u32, first: u32, further: u32) -> Result<Vec<u64>, AllocError>
    requires { (chunks ≤ most_chunks) × (0 < first) }
    ensures words { IfOk result (λ v. AreFresh further chunks (first - 1) v.items) }
    ensures fits { first < 2 ^ generation_width }
{
    let row = further as usize + 3;
    let mut words = Vec::new(alloc);
    words.resize(chunks as usize * row + HEAD, 0)?;
    let word = u64::from(first - 1) * ONE_GENERATION;
    let mut head = HEAD;
    for chunk in 0..chunks {
        words[head] = word;
        head += row;
    }
    Ok(words)
}

impl<L: RowLaw> Words<L> {
    /// A table for the chunks of the configuration, of which none had a life yet, and the one seat that has every sheet.
    /// A chunk has so many further words beside its label.
    pub fn fresh(
        alloc: Global,
        config: &Config,
        further: u32,
    ) -> Result<(Words<L>, Seat), AllocError>
        ensures config { IfOk result (λ p. config_of p.0 ≡ config.now) }
        ensures seat { IfOk result (λ p. (p.1.table_id ≡ words_id p.0) × (p.1.me ≡ (opened (config_of p.0), []))) }
        ensures chunks { IfOk result (λ p. 0 < (words_id p.0).words) }
        ensures rows { IfOk result (λ p. rows (words_id p.0) ≡ all_chunks (config_of p.0)) }
        ensures further { IfOk result (λ p. (words_id p.0).slots ≡ further) }
    {
        let words = fresh_words(alloc, config.chunks(), config.first_generation, further)?;
        let mut slots = Vec::new(alloc);
        slots.resize(further as usize, Empty)?;
        match Table::new(alloc, &words, slots, config) {
            Ok((table, seat)) => Ok((
                Words {
                    table,
                    row: further as usize + 3,
                },
                seat,
            )),
            Err(_) => Err(AllocError),
        }
    }
}
