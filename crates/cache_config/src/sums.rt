//! What readers of the parts of a cache counted, over all parts.
ghost use Rattle.std.specs.Prelude.{◌≡◌, ◌+◌, All};
ghost use Rattle.cache_lists.specs.Counts.{capped};
ghost use Rattle.cache_config.specs.Sums.{AddsUp, bumps_of, hits_of, misses_of};

use bump_heads::Name;
use bump_rules::Accounts;
use bump_steps::RowLaw;
use cache_readers::WordReader;

/// How many gets found something, by these readers together, at most 2^64 - 1.
pub fn hits_in<N: Name, L: RowLaw>(parts: &[WordReader<N, L>]) -> u64
    ensures { result ≡ hits_of parts.now }
{
    let mut hits: u64 = 0;
    for part in parts {
        hits = hits.saturating_add(part.hits());
    }
    hits
}

/// How many gets found nothing, by these readers together, at most 2^64 - 1.
pub fn misses_in<N: Name, L: RowLaw>(parts: &[WordReader<N, L>]) -> u64
    ensures { result ≡ misses_of parts.now }
{
    let mut misses: u64 = 0;
    for part in parts {
        misses = misses.saturating_add(part.misses());
    }
    misses
}

// The sums of both, each as far as the count goes.
fn both(one: Accounts, other: Accounts) -> Accounts
    ensures { result ≡ record {
      attempted = capped (one.attempted + other.attempted);
      accepted = capped (one.accepted + other.accepted);
      full = capped (one.full + other.full);
      busy = capped (one.busy + other.busy);
      refs = capped (one.refs + other.refs);
    } }
{
    Accounts {
        attempted: one.attempted.saturating_add(other.attempted),
        accepted: one.accepted.saturating_add(other.accepted),
        full: one.full.saturating_add(other.full),
        busy: one.busy.saturating_add(other.busy),
        refs: one.refs.saturating_add(other.refs),
    }
}

/// The counts of bumps of these readers: each over all of them, at most 2^64 - 1. In each by itself accepted and dropped
/// ones add up to those attempted.
pub fn bumps_in<N: Name, L: RowLaw>(parts: &[WordReader<N, L>]) -> Accounts
    ensures counts { result ≡ bumps_of parts.now }
    ensures add_up { All AddsUp parts.now }
{
    let mut bumps = Accounts::none();
    for part in parts {
        bumps = both(bumps, part.bumps());
    }
    bumps
}
