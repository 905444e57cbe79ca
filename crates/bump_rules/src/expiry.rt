//! Times at which entries expire.
ghost use Rattle.std.specs.Prelude.{◌≡◌};
ghost use Rattle.bump_rules.specs.Expiry.{has_expired as the_expired, expires_within as the_soon};

/// Whether what expires at this time has expired at `now`: from its own tick on. Times are the caller's ticks, and what
/// expires at 0 never does. It is the rule of memcached's `do_item_get`.
#[inline(always)]
pub fn has_expired(expires: u64, now: u64) -> bool
    ensures { result ≡ the_expired expires now }
{
    expires != 0 && expires <= now
}

/// Whether what expires at this time does so within so many ticks from `now` on, or has expired; without a number of
/// ticks nothing does, and what expires at 0 never does. It is the rule of memcached's `temporary_ttl`.
pub fn expires_within(ticks: Option<u64>, expires: u64, now: u64) -> bool
    ensures { result ≡ the_soon ticks expires now }
{
    let Some(ticks) = ticks else {
        return false;
    };
    expires != 0 && expires.saturating_sub(now) <= ticks
}
