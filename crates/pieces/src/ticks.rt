// Ticks at which something next changes, if it ever does.
ghost use Rattle.std.specs.Prelude.{◌≡◌};
ghost use Rattle.pieces.specs.Ticks.{sooner, earlier};

/// The sooner of the two.
pub fn first_of(one: Option<u32>, other: Option<u32>) -> Option<u32>
    ensures { result ≡ sooner one other }
{
    match (one, other) {
        (Some(m), Some(n)) => Some(m.min(n)),
        _ => one.or(other),
    }
}

/// The tick as it is seen from so many ticks before.
pub fn moved_back(next: Option<u32>, by: u32) -> Option<u32>
    ensures { result ≡ earlier next by }
{
    next.map(|n| n.saturating_sub(by))
}
