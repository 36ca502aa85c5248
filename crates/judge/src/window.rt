// A window of ticks, and the tick below which a parent counts.
ghost use Rattle.std.specs.Prelude.{◌+◌, ◌<◌, ◌≤◌};

#[derive(Clone, Copy)]
pub(crate) struct Window {
    pub(crate) from: u32,
    pub(crate) to: u32,
    pub(crate) limit: u32,
    ghost ok: { from ≤ to },
    ghost fits: { limit + to < 4294967296 },
}
