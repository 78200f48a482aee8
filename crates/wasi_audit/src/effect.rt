/// What an answered call did to the descriptor numbers. A call that was refused did nothing to them.
#[derive(Clone, Copy)]
pub enum AuditEffect {
    /// No number came, went or moved.
    Nothing,
    /// `path_open` through `from` answered `to`, which stems from what `from` stems from.
    Opened { from: u32, to: u32 },
    /// `fd_close` of this number, which stems from none now.
    Closed(u32),
    /// `fd_renumber`: `to` stems from what `from` stemmed from, and `from` from none. Of equal numbers nothing changes.
    Renumbered { from: u32, to: u32 },
}
