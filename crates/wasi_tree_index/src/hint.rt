//! Where to look first.

/// Where a name was found last: the next name that is asked for may stand just after it. Any place will do, whatever
/// stands there, so contracts say nothing of it.
#[derive(Clone, Copy, Debug)]
pub struct SearchHint {
    pub(crate) block: usize,
    pub(crate) row: usize,
}

impl SearchHint {
    /// The first place.
    pub fn first() -> SearchHint {
        SearchHint { block: 0, row: 0 }
    }
}
