// Why a text is refused.

/// Why a text denotes no state, or no set: its first fault from the left. Places are bytes, counted from 0.
#[derive(Clone, Copy, Debug, PartialEq, Eq)]
pub enum CapTextError {
    /// There is no clause; for a set, no byte.
    Empty,
    /// The piece of a list that begins at this place is no name.
    UnknownName(usize),
    /// There is no operator at this place: the clause ends after its list, or the byte after an action's flags is none.
    NoOperator(usize),
    /// There is no flag at this place, after `+` or `-`.
    NoFlag(usize),
    /// The clause at this place begins with `+` or `-`, without a list.
    NoNames(usize),
}
