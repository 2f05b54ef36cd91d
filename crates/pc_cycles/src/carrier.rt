//! What carries a chain on from row to row.
ghost use Rattle.std.specs.Prelude.{◌≡◌, true};

/// What carries a chain on at the beginning of a row.
#[derive(Clone, Copy, Debug, PartialEq, Eq)]
pub enum Carrier {
    /// The value of a name.
    Value {
        /// The name.
        name: u32,
    },
    /// An item that waits: it may not stand in one row with the item of the chain before it, since both may touch one element of an
    /// array, into which one of them stores, or each is a print, read or more.
    Waiting {
        /// The iteration of the item, counted from the state's own first one.
        iteration: u32,
        /// Its origin, the number of a node of the flow graph.
        origin: u32,
    },
}

impl Carrier {
    /// Whether it is the same as another.
    pub(crate) fn is_same(self, other: Carrier) -> bool
        ensures { result ≡ true → self ≡ other }
    {
        match (self, other) {
            (Carrier::Value { name: one }, Carrier::Value { name: two }) => one == two,
            (
                Carrier::Waiting {
                    iteration: one,
                    origin: from,
                },
                Carrier::Waiting {
                    iteration: two,
                    origin: to,
                },
            ) => one == two && from == to,
            _ => false,
        }
    }
}
