//! Where the nodes of a construct are placed.
ghost use Rattle.std.specs.Prelude.{◌≡◌};

/// Where nodes are placed: right before the number `end`, so that they lead on to the node `next`,
/// in the text of a loop or of none, with temporaries from a number on.
#[derive(Clone, Copy, Debug)]
pub(crate) struct Site {
    pub temporary: u32,
    pub end: u32,
    pub next: u32,
    pub inside: Option<u16>,
}

impl Site {
    /// The place right before a node that was placed, and that leads on to it.
    pub(crate) fn leading_to(self, at: u32) -> Site
        ensures { result ≡ record self { end = at; next = at } }
    {
        Site {
            end: at,
            next: at,
            ..self
        }
    }

    /// The place right before a number, that leads on to what follows this one.
    pub(crate) fn up_to(self, end: u32) -> Site
        ensures { result ≡ record self { end = end } }
    {
        Site { end, ..self }
    }

    /// The same place, with temporaries from another number on.
    pub(crate) fn above(self, temporary: u32) -> Site
        ensures { result ≡ record self { temporary = temporary } }
    {
        Site { temporary, ..self }
    }
}
