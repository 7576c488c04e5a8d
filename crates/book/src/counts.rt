ghost use Rattle.std.specs.Prelude.{◌≡◌};

// What a book keeps between calls: its day, and how many rows of each lent table are in use.
// Any numbers may stand here: they are tested with the tables in every call.
#[derive(Clone, Copy, Debug, PartialEq, Eq)]
pub struct Book {
    pub day: u32,
    pub trades: usize,
    pub intermediations: usize,
    pub pairs: usize,
}

impl Book {
    // An empty book on this day.
    pub fn begin(day: u32) -> Self
        ensures { result ≡ record { day = day; trades = 0; intermediations = 0; pairs = 0 } }
    {
        Book {
            day,
            trades: 0,
            intermediations: 0,
            pairs: 0,
        }
    }
}
