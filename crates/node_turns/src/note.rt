//! What a node notes.
ghost use Rattle.std.specs.Prelude.{◌≡◌};
ghost use Rattle.node_turns.specs.Notes.{is_clean, weight as weight_as, worse as worse_as};

/// What went wrong at a node. A later one of these weighs more, and takes the place of those before it.
#[derive(Clone, Copy)]
pub enum Note {
    Nothing,
    /// A write of its sink failed. What comes after it isn't written.
    Write,
    /// This link has carried as many packets as it may. The element is cut.
    Worn(u32),
    /// There was no memory. The element is cut.
    Memory,
    /// A packet came that isn't proper behind those before it. It is dropped, and the element is cut.
    Improper,
}

impl Note {
    /// Whether nothing went wrong.
    #[inline(always)]
    pub fn is_nothing(self) -> bool
        ensures { result ≡ is_clean self }
    {
        match self {
            Note::Nothing => true,
            Note::Write | Note::Worn(_) | Note::Memory | Note::Improper => false,
        }
    }
}

fn weight(note: Note) -> u32
    ensures { result ≡ weight_as note }
{
    match note {
        Note::Nothing => 0,
        Note::Write => 1,
        Note::Worn(_) => 2,
        Note::Memory => 3,
        Note::Improper => 4,
    }
}

/// The note that weighs more, the older one where they weigh the same.
pub(crate) fn worse(old: Note, new: Note) -> Note
    ensures { result ≡ worse_as old new }
{
    if weight(old) < weight(new) { new } else { old }
}
