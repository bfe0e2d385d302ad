// A pour over a writer, such as the standard output.
ghost use Rattle.std.specs.Prelude.{◌≡◌, ◌<◌, ◌^◌};

use crate::{Pour, PourAnswer};
use std::io::Write;

/// A pour over a writer. Each write is the writer's own, so a writer that gathers is flushed by its owner.
pub struct StdoutPour<W> {
    writer: W,
    faults: u64,
    ghost counted: { faults < 2 ^ 64 },
}

impl<W: Drop> Drop for StdoutPour<W> {
    fn drop(self) {
        let StdoutPour {
            writer: _,
            faults: _,
        } = self;
    }
}

impl<W: Write> StdoutPour<W> {
    /// A pour over this writer.
    pub fn new(writer: W) -> StdoutPour<W>
        ensures faults { ⟦<StdoutPour<W> as Pour>⟧.faults result ≡ 0 }
        ensures poured { ⟦<StdoutPour<W> as Pour>⟧.poured result ≡ W.contents writer }
    {
        StdoutPour { writer, faults: 0 }
    }

    /// Gives the writer back.
    pub fn into_writer(self) -> W
        ensures { W.contents result ≡ ⟦<StdoutPour<W> as Pour>⟧.poured self }
    {
        let StdoutPour { writer, faults: _ } = self;
        writer
    }
}

impl<W: Write> Pour for StdoutPour<W> {
    ghost poured = { λ p. W.contents p.writer };

    ghost faults = { λ p. p.faults };

    // A writer that takes none counts as a fault.
    fn write(&mut self, from: &[u8]) -> Result<usize, PourAnswer> {
        match self.writer.write(from) {
            Ok(n) if n != 0 => Ok(n),
            _ => {
                self.faults = self.faults.saturating_add(1);
                Err(PourAnswer::Failed)
            }
        }
    }
}
