//! No sink writes a file that something else has.
ghost use Rattle.std.specs.Prelude.{[], ◌∷◌, codes};
ghost use Rattle.language_model.specs.Files.{OwnFiles};
ghost use Rattle.check_laws.specs.OwnFilesLaw.{OwnFilesLaw};
ghost use Rattle.check_laws.specs.examples.SomeFiles.{sink_of, source_of, two_sinks};

use crate::laws::keeps_law;

/// In a checked graph of a unit each sink has a file of its own: no other sink writes it, no source
/// reads it, and it is none of the files that sinks may not have.
pub fn own_files_law()
    ensures own { OwnFilesLaw }
{
    keeps_law();
}

/// A source and two sinks that have files of their own; and two sinks of one file, a sink of a
/// source's file in either order, and one of a file that sinks may not have, which have not.
pub fn own_files_on_literals()
    ensures own { OwnFiles (codes "report" ∷ []) two_sinks }
    ensures twice { OwnFiles [] (sink_of (codes "b") ∷ source_of (codes "a") ∷ sink_of (codes "b") ∷ []) → ⊥ }
    ensures before { OwnFiles [] (sink_of (codes "a") ∷ source_of (codes "a") ∷ []) → ⊥ }
    ensures behind { OwnFiles [] (source_of (codes "a") ∷ sink_of (codes "a") ∷ []) → ⊥ }
    ensures named { OwnFiles (codes "b" ∷ []) (sink_of (codes "b") ∷ []) → ⊥ }
{}
