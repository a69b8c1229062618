//! Theorems that contracts rest on.
ghost use Rattle.relay_types.specs.Alike.{RowsTellAll};
ghost use Rattle.relay_types.specs.Laws.{RowsFollow};
ghost use Rattle.relay_types.specs.Sound.{LegalRowsAreSound, SoundRowsAreOfAHistory};

/// The rows of a legal history that goes on legally are those that the table of changes makes of the rows before,
/// record by record.
pub fn rows_follow()
    ensures { RowsFollow }
{}

/// Two legal histories with the same rows answer the same of every delivery and every endpoint, the same records may
/// follow them, and what goes on legally behind one does so behind the other.
pub fn rows_tell_all()
    ensures { RowsTellAll }
{}

/// The rows of a legal history are sound, stand in the order of their keys, and keep the schema's unique values and
/// references.
pub fn legal_rows_are_sound()
    ensures { LegalRowsAreSound }
{}

/// Sound rows that stand in the order of their keys, and keep the schema's unique values and references, are those of a
/// legal history: the one that stands for them.
pub fn sound_rows_are_of_a_history()
    ensures { SoundRowsAreOfAHistory }
{}
