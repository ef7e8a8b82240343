use crate::{KeyName, Tracks};

/// What a person does at the machine, or what befell a device there.
#[derive(Debug, Drop)]
pub enum Touch {
    /// A card was put in, with these tracks.
    CardIn(Tracks),
    /// The card was taken from the exit.
    CardTaken,
    /// The card reader failed.
    CardFault,
    /// A key was pressed.
    Key(KeyName),
    /// The keyboard failed.
    KeyFault,
    /// The customer took notes from the outlet; the mechanism tells how many.
    NotesTaken,
}

/// What a watch tells.
#[derive(Debug, Drop)]
pub enum News {
    Touch(Touch),
    /// Nothing is to come now.
    Quiet,
    /// The device failed: its count of faults rose in this call.
    Failed,
}
