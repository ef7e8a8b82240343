use xfs_mech::Watch;

/// The watch of the card slot, which no call takes for that of the key pad.
#[derive(Drop)]
pub struct CardWatch<W: Watch>(pub W);

/// The watch of the key pad, which no call takes for that of the card slot.
#[derive(Drop)]
pub struct KeyWatch<W: Watch>(pub W);
