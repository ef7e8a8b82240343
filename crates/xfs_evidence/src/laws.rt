//! What is true of every evidence.
ghost use Rattle.xfs_evidence.specs.Laws.{AreOne, ArePutOut, AreRefusedOnce, AreTaken};

/// Under a key and with a nonce one text tells one thing; what is told is refused by no check but for want of memory; and
/// of the refusals of a text there is one. Where there is no reason against an evidence of the last records of a list, each
/// tells what the mechanism put out, if the list agrees with what that did.
pub fn every_evidence()
    ensures one { AreOne }
    ensures taken { AreTaken }
    ensures once { AreRefusedOnce }
    ensures put_out { ArePutOut }
{}
