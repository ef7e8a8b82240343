//! What a machine of this project lets hear is a conversation to the audit too.

ghost use Rattle.xfs_audit.specs.Conversing.{pending_ids};
ghost use Rattle.xfs_audit.specs.Fitting.{Fits};
ghost use Rattle.xfs_conversation.specs.Conversation.{EachConversation};

/// Every lawful conversation fits, with the ids of its pending commands, so that `converse` finds it true.
pub fn conversations_fit()
    ensures { EachConversation (λ texts frames pending. Fits (pending_ids pending) texts frames) }
{}
