//! What one connection posts and hears, as a relation over its texts and frames, and what holds of
//! every such conversation.
#![tactic(auto)]

ghost use Rattle.std.specs.Prelude.{◌≡◌, [], All};
ghost use Rattle.xfs_conversation.specs.Conversation.{Conversation, EachConversation};
ghost use Rattle.xfs_conversation.specs.Fronts.{HasFronts, WasPosted};
ghost use Rattle.xfs_conversation.specs.Immediate.{IsKeptByImmediate};
ghost use Rattle.xfs_conversation.specs.Once.{IsOnce};
ghost use Rattle.xfs_conversation.specs.Parts.{EachWithParts, HasParts};
ghost use Rattle.xfs_conversation.specs.Pending as pending;

/// Whether a command may have this request id: one from 1 to 2147483647 (CWA XFS4IoT). Whether
/// another command is pending with it is not looked at.
pub fn is_request_id(id: u64) -> bool
    ensures { result ≡ pending.is_request_id id }
{
    id >= 1 && id <= 2147483647
}

/// At its join a connection has posted and heard nothing, and none of its commands is pending.
pub fn conversations_begin_empty()
    ensures { Conversation [] [] [] }
{}

/// A conversation has its parts, and what has them is a conversation: so a reader may take either
/// for its meaning.
pub fn conversations_are_their_parts()
    ensures parts { EachConversation HasParts }
    ensures converse { EachWithParts Conversation }
{}

/// Each text has one acknowledge, and a command that it accepts has at most one completion.
pub fn commands_complete_once()
    ensures { EachConversation IsOnce }
{}

/// What was heard up to some frame is a conversation with the first of the texts, whatever was
/// heard later.
pub fn fronts_are_conversations()
    ensures { EachConversation HasFronts }
{}

/// Each pending command was posted, by this id and name.
pub fn pending_commands_were_posted()
    ensures { EachConversation (λ texts _ pending. All (WasPosted texts) pending) }
{}

/// A command that the frame behind its acknowledge completes leaves the pending commands as they
/// were.
pub fn immediate_commands_keep_what_is_pending()
    ensures { EachConversation IsKeptByImmediate }
{}
