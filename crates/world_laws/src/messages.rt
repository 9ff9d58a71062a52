//! The messages of a story.
ghost use Rattle.world_laws.specs.Messages.{MessagesAreOfBegunAttempts, MessagesAreOfDeclaredSites, OwnEventsSendNothing, SitesSendFew};

/// In the story of any commands each message to a declared site is about an attempt that was begun, of a global transaction.
pub fn messages_to_sites_are_of_begun_attempts()
    ensures { MessagesAreOfBegunAttempts }
{}

/// In the story of any commands the coordinator sends to declared sites alone, and nobody else sends to it.
pub fn messages_are_of_declared_sites()
    ensures { MessagesAreOfDeclaredSites }
{}

/// A site sends at most one message in a line, and only where it is given a message or asks for a decision.
pub fn own_events_send_nothing()
    ensures silent { OwnEventsSendNothing }
    ensures few { SitesSendFew }
{}
