//! What the coordinator counts (this project's profile of Al-Houmaily and Chrysanthis 1999).
ghost use Rattle.std.specs.Prelude.{◌≡◌, List, true, false};
ghost use Rattle.fed_rules.specs.Coord.{coord_line};
ghost use Rattle.fed_rules.specs.CoordPast.{CoordPast, counts, is_known, message_tid, standing};
ghost use Rattle.fed_rules.specs.Policies.{Policy};
ghost use Rattle.fed_rules.specs.declared.events.CoordEvent.TheVariants.{Take};
ghost use Rattle.fed_rules.specs.declared.messages.FromSite.{FromSite};
ghost use Rattle.mdb_base.specs.declared.names.SiteId.{SiteId};
ghost use Rattle.presumptions.specs.declared.Participant.{Participant};
ghost use Rattle.fed_rules.specs.Heard.{is_inquiry};

/// A reply, vote or acknowledgement that counts is about an attempt that the coordinator knows.
pub fn counted_messages_are_about_known_attempts()
    ensures { (protocols : List Participant) (policy : Policy) (past : CoordPast) (site : SiteId) (message : FromSite) →
        is_inquiry message ≡ false →
        counts (coord_line protocols policy past (Take site message)).answer ≡ true →
        is_known (standing protocols past (message_tid message)) ≡ true }
{}
