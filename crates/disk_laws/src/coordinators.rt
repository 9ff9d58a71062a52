//! What the coordinator's journal keeps.
ghost use Rattle.disk_laws.specs.Left.{CommitsCloseNoCycle, CoordinatorsSumsFit, MembersStandInOrder, NamedSitesAreDeclared, OfCoordinators, RecordsStandInOrder, SumsAreOfOpen, TransactionsCommitOnce};

/// The tickets of the committed attempts close no cycle, those included that a first Checkpoint stands for.
pub fn journals_close_no_cycle()
    ensures { OfCoordinators CommitsCloseNoCycle }
{}

/// Each attempt has at most one Initiation, one of Commit and Abort, and one End, in this order; and each transaction has at most one Commit.
pub fn journals_stand_in_order()
    ensures order { OfCoordinators RecordsStandInOrder }
    ensures once { OfCoordinators TransactionsCommitOnce }
{}

/// Each site that a record names is declared, with the protocol that the record names, and participants stand by rising site.
pub fn journals_name_declared_sites()
    ensures declared { OfCoordinators NamedSitesAreDeclared }
    ensures rising { OfCoordinators MembersStandInOrder }
{}

/// A Checkpoint behind other records is the Sum of them, a first Checkpoint among these read as what it sums; its attempts stand by rising attempt, and
/// none that committed is open where a commit of its participants is forgotten at once.
pub fn checkpoints_are_sums_of_the_coordinator()
    ensures sums { OfCoordinators CoordinatorsSumsFit }
    ensures of_open { OfCoordinators SumsAreOfOpen }
{}
