//! That what a restart restores was sealed before it, and that a site over all its stops is serial.
ghost use Rattle.site_history.specs.Events.{PreparedOncePerEpoch};
ghost use Rattle.site_history.specs.SiteOrders.{HasEpochs, HasGoodStarts, IsSerialPast, OfSortedEvents, OfSortedPasts};

/// Whatever sorted events come to a site, also where an attempt is prepared again behind its end, each epoch starts well, and so would one
/// from whatever a stop may leave of the records.
pub fn epochs_start_well()
    ensures { OfSortedEvents HasGoodStarts }
{}

/// Each epoch of a site starts after the one before it: from the rows of its table, with some of its sealed runs in doubt, which are apart
/// from one another. The events are sorted: what begins and commits as a local attempt is of a local transaction, and what operations are
/// for isn't. And no attempt is prepared twice, as its coordinator sees to.
pub fn restarts_keep_sealed_runs()
    ensures { OfSortedPasts HasEpochs }
{}

/// Over all its stops and restarts the committed attempts of a site by their serial numbers, alone and one after another, read what they
/// were answered, their tickets rise, and they leave the rows of the site; and so do they together with all prepared ones whose outcome is
/// commit, which leave what the site is due: where none of these is in doubt, they are the committed ones. The accesses of an attempt are those of its run when its record was appended.
pub fn sites_are_serial()
    ensures { OfSortedPasts IsSerialPast }
{}

/// No attempt is prepared twice, where all Prepares of an attempt that come name one epoch: an attempt that was prepared in this epoch is in
/// doubt or closed, and so no run of it is begun again in the epoch.
pub fn sites_prepare_once()
    ensures { PreparedOncePerEpoch }
{}
