//! Who hears of a command, and what is asked.
use global_manager::CoordAsk;
use local_dbms::SiteAsk;

/// Who hears of a command: the site at this place among the declared ones, the coordinator, or nobody, which is answered with `none`.
#[derive(Clone, Copy)]
pub(crate) enum Asked {
    Site { place: usize, ask: SiteAsk },
    Coordinator(CoordAsk),
    Nobody,
}
