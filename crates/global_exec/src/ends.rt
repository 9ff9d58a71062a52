//! What a reply comes to.
use fed_rules::Dues;

/// What a site's reply to an operation comes to.
#[derive(Drop)]
pub enum DidEnd {
    /// The reply doesn't count.
    Ignored,
    /// The reply counts, and the operation may be tried again.
    Waits,
    /// The reply counts, and the site refuses the attempt or doesn't know the operation.
    Refused,
    /// The reply counts, and this became outstanding by it.
    Next(Dues),
}
