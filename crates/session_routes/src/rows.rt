//! The first rows of a site.
ghost use Rattle.std.specs.Prelude.{◌≡◌, IfOk};
ghost use Rattle.fed_rules.specs.Scenarios.{items_of};
ghost use Rattle.session_routes.specs.Rows.{DifferInRow, rows_at};

use fed_rules::ItemLine;
use mdb_base::{Memory, Put, Puts, SiteId, sort_rows};
use std::alloc::Global;

/// The rows of the items of a site, in the order of their lines.
fn rows_at_site(alloc: Global, items: &[ItemLine], site: SiteId) -> Result<Vec<Put>, Memory>
    ensures { IfOk result (λ rows. rows.items ≡ rows_at items.now site) }
{
    let mut rows = Vec::new(alloc);
    for item in items {
        if item.site.0 == site.0 {
            rows.push(item.put)?;
        }
    }
    Ok(rows)
}

/// The first rows of a site, by rising key.
pub fn first_rows(alloc: Global, items: &[ItemLine], site: SiteId) -> Result<Puts, Memory>
    requires { DifferInRow items.now }
    ensures { IfOk result (λ rows. rows ≡ items_of items.now site) }
{
    let rows = rows_at_site(alloc, items, site)?;
    let rows = sort_rows(rows).into_items();
    Ok(Puts::of(rows))
}
