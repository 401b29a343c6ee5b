//! Pages of host memory that an adapter holds.
ghost use Rattle.std.specs.Prelude.{◌≡◌, ◌++◌};
ghost use Rattle.hca_pages.specs.Page as pages;

use verbs_types::PageUse;

/// The bytes of a page, and what its address is a multiple of.
pub const PAGE_SIZE: u64 = 4096;

/// How many pages an adapter needs in all, and how many it holds at most.
pub const PAGE_LIMIT: u32 = 88;

/// How many pages an adapter needs for this use: 8 at boot, 80 for INIT_HCA. The numbers are this
/// project's own.
pub(crate) fn page_count(which: PageUse) -> u32
    ensures { result ≡ pages.page_count which }
{
    match which {
        PageUse::Boot => 8,
        PageUse::Init => 80,
    }
}

/// The first of these addresses that cannot be given to an adapter that holds `held`: it is no
/// multiple of the page size, is held, or stands earlier in the list. Each is compared with those
/// held and those before it, which are at most 88 where the list fits.
pub(crate) fn first_unfit(held: &[u64], given: &[u64]) -> Option<u64>
    ensures { result ≡ pages.first_unfit held.now given.now }
{
    for (i, page) in given.iter().enumerate() {
        if !is_fit(held, &given[..i], *page) {
            return Some(*page);
        }
    }
    None
}

/// Whether a page can be given where these are held and those stand before it.
fn is_fit(held: &[u64], before: &[u64], page: u64) -> bool
    ensures { result ≡ pages.is_fit (held.now ++ before.now) page }
{
    page % PAGE_SIZE == 0 && !held.contains(&page) && !before.contains(&page)
}
