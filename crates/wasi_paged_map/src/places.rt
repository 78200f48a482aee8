//! Pages of places: of each number, where its thing is.
ghost use Rattle.std.specs.Prelude.{◌≡◌, ◌<◌, ◌≤◌, ◌-◌, ◌^◌, ◌%◌, ◌/◌, ℕ, OnOk, IfSome, cond, length, nat_lt};
ghost use Rattle.std.specs.Ordering.{eq_by_cmp, nat_cmp};
ghost use Rattle.wasi_paged_map.specs.Places.{IsFirstFrom, page_at, place_at, place_in};

use std::alloc::AllocError;

/// How many numbers a page has.
const PAGE: usize = 256;

/// How many pages there are at most, so that the numbers of all of them have less than 64 bits.
const MOST_PAGES: u64 = 1 << 48;

/// Where the thing of a number is, if it has one.
#[inline(always)]
pub(crate) fn find(pages: &[Vec<u32>], n: u64) -> Option<usize>
    ensures { result ≡ place_in pages.now n }
{
    let page = pages.get((n / 256) as usize)?;
    let place = page.as_slice().get((n % 256) as usize)?;
    (*place as usize).checked_sub(1)
}

/// The first number from this one on that has a place. A page with none is passed over.
pub(crate) fn first_from(pages: &[Vec<u32>], from: u64) -> Option<u64>
    requires { length pages.now ≤ 2 ^ 48 }
    ensures first { IsFirstFrom (place_in pages.now) from result }
    ensures below { IfSome result (λ n. n < 2 ^ 64 - 1) }
{
    let mut n = from;
    while n / 256 < pages.len() as u64 {
        if find(pages, n).is_some() {
            return Some(n);
        }
        n = if pages[(n / 256) as usize].is_empty() {
            (n / 256 + 1) * 256
        } else {
            n + 1
        };
    }
    None
}

/// Makes room for the place of a number. For one of 2^56 or more it fails as for want of memory.
#[inline(always)]
pub(crate) fn reach(pages: &mut Vec<Vec<u32>>, n: u64) -> Result<(), AllocError>
    ensures reached { OnOk result (n % 256 < length (page_at pages.new.items (n / 256))) }
    ensures same { (m : ℕ) → place_at pages.new.items m ≡ place_at pages.old.items m }
    ensures few { length pages.old.items ≤ 2 ^ 48 → length pages.new.items ≤ 2 ^ 48 }
{
    if has_place(pages.as_slice(), n) {
        return Ok(());
    }
    open_page(pages, n)
}

/// Whether there is a place of a number.
#[inline(always)]
fn has_place(pages: &[Vec<u32>], n: u64) -> bool
    ensures { result ≡ nat_lt (n % 256) (length (page_at pages.now (n / 256))) }
{
    match pages.get((n / 256) as usize) {
        Some(page) => n % 256 < page.len() as u64,
        None => false,
    }
}

/// Makes the page of a number where there is none.
fn open_page(pages: &mut Vec<Vec<u32>>, n: u64) -> Result<(), AllocError>
    ensures reached { OnOk result (n % 256 < length (page_at pages.new.items (n / 256))) }
    ensures same { (m : ℕ) → place_at pages.new.items m ≡ place_at pages.old.items m }
    ensures few { length pages.old.items ≤ 2 ^ 48 → length pages.new.items ≤ 2 ^ 48 }
{
    let k = n / 256;
    if k >= MOST_PAGES {
        return Err(AllocError);
    }
    lengthen(pages, k as usize)?;
    open(pages, k as usize)
}

/// Puts empty pages behind the last, until there is one of this number. Room for all is taken at once.
fn lengthen(pages: &mut Vec<Vec<u32>>, k: usize) -> Result<(), AllocError>
    ensures reached { OnOk result (k < length pages.new.items) }
    ensures same { (j : ℕ) → page_at pages.new.items j ≡ page_at pages.old.items j }
    ensures few { (most : ℕ) → k < most → length pages.old.items ≤ most → length pages.new.items ≤ most }
{
    let alloc = *pages.allocator();
    pages.reserve(k.saturating_add(1).saturating_sub(pages.len()))?;
    while pages.len() <= k {
        pages.push(Vec::new(alloc))?;
    }
    Ok(())
}

/// Gives a page its places, unless it has them. Each then says that there is no thing.
fn open(pages: &mut Vec<Vec<u32>>, k: usize) -> Result<(), AllocError>
    requires { k < length pages.old.items }
    ensures reached { OnOk result (255 < length (page_at pages.new.items k)) }
    ensures same { (m : ℕ) → place_at pages.new.items m ≡ place_at pages.old.items m }
    ensures count { length pages.new.items ≡ length pages.old.items }
{
    let page = &mut pages[k];
    if page.len() < PAGE {
        page.resize(PAGE, 0)?;
    }
    Ok(())
}

/// Sets the place of a number.
#[inline(always)]
pub(crate) fn set(pages: &mut Vec<Vec<u32>>, n: u64, place: u32)
    requires { n % 256 < length (page_at pages.old.items (n / 256)) }
    ensures set { (m : ℕ) → place_at pages.new.items m
        ≡ cond (eq_by_cmp nat_cmp m n) place (place_at pages.old.items m) }
    ensures count { length pages.new.items ≡ length pages.old.items }
{
    let page = &mut pages[(n / 256) as usize];
    page[(n % 256) as usize] = place;
}
