//! Where to look for an address: a table of pages, and the areas in order of their addresses. No
//! contract rests on it, since each look-up is checked; it makes one take constant time.

use crate::area::Area;
use std::alloc::{AllocError, Global};

/// The count of addresses of a page.
const PAGE: u64 = 4096;

/// Where an area begins.
#[derive(Clone, Copy, Drop)]
struct Start {
    at: u64,
    area: usize,
}

/// For each page an area that has an address of it, and all areas in order of their addresses.
#[derive(Drop)]
pub(crate) struct Places {
    pages: Vec<u32>,
    starts: Vec<Start>,
}

/// The first addresses of the areas that have one, in their order.
fn starts_of(alloc: Global, areas: &[Area]) -> Result<Vec<Start>, AllocError> {
    let mut starts = Vec::with_capacity(alloc, areas.len())?;
    for (k, area) in areas.iter().enumerate() {
        if area.size() > 0 {
            starts.push(Start {
                at: u64::from(area.at()),
                area: k,
            })?;
        }
    }
    starts.sort_unstable_by_key(|start| start.at);
    Ok(starts)
}

/// Sets the pages of an area to its number, and makes those that aren't there yet.
fn mark(pages: &mut Vec<u32>, area: &Area, number: u32) -> Result<(), AllocError> {
    let first = u64::from(area.at());
    let end = first.saturating_add(area.size() as u64);
    for page in first / PAGE..end.div_ceil(PAGE) {
        if page as usize >= pages.len() {
            pages.resize(page as usize, u32::MAX)?;
            pages.push(number)?;
        } else {
            pages[page as usize] = number;
        }
    }
    Ok(())
}

/// The pages of all areas but the last, which is the region.
fn pages_of(alloc: Global, areas: &[Area]) -> Result<Vec<u32>, AllocError> {
    let mut pages = Vec::new(alloc);
    let mut number: u32 = 0;
    for area in areas.iter().take(areas.len().saturating_sub(1)) {
        mark(&mut pages, area, number)?;
        number = number.saturating_add(1);
    }
    Ok(pages)
}

impl Places {
    /// The places of the areas, of which the last is the region.
    pub(crate) fn of(alloc: Global, areas: &[Area]) -> Result<Places, AllocError> {
        Ok(Places {
            pages: pages_of(alloc, areas)?,
            starts: starts_of(alloc, areas)?,
        })
    }

    /// An area that has an address of this one's page.
    pub(crate) fn guess(&self, at: u64) -> usize {
        match self.pages.get((at / PAGE) as usize) {
            Some(area) => *area as usize,
            None => usize::MAX,
        }
    }

    /// The last area that begins at the address or before it.
    pub(crate) fn find(&self, at: u64) -> usize {
        let after = self.starts.partition_point(|start| start.at <= at);
        match self.starts.get(after.wrapping_sub(1)) {
            Some(start) => start.area,
            None => usize::MAX,
        }
    }
}
