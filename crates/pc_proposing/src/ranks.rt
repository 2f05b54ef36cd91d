//! Ranks: from each stand to those that have to be of a smaller rank.
use crate::stands::{Link, Stand};
use std::alloc::{AllocError, Global};

/// The least rank above that to which a link leads, if that has to be smaller; else 0.
fn rank_before(link: Option<Link>, ranks: &[u32]) -> u32 {
    match link {
        Some(Link { to, falls: true }) => match ranks.get(to as usize) {
            None => 0,
            Some(next) => next.saturating_add(1),
        },
        _ => 0,
    }
}

/// The rank of a stand by those that it leads to: above each that has to be smaller.
fn rank_by(stand: &Stand, ranks: &[u32]) -> u32 {
    let mut rank = 0u32;
    for link in stand.links.as_slice() {
        rank = rank.max(rank_before(*link, ranks));
    }
    rank
}

/// Goes over all stands once, the last first. Says whether a rank rose.
fn go_over(stands: &[Stand], ranks: &mut Vec<u32>) -> bool {
    let mut changed = false;
    let count = stands.len().min(ranks.len());
    for back in 0..count {
        let at = count - 1 - back;
        let rank = rank_by(&stands[at], ranks.as_slice());
        if rank > ranks[at] {
            ranks[at] = rank;
            changed = true;
        }
    }
    changed
}

/// The rank of each stand: the longest way on which ranks have to fall. Where there is no longest, ranks are not
/// right.
pub(crate) fn ranks_of(alloc: Global, stands: &[Stand]) -> Result<Vec<u32>, AllocError> {
    let mut ranks = vec![in alloc; 0u32; stands.len()]?;
    for _ in 0..stands.len() {
        if !go_over(stands, &mut ranks) {
            return Ok(ranks);
        }
    }
    Ok(ranks)
}
