//! How many turns code takes, and whether its innermost loops could hold more, guessed from its words. Nothing is
//! promised of it.

use crate::stages::Code;
use std::alloc::{AllocError, Global};

/// Under this many loops in one another registers may be better spent than on pointers.
const MANY_LOOPS: usize = 2;

/// Any turn fewer makes code faster.
pub(crate) const ANY: u64 = u64::MAX;

/// One turn fewer in this many makes it much faster: that inner loops are entered often is guessed too low.
pub(crate) const MUCH: u64 = 16;

/// How many loops in one another are told apart; each is guessed to have 16 iterations.
const MOST_DEPTH: u32 = 8;

/// How many words a branch goes back, if a word is one that does.
fn back(word: u32) -> Option<usize> {
    let is_branch = word & 0x7f == 0x63;
    let is_negative = word >> 31 == 1;
    if !is_branch || !is_negative {
        return None;
    }
    let low = (((word >> 7) & 1) << 11) | (((word >> 25) & 0x3f) << 5) | (((word >> 8) & 0xf) << 1);
    Some((0x1000_u32.saturating_sub(low) / 4) as usize)
}

/// The place of the word that a branch at a place goes back to, if it does.
fn loop_start(place: usize, word: u32) -> Option<usize> {
    place.checked_sub(back(word)?)
}

/// In how many loops each word is.
fn depths(alloc: Global, words: &[u32]) -> Result<Vec<u32>, AllocError> {
    let mut begun: Vec<u32> = vec![in alloc; 0; words.len()]?;
    for (place, word) in words.iter().enumerate() {
        if let Some(start) = loop_start(place, *word) {
            if let Some(count) = begun.get_mut(start) {
                *count = count.saturating_add(1);
            }
        }
    }
    let mut depth: u32 = 0;
    let mut new_words = Vec::new(alloc);
    for (place, word) in words.iter().enumerate() {
        if let Some(count) = begun.get(place) {
            depth = depth.saturating_add(*count);
        }
        new_words.push(depth)?;
        if loop_start(place, *word).is_some() {
            depth = depth.saturating_sub(1);
        }
    }
    Ok(new_words)
}

/// How many turns words take, where each loop has this many iterations as is guessed.
///
/// # Errors
///
/// Memory ran out.
fn guessed_turns(alloc: Global, words: &[u32]) -> Result<u64, AllocError> {
    let found = depths(alloc, words)?;
    let mut turns: u64 = 0;
    for depth in found.as_slice() {
        turns = turns.saturating_add(1 << (4 * (*depth).min(MOST_DEPTH)));
    }
    Ok(turns)
}

/// Whether a word makes what a register could hold: a number's upper bits, or a product.
fn may_be_held(word: u32) -> bool {
    match word & 0x7f {
        0x37 => true,
        0x33 => (word >> 12) & 7 == 0 && word >> 25 == 1,
        _ => false,
    }
}

/// Whether the innermost loops make what registers could hold.
///
/// # Errors
///
/// Memory ran out.
fn may_hold_more(alloc: Global, words: &[u32]) -> Result<bool, AllocError> {
    let found = depths(alloc, words)?;
    let mut most = 0;
    for depth in found.as_slice() {
        most = most.max(*depth);
    }
    for (place, word) in words.iter().enumerate() {
        if found.get(place) == Some(&most) && may_be_held(*word) {
            return Ok(true);
        }
    }
    Ok(false)
}

/// Whether code is guessed to take fewer turns than other code, by one in this many, or there is no other.
pub(crate) fn is_faster(
    alloc: Global,
    code: &Option<Code>,
    other: &Option<Code>,
    one_in: u64,
) -> Result<bool, AllocError> {
    match (code, other) {
        (Some(one), Some(two)) => {
            let turns = guessed_turns(alloc, one.words.as_slice())?;
            let others = guessed_turns(alloc, two.words.as_slice())?;
            let least = if one_in == 0 { 0 } else { turns / one_in };
            Ok(turns.saturating_add(least) < others)
        }
        (Some(_), None) => Ok(true),
        (None, _) => Ok(false),
    }
}

/// Whether code is under this many loops that registers may be better spent than it does.
pub(crate) fn is_worth_more(
    alloc: Global,
    loops: usize,
    code: &Option<Code>,
) -> Result<bool, AllocError> {
    match code {
        None => Ok(true),
        Some(own) => {
            if loops < MANY_LOOPS {
                return Ok(false);
            }
            may_hold_more(alloc, own.words.as_slice())
        }
    }
}

/// Whether there is code, of this many words at most.
pub(crate) fn is_no_longer(code: &Option<Code>, most: usize) -> bool {
    match code {
        None => false,
        Some(own) => own.words.len() <= most,
    }
}
