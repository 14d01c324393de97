//! What a transaction has learned of attempts.

ghost use Rattle.std.specs.Prelude.{◌≡◌, ◌++◌, IfOk, OnOk, filter};
ghost use Rattle.txn_coord.specs.Fates.{is_earlier, is_later, learned};

use mr_base::{Known, ListOf, Memory};
use std::alloc::Global;

/// What is known once a fate is learned: one fate an attempt, the newest, in order of attempt.
pub fn learned(alloc: Global, fates: &[Known], known: Known) -> Result<ListOf<Known>, Memory>
    ensures { IfOk result (λ all. all ≡ learned known fates.now) }
{
    let mut all = earlier(alloc, fates, known)?;
    all.push(known)?;
    push_later(&mut all, fates, known)?;
    Ok(ListOf::from_vec(all))
}

/// The fates of earlier attempts.
fn earlier(alloc: Global, fates: &[Known], known: Known) -> Result<Vec<Known>, Memory>
    ensures { IfOk result (λ all. all.items ≡ filter (is_earlier known) fates.now) }
{
    let mut all = Vec::new(alloc);
    for fate in fates {
        if fate.attempt.0 < known.attempt.0 {
            all.push(*fate)?;
        }
    }
    Ok(all)
}

/// Adds the fates of later attempts.
fn push_later(all: &mut Vec<Known>, fates: &[Known], known: Known) -> Result<(), Memory>
    ensures { OnOk result (all.new.items ≡ all.old.items ++ filter (is_later known) fates.now) }
{
    for fate in fates {
        if known.attempt.0 < fate.attempt.0 {
            all.push(*fate)?;
        }
    }
    Ok(())
}
