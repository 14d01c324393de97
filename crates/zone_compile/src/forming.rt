//! Whether a configuration is one that some database and table have.

ghost use Rattle.std.specs.Prelude.{◌≡◌, ◌↔◌, ◌∷◌, [], ◌≤◌, All, Contains, IsTrue, IsUtf8, Some, map, max};
ghost use Rattle.std.specs.List.{list_any};
ghost use Rattle.std.specs.Str.{bytes_eq};
ghost use Rattle.descriptors.specs.Sound.{AreDistinct};
ghost use Rattle.zone_compile.specs.Configuration.{HasForm, IsAtHome, kept_at, spread_over, without_regions};

use crate::config::ZoneConfig;
use mr_base::{Bytes, is_utf8};
use region_sql::Goal;

/// Whether some database and table have this configuration.
pub fn is_form(c: &ZoneConfig) -> bool
    ensures has_form { IsTrue result → HasForm c.now }
    ensures recognised { HasForm c.now → IsTrue result }
{
    let Some(home) = &c.lease else {
        return is_without_regions(c);
    };
    let Some(goal) = c.goal else {
        return false;
    };
    if is_kept_at(c, home) {
        return true;
    }
    is_spread_over(c, home, goal)
}

fn is_without_regions(c: &ZoneConfig) -> bool
    ensures { IsTrue result ↔ (c.now ≡ without_regions) }
{
    if c.num_replicas != 1 || c.num_voters != 1 || c.global_reads {
        return false;
    }
    if c.lease.is_some() || c.goal.is_some() {
        return false;
    }
    c.constraints.is_empty() && c.voter_constraints.is_empty()
}

fn is_kept_at(c: &ZoneConfig, home: &Bytes) -> bool
    requires lease { c.now.lease ≡ Some home.now }
    ensures { IsTrue result ↔ (IsUtf8 home.now × (c.now ≡ kept_at home.now)) }
{
    if !is_utf8(home.as_slice()) {
        return false;
    }
    if c.num_replicas != 3 || c.num_voters != 3 || c.global_reads {
        return false;
    }
    if !matches!(c.goal, Some(Goal::Zone)) {
        return false;
    }
    if !is_only(c.voter_constraints.as_slice(), home, 3) {
        return false;
    }
    c.constraints.is_empty()
}

fn is_spread_over(c: &ZoneConfig, home: &Bytes, goal: Goal) -> bool
    requires lease { c.now.lease ≡ Some home.now }
    requires goal { c.now.goal ≡ Some goal }
    ensures { let regions = map (λ k. k.0) c.now.constraints in IsTrue result ↔ (IsAtHome goal regions home.now × (c.now ≡ spread_over goal regions home.now c.now.global_reads)) }
{
    if !is_at_home(goal, c.constraints.as_slice(), home) {
        return false;
    }
    let others = (c.constraints.len() as u32).saturating_sub(1);
    match goal {
        Goal::Zone => has_numbers(c, home, 3 + others, 3, 3),
        Goal::Region => has_numbers(c, home, at_least_five(2 + others), 5, 2),
    }
}

fn at_least_five(count: u32) -> u32
    ensures { result ≡ max 5 count }
{
    5.max(count)
}

/// Whether these are the regions of a database with this goal, and home is one of them.
fn is_at_home(goal: Goal, counts: &[(Bytes, u32)], home: &Bytes) -> bool
    ensures { IsTrue result ↔ IsAtHome goal (map (λ k. k.0) counts.now) home.now }
{
    if counts.len() > 16 {
        return false;
    }
    if !are_enough(goal, counts.len()) {
        return false;
    }
    if !are_texts(counts) {
        return false;
    }
    if !are_distinct(counts) {
        return false;
    }
    has_region(counts, home)
}

/// Whether a database with this goal may have so many regions.
fn are_enough(goal: Goal, regions: usize) -> bool
    ensures { IsTrue result ↔ (goal ≡ Goal.Region → 3 ≤ regions) }
{
    match goal {
        Goal::Zone => true,
        Goal::Region => 3 <= regions,
    }
}

/// Whether a configuration has these numbers, and one replica in each region.
fn has_numbers(c: &ZoneConfig, home: &Bytes, replicas: u32, voters: u32, at_home: u32) -> bool
    ensures { IsTrue result ↔ ((c.now.num_replicas ≡ replicas) × (c.now.num_voters ≡ voters) × All (λ k. k.1 ≡ 1) c.now.constraints × (c.now.voter_constraints ≡ (home.now, at_home) ∷ [])) }
{
    if c.num_replicas != replicas {
        return false;
    }
    if c.num_voters != voters {
        return false;
    }
    if !are_ones(c.constraints.as_slice()) {
        return false;
    }
    is_only(c.voter_constraints.as_slice(), home, at_home)
}

/// Whether the one count is this.
fn is_only(counts: &[(Bytes, u32)], region: &Bytes, count: u32) -> bool
    ensures { IsTrue result ↔ (counts.now ≡ (region.now, count) ∷ []) }
{
    let Some((first, more)) = counts.split_first() else {
        return false;
    };
    if !more.is_empty() {
        return false;
    }
    if first.0 != *region {
        return false;
    }
    first.1 == count
}

fn are_texts(counts: &[(Bytes, u32)]) -> bool
    ensures { IsTrue result ↔ All (λ k. IsUtf8 k.0) counts.now }
{
    for count in counts {
        if !is_utf8(count.0.as_slice()) {
            return false;
        }
    }
    true
}

fn are_ones(counts: &[(Bytes, u32)]) -> bool
    ensures { IsTrue result ↔ All (λ k. k.1 ≡ 1) counts.now }
{
    for count in counts {
        if count.1 != 1 {
            return false;
        }
    }
    true
}

fn names_region(counts: &[(Bytes, u32)], region: &Bytes) -> bool
    ensures { result ≡ list_any (λ k. bytes_eq k.0 region.now) counts.now }
{
    counts.iter().any(|k| k.0 == *region)
}

fn has_region(counts: &[(Bytes, u32)], region: &Bytes) -> bool
    ensures { IsTrue result ↔ Contains (map (λ k. k.0) counts.now) region.now }
{
    names_region(counts, region)
}

fn are_distinct(counts: &[(Bytes, u32)]) -> bool
    ensures { IsTrue result ↔ AreDistinct (map (λ k. k.0) counts.now) }
{
    for (i, count) in counts.iter().enumerate() {
        if names_region(&counts[..i], &count.0) {
            return false;
        }
    }
    true
}
