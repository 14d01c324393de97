//! The laws of lawful histories. Each is the contract of a function that does nothing.

ghost use Rattle.run_laws.specs.Staying.{AppliedIsWithin, AttemptStays, BeginningStays, CommitIsAbovePuts, CommitIsRecord, CommitStays, EachIsPermitted, OlderIsLawful, PutWasPermitted, ServedWasPermitted, WhatStoodHolds};

/// What happened until some moment of a lawful history is lawful.
pub fn older_is_lawful()
    ensures { OlderIsLawful }
{}

/// Each item of a lawful history was permitted by what happened before it.
pub fn each_is_permitted()
    ensures { EachIsPermitted }
{}

/// Each read that was served was permitted where it was.
pub fn served_was_permitted()
    ensures { ServedWasPermitted }
{}

/// Each put was permitted where it was made.
pub fn put_was_permitted()
    ensures { PutWasPermitted }
{}

/// The record of an attempt that committed says so.
pub fn commit_is_record()
    ensures { CommitIsRecord }
{}

/// A commit stays.
pub fn commit_stays()
    ensures { CommitStays }
{}

/// An attempt stays as it was begun.
pub fn attempt_stays()
    ensures { AttemptStays }
{}

/// A transaction stays as it began.
pub fn beginning_stays()
    ensures { BeginningStays }
{}

/// No node has applied more than stands in the log.
pub fn applied_is_within()
    ensures { AppliedIsWithin }
{}

/// What a record said of its attempt's writes is so from then on.
pub fn what_stood_holds()
    ensures { WhatStoodHolds }
{}

/// An attempt that committed has put nothing above its commit.
pub fn commit_is_above_puts()
    ensures { CommitIsAbovePuts }
{}
